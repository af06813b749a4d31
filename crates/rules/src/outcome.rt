// What comes of a telegram, a tick or a user call.
use state::control::Control;
use state::state::Drawn;

// What becomes of the outputs.
#[derive(Clone, Copy, PartialEq, Eq, Debug)]
pub enum OutputsDeed {
    Keep,
    // the data received is published
    Publish,
    // the data received is held back
    HoldBack,
    // what is held back is published
    Release,
    // the station publishes zeros, and nothing is held back any more
    Zeros,
}

// What becomes of the inputs.
#[derive(Clone, Copy, PartialEq, Eq, Debug)]
pub enum InputsDeed {
    Keep,
    // new inputs come to the sending buffer
    Bring,
}

// What becomes of the sets of parameters or of configuration.
#[derive(Clone, Copy, PartialEq, Eq, Debug)]
pub enum SetDeed {
    Keep,
    // the data received is shown, or waits where a set is open
    Receive,
    // the set that waits is shown instead
    Advance,
    // no set is shown or waits any more
    Drop,
}

#[derive(Clone, Copy)]
pub struct Outcome {
    pub control: Control,
    pub outputs: OutputsDeed,
    pub inputs: InputsDeed,
    pub parameters: SetDeed,
    pub configuration: SetDeed,
    pub drawn: Drawn,
}
