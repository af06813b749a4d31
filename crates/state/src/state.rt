// The whole state that is kept between calls.
use crate::control::Control;
use crate::setup::Setup;
use buffers::quad::Quad;
use buffers::triple::Triple;
use telegram::reader::Reader;
use telegram::sender::Sender;

// The output buffers. zeros: what was published last were zeros by the station.
#[derive(Clone, Copy)]
pub struct Outputs {
    pub set: Quad,
    pub zeros: bool,
}

// Received sets of parameters or of configuration: the count of the set that is shown and of the one that waits, 0 for none, as the image has
// them.
#[derive(Clone, Copy)]
pub struct Sets {
    pub set: Triple,
    pub shown: u8,
    pub waiting: u8,
}

// The telegram that is coming. first and second: the data octets 0 and 1 that came last; only Global_Control looks at them.
#[derive(Clone, Copy)]
pub struct Incoming {
    pub reader: Reader,
    pub first: u8,
    pub second: u8,
}

// What a telegram draws.
#[derive(Clone, Copy, PartialEq, Eq, Debug)]
pub enum Drawn {
    // no reply
    Nothing,
    // E5
    Acknowledge,
    // the reply to a status request
    Status,
    // RS: no service
    Rejected,
    // the inputs in reply to Data_Exchange
    Exchange,
    // Read_Inputs, Read_Outputs, Get_Cfg and Slave_Diag
    Inputs,
    Outputs,
    Configuration,
    Diagnosis,
}

// The first diagnosis octets as they were when the reply was drawn: the three status octets and the master's address.
#[derive(Clone, Copy, Default)]
pub struct Header {
    pub status1: u8,
    pub status2: u8,
    pub status3: u8,
    pub master: u8,
}

// The reply in progress. place: the output buffer that Read_Outputs sends from.
#[derive(Clone, Copy)]
pub struct Reply {
    pub drawn: Drawn,
    pub sender: Sender,
    pub place: u8,
    pub header: Header,
}

#[derive(Clone, Copy)]
pub struct State {
    pub setup: Setup,
    pub control: Control,
    pub outputs: Outputs,
    pub inputs: Triple,
    pub parameters: Sets,
    pub configuration: Sets,
    // the controller's diagnosis buffer is the second
    pub swapped: bool,
    pub incoming: Incoming,
    pub reply: Reply,
}
