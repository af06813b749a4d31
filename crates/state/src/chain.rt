// The chain of a master's requests: the last one, with which the next is compared. What it drew and its frame count bit are one octet, so
// that loading the control part decodes nothing of it. Its fields are in the order of the image, so that both move as one half word.
ghost use Rattle.std.specs.Prelude.{◌≡◌};
ghost use Rattle.state.specs.Chain.{chain_of, no_chain, fcb_in, drawn_in};

use crate::number::Numbered;
use crate::state::Drawn;

#[derive(Clone, Copy)]
pub struct Chain {
    // the number of what it drew, doubled, and its frame count bit
    pub code: u8,
    // the address of the master that sent it, or NO_MASTER: an octet, as the image has it
    pub master: u8,
}

impl Chain {
    // The address of all stations, which no master has, stands for no chain.
    pub const NO_MASTER: u8 = 127;

    // A request of this master, with this frame count bit, that drew this.
    pub fn new(master: u8, fcb: bool, drawn: Drawn) -> Self
        ensures { result ≡ chain_of master fcb drawn }
    {
        Self {
            code: 2 * drawn.number() + u8::from(fcb),
            master,
        }
    }

    // No request that a telegram could repeat.
    pub fn none() -> Self
        ensures { result ≡ no_chain }
    {
        Self {
            code: 0,
            master: Self::NO_MASTER,
        }
    }

    // Its frame count bit.
    pub fn fcb(self) -> bool
        ensures { result ≡ fcb_in self }
    {
        self.code % 2 == 1
    }

    // What it drew.
    pub fn drawn(self) -> Drawn
        ensures { result ≡ drawn_in self }
    {
        Drawn::numbered(self.code / 2)
    }
}
