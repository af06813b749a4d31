// Why a line has no answer.
use std::alloc::{AllocError, AllocFailed};
use std::num::TryFromIntError;

#[derive(Clone, Copy, Debug)]
pub enum Fault {
    NoCall,
    OutOfMemory,
}

impl From<AllocError> for Fault {
    fn from(_e: AllocError) -> Fault {
        Fault::OutOfMemory
    }
}

impl From<AllocFailed<u8>> for Fault {
    fn from(_e: AllocFailed<u8>) -> Fault {
        Fault::OutOfMemory
    }
}

// A number that has more bits than the call takes.
impl From<TryFromIntError> for Fault {
    fn from(_e: TryFromIntError) -> Fault {
        Fault::NoCall
    }
}
