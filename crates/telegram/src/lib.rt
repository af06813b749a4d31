// The telegram layer: telegrams of the bus as octets, read and sent one octet after the other.
// It knows no DP service.
#![tactic(auto)]

pub mod reader;
pub mod sender;

// A telegram's start delimiter: 10 (no data), 68 (1 to 246 data octets), A2 (8 data octets), DC (token).
#[derive(Clone, Copy, PartialEq, Eq, Debug)]
pub enum Kind {
    Sd1,
    Sd2,
    Sd3,
    Sd4,
}
