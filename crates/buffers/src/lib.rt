// What the station's buffers are kept by: the sets of three and of four, and the event word.
#![tactic(auto)]

pub mod events;
pub mod quad;
pub mod triple;
