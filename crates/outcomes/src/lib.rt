// What the rules give, carried out on the state and the buffers of the lent memory.
#![tactic(auto)]

pub mod carry;
pub mod line;
pub mod over;
pub mod settling;
