// The window: cells 000H to 015H of the chip, for older vat programs that read and write addresses. Behind a cell is a call of the
// station, or nothing. The lists of calls that are made so, and what is claimed of them, stand in specs/.
#![tactic(auto)]

pub mod calls;
pub mod command;
pub mod order;
