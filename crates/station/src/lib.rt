// The station over its lent memory: the calls of the bus and of the vat program.
#![tactic(auto)]

pub mod bus;
pub mod calls;
pub mod completing;
pub mod hearing;
pub mod memory;
pub mod over_memory;
pub mod reading;
pub mod replies;
pub mod start;
pub mod user;
