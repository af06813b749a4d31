// The station's state by value, its image in the first octets of the lent memory, and Start.
#![tactic(auto)]

pub mod answer;
pub mod chain;
pub mod control;
pub mod image;
pub mod layout;
pub mod load;
pub mod memory;
pub mod number;
pub mod saving;
pub mod setup;
pub mod start;
pub mod state;
pub mod well;
