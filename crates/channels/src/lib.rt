// Acyclic channels: sixteen of them, each with an indication and a response buffer behind the other buffers.
// deeds, places and poll are for the calls on a channel that are to come: no call uses them yet.
#![tactic(auto)]

pub mod channel;
pub mod deeds;
pub mod places;
pub mod poll;
pub mod setting;
pub mod survey;
