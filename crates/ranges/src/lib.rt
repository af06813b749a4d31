// Octets of a memory held to limits, eight at once in a word. Nothing here knows what the octets mean.
#![tactic(auto)]

pub mod checks;
pub mod word;
