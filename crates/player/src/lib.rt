// The player of document 01: eight slots, a kept sequence header, and one unit played.
#![tactic(auto)]

pub mod keep;
pub mod play;
pub mod slots;
