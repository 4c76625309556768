// The parts of assembly: sizes, headers, frames, slots, units rewritten, pictures.
#![tactic(auto)]

pub mod fault;
pub mod frames;
pub mod headers;
pub mod pictures;
pub mod rewrite;
pub mod settings;
pub mod sizes;
pub mod slot;
