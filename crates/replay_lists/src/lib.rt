// The requests on lists: assembly and play, and the slot that show units name.
#![tactic(auto)]

pub mod assemble_ops;
mod assembled;
pub mod play_ops;
pub mod slot_ops;
