// The list of units and its cues.
#![tactic(auto)]

mod block;
pub mod blocks;
pub mod numbers;
