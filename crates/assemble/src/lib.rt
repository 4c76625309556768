// The unit list and the cue list of segments (document 01).
#![tactic(auto)]

pub mod headers;
pub mod multi;
mod nonempty;
pub mod plan;
pub mod segments;
pub mod unit;
