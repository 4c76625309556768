// The sections of a frame header behind its tile information (AV1 5.9.2).
#![tactic(auto)]

pub mod cdef;
pub mod deltas;
pub mod filter;
pub mod lossless;
pub mod motion;
pub mod quant;
pub mod restoration;
pub mod segments;
pub mod skip;
