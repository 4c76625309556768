// The whole frame header of AV1, scanned under a sequence header and the slots that earlier frames left.
#![tactic(auto)]

pub mod dpb;
pub mod scan;
pub mod scanner;
pub mod shape;
pub mod tail;
