// The sequence header of AV1: read, checked and timed.
#![tactic(auto)]

pub mod seq_header;
