// The sequence header of AV1, emitted.
#![tactic(auto)]

pub mod seq_header;
