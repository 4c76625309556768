// Whether a payload reads as the fields of a sequence header.
#![tactic(auto)]

pub mod seq_header;
