// The requests on bits, OBUs and headers.
#![tactic(auto)]

pub mod bitio_ops;
pub mod header_ops;
pub mod obu_ops;
mod sequence_fields;
