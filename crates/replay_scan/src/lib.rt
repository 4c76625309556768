// The request on whole frame headers.
#![tactic(auto)]

mod deltas;
mod scan_fields;
pub mod scan_ops;
