// OBUs of AV1 (5.3): one at a position of lent bytes, a whole unit, and one written.
#![tactic(auto)]

pub mod obus;
pub mod reader;
pub mod unit;
pub mod writer;
