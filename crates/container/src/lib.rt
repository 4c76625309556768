// Units from and to a stream, lists of units in lent memory, and the OBUs between two positions (document 01).
#![tactic(auto)]

pub mod extents;
pub mod lists;
pub mod ranges;
pub mod stream;
mod survey;
pub mod units;
