// The way of one list at run time, from the segments to the last unit played. What has to come of it is crate demand's.
#![tactic(auto)]

pub mod gather;
pub mod play;
pub mod walk;
pub mod way;
