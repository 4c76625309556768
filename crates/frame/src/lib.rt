// The frame header of AV1, up to refresh_frame_flags, read from its payload or from the unit that has it.
#![tactic(auto)]

pub mod frame_header;
pub mod refresh;
pub mod unit_frame;
