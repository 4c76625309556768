// A frame's references, size and tiles (AV1 5.9.2, 5.9.5 to 5.9.9, 5.9.15).
#![tactic(auto)]

pub mod refs;
pub mod size;
pub mod slots;
pub mod tile_limits;
pub mod tiles;
