// Bit syntax read field by field: fields of a given width, fields read over, ns(n) and su(n).
#![tactic(auto)]

pub mod near;
pub mod over;
pub mod signed;
pub mod turns;
