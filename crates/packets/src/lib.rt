// Packets joined and units made canonical.
#![tactic(auto)]

pub mod packets;
