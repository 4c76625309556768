// The requests on containers and packets.
#![tactic(auto)]

pub mod container_ops;
