// Emitting a sequence header.
pub mod emit;
mod emit_coding;
mod emit_opening;
mod payload;
