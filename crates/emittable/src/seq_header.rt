// Whether a payload reads as the fields of a sequence header.
pub mod emit_fits;
mod emit_fits_coding;
