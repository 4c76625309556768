// The line protocol: lines, their fields, the memory that requests are lent, and what is printed of it.
#![tactic(auto)]

pub mod answer;
pub mod fields;
pub mod input;
pub mod kinds;
pub mod lent;
pub mod memory;
pub mod output;
pub mod printer;
pub mod text;
