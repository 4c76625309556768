// The file that the program boardlist reads and the text that it prints (document 01, 'Unit list and cue list').
#![tactic(auto)]

pub mod decimal;
pub mod file;
pub mod memory;
pub mod page;
pub mod text;
