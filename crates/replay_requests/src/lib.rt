// The requests: a row for each, and the operation that answers it.
#![tactic(auto)]

mod operations;
mod requests;
mod rows;

pub use operations::{Given, operate};
pub use requests::{Request, Unread, read_request};
pub use rows::Operation;
