//! What the words of function files stand for, looked up in hashed tables.
#![tactic(auto)]

mod forms;
mod found;
mod functions;
mod lists;
mod running;
mod sources;
mod table;
mod words;

pub use found::{Act, CFunction, Found, Helper, Meant, Transition};
pub use sources::Tables;
pub use table::{Table, messages_by_name, put, width};
pub use words::Words;
