//! The texts that are printed: the lines of refusals and faults, and what `graph` and `code` print of a program. Each text
//! ends its last line with a line feed; one without lines is empty.
#![tactic(auto)]

mod codes;
mod depending;
mod faulting;
mod graphs;
mod listings;
mod memories;
mod models;
mod named;
mod populations;
mod sources;
mod traces;
mod words;

pub use codes::code_text;
pub use depending::depend_text;
pub use faulting::sim_text;
pub use graphs::graph_text;
pub use models::{name_text, nest_text, shape_text};
pub use populations::{line_text, pop_text};
pub use sources::{check_text, lex_text, parse_text};
pub use traces::trace_fault_text;
pub use words::{file_text, usage_text};
