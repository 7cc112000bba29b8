//! Populations: reading them from JSON values, and writing the texts of iterations and the lines that tell of them.
#![tactic(auto)]

mod agents;
mod boards;
mod entries;
mod environment;
mod faults;
mod fields;
mod formats;
mod forms;
mod kinds;
pub mod laws;
mod lines;
mod lists;
mod members;
mod numbers;
mod objects;
mod parts;
mod pieces;
mod populations;
mod puts;
mod rows;
mod shapes;
mod sharing;
mod starts;
mod states;
mod tables;
mod tails;
mod texts;
mod values;
mod wholes;
mod writers;

pub use faults::{PopFault, PopKind};
pub use formats::Format;
pub use lines::line;
pub use populations::population;
pub use starts::Start;
pub use texts::{text, text_by};
