//! The grammar of function files, and the reader of its expressions.
#![tactic(auto)]

mod cursor;
mod depth;
mod faults;
pub mod laws;
mod levels;
mod lexemes;
mod parse;
mod reader;

pub use cursor::{expect, lexeme_at, line_at, syntax, text_at};
pub use depth::{first_too_deep, is_counted, nests};
pub use faults::ParseFault;
pub use lexemes::Lexeme;
pub use parse::parse_expr;
pub use reader::{bracketed, expression, subscript};
