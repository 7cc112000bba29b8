//! The lexemes of C source: a text is cut into blanks, comments, include lines, define lines and lexemes.
#![tactic(auto)]

mod bytes;
mod define;
mod define_table;
mod directive;
mod fault;
mod found;
mod gap;
pub mod laws;
mod lexeme;
mod lexer;
mod number;
mod place;
mod scan;
mod tables;
mod token;
mod word;

pub use fault::LexFault;
pub use lexer::lex;
pub use token::{Kind, Token};
