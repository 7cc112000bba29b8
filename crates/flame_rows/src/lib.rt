//! Lists, texts, rows of numbers, bags of rows and values on the heap, which contracts see as what they hold; why a call
//! gives no answer, and what several calls give together.
#![tactic(auto)]

mod bags;
mod blobs;
mod boxes;
mod copies;
mod fails;
pub mod laws;
mod numbers;
mod parts;
mod results;
mod rows;
mod runs;
mod sameness;
mod seqs;
mod texts;

pub use bags::Bag;
pub use blobs::Blob;
pub use boxes::Boxed;
pub use copies::Copied;
pub use fails::{Fail, NoMemory};
pub use numbers::number;
pub use results::all_of;
pub use rows::{Row, SHORT_ROW};
pub use runs::Runs;
pub use sameness::Same;
pub use seqs::Seq;
pub use texts::Text;
