//! Tokens.

use flame_rows::Text;

/// What a lexeme is (C standard, 6.4.1, 6.4.2, 6.4.4 and 6.4.6).
#[derive(Debug, Drop)]
pub enum Kind {
    /// A word that is none of those below.
    Word(Text),
    /// A number: of a numeral from 0 to 2147483647, of a word that a define line names from -2147483647.
    Number(i32),
    /// A mark, by its number in `flame_ops::operators`.
    Mark(u32),
    /// A keyword, by its number in `flame_ops::keywords`.
    Key(u32),
    /// The word that opens a loop over the messages of this name, as `START_NAME_MESSAGE_LOOP` (FLAME User Manual).
    Start(Text),
    /// The word that closes such a loop, as `FINISH_NAME_MESSAGE_LOOP`.
    Finish(Text),
}

/// A lexeme and its place in the text.
#[derive(Debug, Drop)]
pub struct Token {
    pub kind: Kind,
    /// The byte offset of its first byte, from 0.
    pub at: u32,
    /// The line on which it stands, from 1. Lines end by LF alone.
    pub line: u32,
}
