//! Why a text has no tokens.

ghost use Rattle.std.specs.Prelude.{◌≡◌};
ghost use Rattle.flame_lex.specs.LexFaults.{offset_of, name_of};

/// Where the cut of a text cannot go on, by the byte offset from 0, and why.
#[derive(Clone, Copy, Debug, PartialEq, Eq)]
pub enum LexFault {
    /// No piece begins with this byte.
    BadByte(u32),
    /// The run of letters, digits and `_` that begins with this digit is no number.
    BadNumber(u32),
    /// The number that begins here is above 2147483647.
    BigNumber(u32),
    /// The comment that begins here has no end.
    OpenComment(u32),
    /// The directive that begins here is neither `#include` nor `#define`.
    Directive(u32),
    /// The line of the `#define` that begins here gives no word a number.
    BadDefine(u32),
}

impl LexFault {
    /// The byte offset of the place, from 0.
    pub fn offset(&self) -> u32
        ensures { result ≡ offset_of self.now }
    {
        match self {
            LexFault::BadByte(at)
            | LexFault::BadNumber(at)
            | LexFault::BigNumber(at)
            | LexFault::OpenComment(at)
            | LexFault::Directive(at)
            | LexFault::BadDefine(at) => *at,
        }
    }

    /// The cause's name, as it is printed.
    pub fn name(&self) -> &'static str
        ensures { result.now ≡ name_of self.now }
    {
        match self {
            LexFault::BadByte(_) => "BadByte",
            LexFault::BadNumber(_) => "BadNumber",
            LexFault::BigNumber(_) => "BigNumber",
            LexFault::OpenComment(_) => "OpenComment",
            LexFault::Directive(_) => "Directive",
            LexFault::BadDefine(_) => "BadDefine",
        }
    }
}
