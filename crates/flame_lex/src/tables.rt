//! The operators, the keywords and the directives.

ghost use Rattle.std.specs.Prelude.{◌≡◌, false, MatchOption};
ghost use Rattle.flame_ops.specs.Spellings.{NoneStands};
ghost use Rattle.flame_ops.specs.Words.{operator_spellings, keyword_spellings, directive_spellings};

use crate::lexeme::Lexeme;
use crate::token::Kind;
use flame_ops::{Table, directives, keywords, longest, operators};

/// The tables of all operators, of all keywords and of all directives. ORDER MARKS
#[derive(Drop)]
pub(crate) struct Tables {
    pub operators: Table<31>,
    pub keywords: Table<10>,
    pub directives: Table<2>,
    ghost operators_are: { operators ≡ operator_spellings },
    ghost keywords_are: { keywords ≡ keyword_spellings },
    ghost directives_are: { directives ≡ directive_spellings },
}

impl Tables {
    ghost use Rattle.flame_lex.specs.LexPieces.{begins_comment};
    ghost use Rattle.flame_lex.specs.LexSteps.{IsToken};

    pub fn new() -> Tables {
        Tables {
            operators: operators(),
            keywords: keywords(),
            directives: directives(),
        }
    }

    /// The longest operator at the front of the bytes, where no comment begins.
    pub fn mark(&self, bytes: &[u8]) -> Option<Lexeme>
        requires { begins_comment bytes.now ≡ false }
        ensures { MatchOption result
            (NoneStands operator_spellings bytes.now)
            (λ l. IsToken l.kind bytes.now l.length) }
    {
        let number = longest(&self.operators, bytes, 0)?;
        Some(Lexeme {
            kind: Kind::Mark(number as u32),
            length: self.operators.spelling(number).len(),
        })
    }
}
