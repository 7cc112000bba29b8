//! Places in a text.

ghost use Rattle.std.specs.Prelude.{◌≡◌, ◌+◌, ◌<◌, ◌≤◌, List, ℕ, [], ◌++◌, ◌∷◌, length};

/// What the bytes before a place say of it: their number, the line, and whether nothing but spaces and tabs stands
/// before it on its line.
#[derive(Clone, Copy)]
pub(crate) struct Place {
    pub at: u32,
    pub line: u32,
    pub line_begins: bool,
    ghost within: { line ≤ at + 1 },
}

impl Place {
    ghost use Rattle.flame_lex.specs.LexSteps.{IsPlace};

    /// The first place of a text.
    pub fn first() -> Place
        ensures { IsPlace [] result }
    {
        Place {
            at: 0,
            line: 1,
            line_begins: true,
        }
    }

    /// The place after the bytes that stand at this one.
    pub fn past(self, bytes: &[u8]) -> Place
        requires { self.at + length bytes.now ≤ 4194304 }
        ensures { (before : List ℕ) → IsPlace before self → IsPlace (before ++ bytes.now) result }
    {
        let mut place = self;
        for b in bytes {
            place = place.past_byte(*b);
        }
        place
    }

    /// The place after the byte that stands at this one.
    fn past_byte(self, b: u8) -> Place
        requires { self.at < 4194304 }
        ensures at { result.at ≡ self.at + 1 }
        ensures place { (before : List ℕ) → IsPlace before self → IsPlace (before ++ b ∷ []) result }
    {
        if b == b'\n' {
            Place {
                at: self.at + 1,
                line: self.line + 1,
                line_begins: true,
            }
        } else {
            Place {
                at: self.at + 1,
                line: self.line,
                line_begins: self.line_begins && (b == b' ' || b == b'\t'),
            }
        }
    }
}
