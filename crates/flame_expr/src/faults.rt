//! Why tokens have no tree.

ghost use Rattle.std.specs.Prelude.{◌≡◌};
ghost use Rattle.flame_expr.specs.ParseFaults.{token_of, name_of};

/// Where the reading of tokens stops, by the number of a token from 0, and why. The number of tokens stands for their
/// end.
#[derive(Clone, Copy, Debug, PartialEq, Eq)]
pub enum ParseFault {
    /// With this token more than 64 brackets, braces and message loops are open.
    TooDeep(u32),
    /// The tokens before this one may begin what is read, and with this one they may not.
    Syntax(u32),
}

impl ParseFault {
    /// The number of the token, from 0; the number of tokens for their end.
    pub fn token(&self) -> u32
        ensures { result ≡ token_of self.now }
    {
        match self {
            ParseFault::TooDeep(token) | ParseFault::Syntax(token) => *token,
        }
    }

    /// The cause's name, as it is printed.
    pub fn name(&self) -> &'static str
        ensures { result.now ≡ name_of self.now }
    {
        match self {
            ParseFault::TooDeep(_) => "TooDeep",
            ParseFault::Syntax(_) => "Syntax",
        }
    }
}
