//! Laws of the cut. Each function is its contract: it computes nothing.

ghost use Rattle.flame_lex.specs.CutLaws.{PieceIsUnique, CutIsUnique, TokensAreUnique, FaultIsUnique, TokensOrFault};
ghost use Rattle.flame_lex.specs.CutLaws.{EveryTextIsRead, TokensAreFew};

/// At one place at most one piece stands, so at most one cut covers a text. A text has at most one token list and at
/// most one fault, and never both.
pub fn one_reading()
    ensures piece { PieceIsUnique }
    ensures cut { CutIsUnique }
    ensures tokens { TokensAreUnique }
    ensures fault { FaultIsUnique }
    ensures apart { TokensOrFault }
{}

/// Every text has tokens or a fault, and at most as many tokens as bytes.
pub fn some_reading()
    ensures read { EveryTextIsRead }
    ensures few { TokensAreFew }
{}
