//! The operators of assignments, and what begins a statement.

ghost use Rattle.std.specs.Prelude.{◌≡◌};
ghost use Rattle.flame_parse.specs.AssignmentOperators.{set_op, step_op, starts};

use flame_expr::Lexeme;
use flame_ops::Op;

/// The operator before the `=`, where the lexeme is `=` or ends in it.
pub(crate) fn set_operator(lexeme: Lexeme) -> Option<Option<Op>>
    ensures { result ≡ set_op lexeme }
{
    match lexeme {
        Lexeme::Set => Some(None),
        Lexeme::PlusSet => Some(Some(Op::Add)),
        Lexeme::MinusSet => Some(Some(Op::Sub)),
        Lexeme::StarSet => Some(Some(Op::Mul)),
        Lexeme::SlashSet => Some(Some(Op::Div)),
        Lexeme::PercentSet => Some(Some(Op::Rem)),
        _ => None,
    }
}

/// The operator of one more or one less.
pub(crate) fn step_operator(lexeme: Lexeme) -> Option<Op>
    ensures { result ≡ step_op lexeme }
{
    match lexeme {
        Lexeme::PlusPlus => Some(Op::Add),
        Lexeme::MinusMinus => Some(Op::Sub),
        _ => None,
    }
}

/// Whether a statement begins with this lexeme.
pub(crate) fn starts_statement(lexeme: Lexeme) -> bool
    ensures { result ≡ starts lexeme }
{
    match lexeme {
        Lexeme::Int | Lexeme::OpenBrace | Lexeme::If | Lexeme::While | Lexeme::For => true,
        Lexeme::Do | Lexeme::Start | Lexeme::Semicolon | Lexeme::Word | Lexeme::PlusPlus => true,
        Lexeme::MinusMinus | Lexeme::Return | Lexeme::Break | Lexeme::Continue => true,
        _ => false,
    }
}
