//! The operators of the levels of expressions, and the signs.

ghost use Rattle.std.specs.Prelude.{◌≡◌};
ghost use Rattle.flame_expr.specs.OperatorLevels.{op_of, sign_of};

use crate::lexemes::Lexeme;
use flame_ops::Op;
use flame_spec::SignKind;

/// The operator that a lexeme is between the parts of this level of a chain.
pub(crate) fn op_between(level: u32, lexeme: Lexeme) -> Option<Op>
    ensures { result ≡ op_of level lexeme }
{
    match level {
        0 => product_op(lexeme),
        1 => sum_op(lexeme),
        2 => relation_op(lexeme),
        3 => equality_op(lexeme),
        _ => None,
    }
}

fn product_op(lexeme: Lexeme) -> Option<Op>
    ensures { result ≡ op_of 0 lexeme }
{
    match lexeme {
        Lexeme::Star => Some(Op::Mul),
        Lexeme::Slash => Some(Op::Div),
        Lexeme::Percent => Some(Op::Rem),
        _ => None,
    }
}

fn sum_op(lexeme: Lexeme) -> Option<Op>
    ensures { result ≡ op_of 1 lexeme }
{
    match lexeme {
        Lexeme::Plus => Some(Op::Add),
        Lexeme::Minus => Some(Op::Sub),
        _ => None,
    }
}

fn relation_op(lexeme: Lexeme) -> Option<Op>
    ensures { result ≡ op_of 2 lexeme }
{
    match lexeme {
        Lexeme::Below => Some(Op::Lt),
        Lexeme::Above => Some(Op::Gt),
        Lexeme::AtMost => Some(Op::Le),
        Lexeme::AtLeast => Some(Op::Ge),
        _ => None,
    }
}

fn equality_op(lexeme: Lexeme) -> Option<Op>
    ensures { result ≡ op_of 3 lexeme }
{
    match lexeme {
        Lexeme::Same => Some(Op::Eq),
        Lexeme::Differs => Some(Op::Ne),
        _ => None,
    }
}

/// The sign that a lexeme is.
pub(crate) fn sign(lexeme: Lexeme) -> Option<SignKind>
    ensures { result ≡ sign_of lexeme }
{
    match lexeme {
        Lexeme::Minus => Some(SignKind::Minus),
        Lexeme::Plus => Some(SignKind::Plus),
        Lexeme::Bang => Some(SignKind::Bang),
        _ => None,
    }
}
