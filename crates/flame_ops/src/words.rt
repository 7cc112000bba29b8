//! The operators, keywords and directives of the source, and the longest spelling at a place.

ghost use Rattle.std.specs.Prelude.{◌≡◌, ◌≤◌, length, drop, IfSome, IfNone};
ghost use Rattle.flame_ops.specs.Spellings.{IsTable, IsLongest, NoneStands};
ghost use Rattle.flame_ops.specs.Words.{operator_spellings, keyword_spellings, directive_spellings};

use crate::spelling::Spelling;
use crate::table::Table;

/// The table of some texts in this order.
macro_rules! table {
    ($($text:literal)*) => { Table::of([$(Spelling::of($text)),*]) };
}

/// The operators and other marks of the source, 31 spellings (C standard, 6.4.6).
pub fn operators() -> Table<31>
    ensures spellings { result ≡ operator_spellings }
    ensures table { IsTable operator_spellings }
{
    // ORDER MARKS
    table! {
        b"+" b"-" b"*" b"/" b"%" b"++" b"--" b"+=" b"-=" b"*=" b"/=" b"%=" b"=" b"==" b"!=" b"!"
        b"<" b">" b"<=" b">=" b"&&" b"||" b"(" b")" b"{" b"}" b"," b";" b"->"
        b"[" b"]"
    }
}

/// The keywords of the source, 10 spellings (C standard, 6.4.1).
pub fn keywords() -> Table<10>
    ensures spellings { result ≡ keyword_spellings }
    ensures table { IsTable keyword_spellings }
{
    table! {
        b"int" b"void" b"if" b"else" b"while" b"for" b"do" b"return" b"break" b"continue"
    }
}

/// The directives of the source, 2 spellings (C standard, 6.10.2 and 6.10.3).
pub fn directives() -> Table<2>
    ensures spellings { result ≡ directive_spellings }
    ensures table { IsTable directive_spellings }
{
    table! { b"include" b"define" }
}

/// The number of the longest spelling that stands at the place `at` of the bytes, None exactly where none stands there
/// (C standard, 6.4: the longest sequence of characters). Compares each spelling at most once with as many bytes as it
/// has.
pub fn longest<const N: usize>(table: &Table<N>, bytes: &[u8], at: usize) -> Option<usize>
    requires { at ≤ length bytes.now }
    ensures found { IfSome result (λ number. IsLongest table.now (drop at bytes.now) number) }
    ensures missing { IfNone result (NoneStands table.now (drop at bytes.now)) }
{
    table.longest(&bytes[at..])
}
