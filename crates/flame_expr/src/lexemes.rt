//! What a token is to the grammar.

ghost use Rattle.std.specs.Prelude.{◌≡◌, slice_index_or};
ghost use Rattle.flame_expr.specs.Lexemes.{lexeme_of, mark_of, keyword_of};

use flame_lex::Kind;

/// What a rule of the grammar asks of a token: its kind, and of a mark or a keyword which one. The names of words and
/// of message loops, and the value of a number, play no part.
// ORDER MARKS
#[derive(Clone, Copy, PartialEq)]
pub enum Lexeme {
    /// No token, or a mark or keyword that is in no table.
    Nothing,
    Word,
    Number,
    /// `START_NAME_MESSAGE_LOOP`
    Start,
    /// `FINISH_NAME_MESSAGE_LOOP`
    Finish,
    /// `+`
    Plus,
    /// `-`
    Minus,
    /// `*`
    Star,
    /// `/`
    Slash,
    /// `%`
    Percent,
    /// `++`
    PlusPlus,
    /// `--`
    MinusMinus,
    /// `+=`
    PlusSet,
    /// `-=`
    MinusSet,
    /// `*=`
    StarSet,
    /// `/=`
    SlashSet,
    /// `%=`
    PercentSet,
    /// `=`
    Set,
    /// `==`
    Same,
    /// `!=`
    Differs,
    /// `!`
    Bang,
    /// `<`
    Below,
    /// `>`
    Above,
    /// `<=`
    AtMost,
    /// `>=`
    AtLeast,
    /// `&&`
    AndAnd,
    /// `||`
    OrOr,
    /// `(`
    Open,
    /// `)`
    Close,
    /// `{`
    OpenBrace,
    /// `}`
    CloseBrace,
    /// `[`
    OpenBracket,
    /// `]`
    CloseBracket,
    /// `,`
    Comma,
    /// `;`
    Semicolon,
    /// `->`
    Arrow,
    /// `int`
    Int,
    /// `void`
    Void,
    /// `if`
    If,
    /// `else`
    Else,
    /// `while`
    While,
    /// `for`
    For,
    /// `do`
    Do,
    /// `return`
    Return,
    /// `break`
    Break,
    /// `continue`
    Continue,
}

/// The marks by their numbers in `flame_ops::operators`.
// ORDER MARKS
pub const MARKS: [Lexeme; 31] = [
    Lexeme::Plus,
    Lexeme::Minus,
    Lexeme::Star,
    Lexeme::Slash,
    Lexeme::Percent,
    Lexeme::PlusPlus,
    Lexeme::MinusMinus,
    Lexeme::PlusSet,
    Lexeme::MinusSet,
    Lexeme::StarSet,
    Lexeme::SlashSet,
    Lexeme::PercentSet,
    Lexeme::Set,
    Lexeme::Same,
    Lexeme::Differs,
    Lexeme::Bang,
    Lexeme::Below,
    Lexeme::Above,
    Lexeme::AtMost,
    Lexeme::AtLeast,
    Lexeme::AndAnd,
    Lexeme::OrOr,
    Lexeme::Open,
    Lexeme::Close,
    Lexeme::OpenBrace,
    Lexeme::CloseBrace,
    Lexeme::Comma,
    Lexeme::Semicolon,
    Lexeme::Arrow,
    Lexeme::OpenBracket,
    Lexeme::CloseBracket,
];

/// The keywords by their numbers in `flame_ops::keywords`.
pub const KEYWORDS: [Lexeme; 10] = [
    Lexeme::Int,
    Lexeme::Void,
    Lexeme::If,
    Lexeme::Else,
    Lexeme::While,
    Lexeme::For,
    Lexeme::Do,
    Lexeme::Return,
    Lexeme::Break,
    Lexeme::Continue,
];

impl Lexeme {
    /// What a kind of token is to the grammar.
    pub fn of(kind: &Kind) -> Lexeme
        ensures { result ≡ lexeme_of kind.now }
    {
        match kind {
            Kind::Word(_) => Lexeme::Word,
            Kind::Number(_) => Lexeme::Number,
            Kind::Mark(number) => mark(*number),
            Kind::Key(number) => keyword(*number),
            Kind::Start(_) => Lexeme::Start,
            Kind::Finish(_) => Lexeme::Finish,
        }
    }
}

/// The mark of this number.
fn mark(number: u32) -> Lexeme
    ensures { result ≡ mark_of number }
{
    looked_up(&MARKS, number)
}

/// The keyword of this number.
fn keyword(number: u32) -> Lexeme
    ensures { result ≡ keyword_of number }
{
    looked_up(&KEYWORDS, number)
}

/// The lexeme of this number in the table.
fn looked_up(table: &[Lexeme], number: u32) -> Lexeme
    ensures { result ≡ slice_index_or table.now number Lexeme.Nothing }
{
    let number = number as usize;
    if number < table.len() {
        table[number]
    } else {
        Lexeme::Nothing
    }
}
