//! The reader of statements without parts of their own, and of what stands in them. Each function begins with the
//! production that it reads.

ghost use Rattle.std.specs.Prelude.{◌≡◌, ◌+◌, ◌<◌, ◌≤◌, ◌^◌, true, false, [], ◌∷◌, length, drop};
ghost use Rattle.std.specs.Prelude.{map, option_map, IfOk, IfErr};
ghost use Rattle.flame_spec.specs.Seen.{expression, expressions, indexed, stored, declared, assigned};
ghost use Rattle.flame_spec.specs.Seen.{statement, statements};
ghost use Rattle.flame_spec.specs.Trees.{also, no_more};
ghost use Rattle.flame_expr.specs.declared.lexemes.Lexeme.TheVariants.{Close, Semicolon};
ghost use Rattle.flame_expr.specs.Lexemes.{first};
ghost use Rattle.flame_expr.specs.OperatorLevels.{joins, joins_index};
ghost use Rattle.flame_expr.specs.ViablePrefixes.{form, lexeme, maybe, expr, more_args, more_items};
ghost use Rattle.flame_expr.specs.ViablePrefixes.{a_value, a_place, an_item, an_assign, a_simple, some_args};
ghost use Rattle.flame_expr.specs.ReadParts.{Ended, StopsBy};
ghost use Rattle.flame_parse.specs.AssignmentOperators.{IsCall, joins_item, joins_items, joins_args};
ghost use Rattle.flame_parse.specs.HeadSymbols.{initial_symbol, first_symbols, head_symbols};
ghost use Rattle.flame_parse.specs.StatementGrammar.{Stores, Initial, Item as ItemRead, MoreItems, Items};
ghost use Rattle.flame_parse.specs.StatementGrammar.{Place, Assignment, AssignedTo};
ghost use Rattle.flame_parse.specs.StatementGrammar.{MoreArgs, Args, Called, Simple, First, Test, Step, Heading};

use crate::operators::{set_operator, step_operator};
use flame_expr::{
    Lexeme, ParseFault, expect, expression, lexeme_at, line_at, subscript, syntax, text_at,
};
use flame_lex::Token;
use flame_rows::{Boxed, Fail, NoMemory, Seq, Text};
use flame_spec::{Assign, Expr, Head, Item, Stmt, Subscript, Value};
use std::alloc::Global;

// args = expr ("," expr)*
fn args(alloc: Global, tokens: &[Token], at: usize) -> Result<(Vec<Expr>, usize), Fail<ParseFault>>
    requires size { length tokens.now < 2 ^ 32 }
    requires within { at ≤ length tokens.now }
    ensures tree { IfOk result (λ r. Args (drop at tokens.now) (expressions r.0.items) (drop r.1 tokens.now)) }
    ensures ended { IfOk result (λ r. Ended joins_args (form some_args ∷ []) tokens.now at r.1) }
    ensures ahead { IfOk result (λ r. at < r.1) }
    ensures stopped { IfErr result (StopsBy joins_args (form some_args ∷ []) tokens.now at) }
{
    let (first, mid) = expression(alloc, tokens, at)?;
    let (mut others, end) = other_args(alloc, tokens, mid)?;
    others.insert(0, first)?;
    Ok((others, end))
}

// ("," expr)*
fn other_args(
    alloc: Global,
    tokens: &[Token],
    at: usize,
) -> Result<(Vec<Expr>, usize), Fail<ParseFault>>
    requires size { length tokens.now < 2 ^ 32 }
    requires within { at ≤ length tokens.now }
    ensures tree { IfOk result (λ r. MoreArgs (drop at tokens.now) (expressions r.0.items) (drop r.1 tokens.now)) }
    ensures ended { IfOk result (λ r. Ended joins_args (more_args ∷ []) tokens.now at r.1) }
    ensures stopped { IfErr result (StopsBy joins_args (more_args ∷ []) tokens.now at) }
{
    let mut found = Vec::new(alloc);
    let mut place = at;
    'others: loop {
        let Lexeme::Comma = lexeme_at(tokens, place) else {
            return Ok((found, place));
        };
        let (next, end) = expression(alloc, tokens, place + 1)?;
        found.push(next)?;
        place = end;
    }
}

// value = expr | WORD "(" args ")"
/// What an assignment or a declaration stores.
fn value(alloc: Global, tokens: &[Token], at: usize) -> Result<(Value, usize), Fail<ParseFault>>
    requires size { length tokens.now < 2 ^ 32 }
    requires within { at ≤ length tokens.now }
    ensures tree { IfOk result (λ r. Stores (drop at tokens.now) (stored r.0) (drop r.1 tokens.now)) }
    ensures ended { IfOk result (λ r. Ended (joins 6) (form a_value ∷ []) tokens.now at r.1) }
    ensures ahead { IfOk result (λ r. at < r.1) }
    ensures stopped { IfErr result (StopsBy (joins 6) (form a_value ∷ []) tokens.now at) }
{
    if calls(tokens, at) {
        let word = text_at(alloc, tokens, at)?;
        let (found, close) = args(alloc, tokens, at + 1 + 1)?;
        let end = expect(tokens, close, Lexeme::Close)?;
        let line = line_at(tokens, at);
        return Ok((Value::Call(line, word, Seq::of(found)), end));
    }
    let (tree, end) = expression(alloc, tokens, at)?;
    Ok((Value::Plain(tree), end))
}

/// Whether a value that begins here is a call with arguments: of the ways behind a word and `(` only the call goes on
/// without `)`.
fn calls(tokens: &[Token], at: usize) -> bool
    requires size { length tokens.now < 2 ^ 32 }
    requires within { at ≤ length tokens.now }
    ensures yes { result ≡ true → IsCall (drop at tokens.now) }
    ensures no { result ≡ false → IsCall (drop at tokens.now) → ⊥ }
{
    let Lexeme::Word = lexeme_at(tokens, at) else {
        return false;
    };
    let Lexeme::Open = lexeme_at(tokens, at + 1) else {
        return false;
    };
    match lexeme_at(tokens, at + 1 + 1) {
        Lexeme::Close => false,
        _ => true,
    }
}

// ["=" value]
fn initial(
    alloc: Global,
    tokens: &[Token],
    at: usize,
) -> Result<(Option<Value>, usize), Fail<ParseFault>>
    requires size { length tokens.now < 2 ^ 32 }
    requires within { at ≤ length tokens.now }
    ensures tree { IfOk result (λ r. Initial (drop at tokens.now) (option_map stored r.0) (drop r.1 tokens.now)) }
    ensures ended { IfOk result (λ r. Ended joins_item (initial_symbol ∷ []) tokens.now at r.1) }
    ensures stopped { IfErr result (StopsBy joins_item (initial_symbol ∷ []) tokens.now at) }
{
    match lexeme_at(tokens, at) {
        Lexeme::Set => {
            let (value, end) = value(alloc, tokens, at + 1)?;
            Ok((Some(value), end))
        }
        _ => Ok((None, at)),
    }
}

// item = WORD ["=" value]
fn item(alloc: Global, tokens: &[Token], at: usize) -> Result<(Item, usize), Fail<ParseFault>>
    requires size { length tokens.now < 2 ^ 32 }
    requires within { at ≤ length tokens.now }
    ensures tree { IfOk result (λ r. ItemRead (drop at tokens.now) (declared r.0) (drop r.1 tokens.now)) }
    ensures ended { IfOk result (λ r. Ended joins_item (form an_item ∷ []) tokens.now at r.1) }
    ensures ahead { IfOk result (λ r. at < r.1) }
    ensures stopped { IfErr result (StopsBy joins_item (form an_item ∷ []) tokens.now at) }
{
    let line = line_at(tokens, at);
    let mid = expect(tokens, at, Lexeme::Word)?;
    let name = text_at(alloc, tokens, at)?;
    let (value, end) = initial(alloc, tokens, mid)?;
    Ok((Item { line, name, value }, end))
}

// item ("," item)*
/// The items of a declaration.
pub(crate) fn items(
    alloc: Global,
    tokens: &[Token],
    at: usize,
) -> Result<(Vec<Item>, usize), Fail<ParseFault>>
    requires size { length tokens.now < 2 ^ 32 }
    requires within { at ≤ length tokens.now }
    ensures tree { IfOk result (λ r. Items (drop at tokens.now) (map declared r.0.items) (drop r.1 tokens.now)) }
    ensures ended { IfOk result (λ r. Ended joins_items (form an_item ∷ more_items ∷ []) tokens.now at r.1) }
    ensures ahead { IfOk result (λ r. at < r.1) }
    ensures stopped { IfErr result (StopsBy joins_items (form an_item ∷ more_items ∷ []) tokens.now at) }
{
    let (first, mid) = item(alloc, tokens, at)?;
    let (mut others, end) = other_items(alloc, tokens, mid)?;
    others.insert(0, first)?;
    Ok((others, end))
}

// ("," item)*
fn other_items(
    alloc: Global,
    tokens: &[Token],
    at: usize,
) -> Result<(Vec<Item>, usize), Fail<ParseFault>>
    requires size { length tokens.now < 2 ^ 32 }
    requires within { at ≤ length tokens.now }
    ensures tree { IfOk result (λ r. MoreItems (drop at tokens.now) (map declared r.0.items) (drop r.1 tokens.now)) }
    ensures ended { IfOk result (λ r. Ended joins_items (more_items ∷ []) tokens.now at r.1) }
    ensures stopped { IfErr result (StopsBy joins_items (more_items ∷ []) tokens.now at) }
{
    let mut found = Vec::new(alloc);
    let mut place = at;
    'items: loop {
        let Lexeme::Comma = lexeme_at(tokens, place) else {
            return Ok((found, place));
        };
        let (next, end) = item(alloc, tokens, place + 1)?;
        found.push(next)?;
        place = end;
    }
}

// place = WORD ["[" expr "]"]
/// The word of a place, and which element of it.
fn place(
    alloc: Global,
    tokens: &[Token],
    at: usize,
) -> Result<(Text, Option<Subscript>, usize), Fail<ParseFault>>
    requires size { length tokens.now < 2 ^ 32 }
    requires within { at ≤ length tokens.now }
    ensures tree { IfOk result (λ r. Place (drop at tokens.now) r.0 (option_map indexed r.1) (drop r.2 tokens.now)) }
    ensures ended { IfOk result (λ r. Ended joins_index (form a_place ∷ []) tokens.now at r.2) }
    ensures ahead { IfOk result (λ r. at < r.2) }
    ensures stopped { IfErr result (StopsBy joins_index (form a_place ∷ []) tokens.now at) }
{
    let mid = expect(tokens, at, Lexeme::Word)?;
    let name = text_at(alloc, tokens, at)?;
    let (which, end) = subscript(alloc, tokens, mid)?;
    Ok((name, which, end))
}

// assign = place ("=" | "+=" | "-=" | "*=" | "/=" | "%=") value | place ("++" | "--") | ("++" | "--") place
fn assign(alloc: Global, tokens: &[Token], at: usize) -> Result<(Assign, usize), Fail<ParseFault>>
    requires size { length tokens.now < 2 ^ 32 }
    requires within { at ≤ length tokens.now }
    ensures tree { IfOk result (λ r. Assignment (drop at tokens.now) (assigned r.0) (drop r.1 tokens.now)) }
    ensures ended { IfOk result (λ r. Ended (joins 6) (form an_assign ∷ []) tokens.now at r.1) }
    ensures ahead { IfOk result (λ r. at < r.1) }
    ensures stopped { IfErr result (StopsBy (joins 6) (form an_assign ∷ []) tokens.now at) }
{
    if let Some(op) = step_operator(lexeme_at(tokens, at)) {
        let (name, subscript, end) = place(alloc, tokens, at + 1)?;
        let assign = Assign {
            line: line_at(tokens, at + 1),
            name,
            subscript,
            op: Some(op),
            op_line: line_at(tokens, at),
            value: Value::Plain(Expr::Number(1)),
        };
        return Ok((assign, end));
    }
    let Lexeme::Word = lexeme_at(tokens, at) else {
        return Err(syntax(at));
    };
    let (assign, end) = place_assign(alloc, tokens, at)?;
    Ok((assign, end))
}

// place ("=" | "+=" | "-=" | "*=" | "/=" | "%=") value | place ("++" | "--")
fn place_assign(
    alloc: Global,
    tokens: &[Token],
    at: usize,
) -> Result<(Assign, usize), Fail<ParseFault>>
    requires size { length tokens.now < 2 ^ 32 }
    requires within { at < length tokens.now }
    requires begun { first (drop at tokens.now) ≡ Lexeme.Word }
    ensures tree { IfOk result (λ r. Assignment (drop at tokens.now) (assigned r.0) (drop r.1 tokens.now)) }
    ensures ended { IfOk result (λ r. Ended (joins 6) (form an_assign ∷ []) tokens.now at r.1) }
    ensures ahead { IfOk result (λ r. at < r.1) }
    ensures stopped { IfErr result (StopsBy (joins 6) (form an_assign ∷ []) tokens.now at) }
{
    let line = line_at(tokens, at);
    let (name, subscript, mid) = place(alloc, tokens, at)?;
    let op_line = line_at(tokens, mid);
    if let Some(op) = step_operator(lexeme_at(tokens, mid)) {
        let assign = Assign {
            line,
            name,
            subscript,
            op: Some(op),
            op_line,
            value: Value::Plain(Expr::Number(1)),
        };
        return Ok((assign, mid + 1));
    }
    let Some(op) = set_operator(lexeme_at(tokens, mid)) else {
        return Err(syntax(mid));
    };
    let (value, end) = value(alloc, tokens, mid + 1)?;
    let assign = Assign {
        line,
        name,
        subscript,
        op,
        op_line,
        value,
    };
    Ok((assign, end))
}

// [args] ")"
fn called(
    alloc: Global,
    tokens: &[Token],
    at: usize,
) -> Result<(Vec<Expr>, usize), Fail<ParseFault>>
    requires size { length tokens.now < 2 ^ 32 }
    requires within { at ≤ length tokens.now }
    ensures tree { IfOk result (λ r. Called (drop at tokens.now) (expressions r.0.items) (drop r.1 tokens.now)) }
    ensures ended { IfOk result (λ r. Ended [] (maybe (form some_args) ∷ lexeme Close ∷ []) tokens.now at r.1) }
    ensures ahead { IfOk result (λ r. at < r.1) }
    ensures stopped { IfErr result (StopsBy [] (maybe (form some_args) ∷ lexeme Close ∷ []) tokens.now at) }
{
    if lexeme_at(tokens, at) == Lexeme::Close {
        return Ok((Vec::new(alloc), at + 1));
    }
    let (found, mid) = args(alloc, tokens, at)?;
    let end = expect(tokens, mid, Lexeme::Close)?;
    Ok((found, end))
}

// simple = ";" | assign ";" | WORD "(" [args] ")" ";" | "return" expr ";" | "break" ";" | "continue" ";"
/// A statement without parts of its own.
pub(crate) fn simple(
    alloc: Global,
    tokens: &[Token],
    at: usize,
) -> Result<(Stmt, usize), Fail<ParseFault>>
    requires size { length tokens.now < 2 ^ 32 }
    requires within { at ≤ length tokens.now }
    ensures tree { IfOk result (λ r. Simple (drop at tokens.now) (statement r.0) (drop r.1 tokens.now)) }
    ensures ended { IfOk result (λ r. Ended [] (form a_simple ∷ []) tokens.now at r.1) }
    ensures ahead { IfOk result (λ r. at < r.1) }
    ensures stopped { IfErr result (StopsBy [] (form a_simple ∷ []) tokens.now at) }
{
    match lexeme_at(tokens, at) {
        Lexeme::Semicolon => Ok((Stmt::Empty, at + 1)),
        Lexeme::Return => {
            let (value, mid) = expression(alloc, tokens, at + 1)?;
            let end = expect(tokens, mid, Lexeme::Semicolon)?;
            Ok((Stmt::Return(value), end))
        }
        Lexeme::Break => {
            let end = expect(tokens, at + 1, Lexeme::Semicolon)?;
            Ok((Stmt::Break(line_at(tokens, at)), end))
        }
        Lexeme::Continue => {
            let end = expect(tokens, at + 1, Lexeme::Semicolon)?;
            Ok((Stmt::Continue(line_at(tokens, at)), end))
        }
        Lexeme::Word => {
            let (form, end) = word_simple(alloc, tokens, at)?;
            Ok((form, end))
        }
        _ => {
            let (assign, end) = assigned_to(alloc, tokens, at)?;
            Ok((Stmt::Assign(assign), end))
        }
    }
}

// assign ";" | WORD "(" [args] ")" ";"
fn word_simple(
    alloc: Global,
    tokens: &[Token],
    at: usize,
) -> Result<(Stmt, usize), Fail<ParseFault>>
    requires size { length tokens.now < 2 ^ 32 }
    requires within { at < length tokens.now }
    requires begun { first (drop at tokens.now) ≡ Lexeme.Word }
    ensures tree { IfOk result (λ r. Simple (drop at tokens.now) (statement r.0) (drop r.1 tokens.now)) }
    ensures ended { IfOk result (λ r. Ended [] (form a_simple ∷ []) tokens.now at r.1) }
    ensures ahead { IfOk result (λ r. at < r.1) }
    ensures stopped { IfErr result (StopsBy [] (form a_simple ∷ []) tokens.now at) }
{
    let line = line_at(tokens, at);
    if lexeme_at(tokens, at + 1) == Lexeme::Open {
        let word = text_at(alloc, tokens, at)?;
        let (parts, mid) = called(alloc, tokens, at + 1 + 1)?;
        let end = expect(tokens, mid, Lexeme::Semicolon)?;
        return Ok((Stmt::Call(line, word, Seq::of(parts)), end));
    }
    let (assign, end) = assigned_to(alloc, tokens, at)?;
    Ok((Stmt::Assign(assign), end))
}

// assign ";"
fn assigned_to(
    alloc: Global,
    tokens: &[Token],
    at: usize,
) -> Result<(Assign, usize), Fail<ParseFault>>
    requires size { length tokens.now < 2 ^ 32 }
    requires within { at ≤ length tokens.now }
    ensures tree { IfOk result (λ r. AssignedTo (drop at tokens.now) (assigned r.0) (drop r.1 tokens.now)) }
    ensures ended { IfOk result (λ r. Ended [] (form an_assign ∷ lexeme Semicolon ∷ []) tokens.now at r.1) }
    ensures ahead { IfOk result (λ r. at < r.1) }
    ensures stopped { IfErr result (StopsBy [] (form an_assign ∷ lexeme Semicolon ∷ []) tokens.now at) }
{
    let (assign, mid) = assign(alloc, tokens, at)?;
    let end = expect(tokens, mid, Lexeme::Semicolon)?;
    Ok((assign, end))
}

// "(" [assign | decl] ";" [expr] ";" [assign] ")"
fn head(alloc: Global, tokens: &[Token], at: usize) -> Result<(Head, usize), Fail<ParseFault>>
    requires size { length tokens.now < 2 ^ 32 }
    requires within { at ≤ length tokens.now }
    ensures tree { IfOk result (λ r. Heading (drop at tokens.now) (statements r.0.first)
        (option_map expression r.0.test) (option_map assigned r.0.step) (drop r.1 tokens.now)) }
    ensures ended { IfOk result (λ r. Ended [] head_symbols tokens.now at r.1) }
    ensures ahead { IfOk result (λ r. at < r.1) }
    ensures stopped { IfErr result (StopsBy [] head_symbols tokens.now at) }
{
    let inside = expect(tokens, at, Lexeme::Open)?;
    let (first, mid) = first(alloc, tokens, inside)?;
    let (test, place) = test(alloc, tokens, mid)?;
    let (step, end) = step(alloc, tokens, place)?;
    let first = Seq::of(first);
    Ok((Head { first, test, step }, end))
}

/// The head of a `for`, put on the heap.
pub(crate) fn boxed_head(
    alloc: Global,
    tokens: &[Token],
    at: usize,
) -> Result<(Boxed<Head>, usize), Fail<ParseFault>>
    requires size { length tokens.now < 2 ^ 32 }
    requires within { at ≤ length tokens.now }
    ensures tree { IfOk result (λ r. Heading (drop at tokens.now) (statements r.0.first)
        (option_map expression r.0.test) (option_map assigned r.0.step) (drop r.1 tokens.now)) }
    ensures ended { IfOk result (λ r. Ended [] head_symbols tokens.now at r.1) }
    ensures ahead { IfOk result (λ r. at < r.1) }
    ensures stopped { IfErr result (StopsBy [] head_symbols tokens.now at) }
{
    let (head, end) = head(alloc, tokens, at)?;
    let head = Boxed::of(alloc, head)?;
    Ok((head, end))
}

// [assign | decl] ";"
fn first(alloc: Global, tokens: &[Token], at: usize) -> Result<(Vec<Stmt>, usize), Fail<ParseFault>>
    requires size { length tokens.now < 2 ^ 32 }
    requires within { at ≤ length tokens.now }
    ensures tree { IfOk result (λ r. First (drop at tokens.now) (statements r.0.items) (drop r.1 tokens.now)) }
    ensures ended { IfOk result (λ r. Ended [] first_symbols tokens.now at r.1) }
    ensures ahead { IfOk result (λ r. at < r.1) }
    ensures stopped { IfErr result (StopsBy [] first_symbols tokens.now at) }
{
    match lexeme_at(tokens, at) {
        Lexeme::Semicolon => Ok((Vec::new(alloc), at + 1)),
        Lexeme::Int => {
            let (items, mid) = items(alloc, tokens, at + 1)?;
            let end = expect(tokens, mid, Lexeme::Semicolon)?;
            Ok((one(alloc, Stmt::Declare(Seq::of(items)))?, end))
        }
        _ => {
            let (assign, end) = assigned_to(alloc, tokens, at)?;
            Ok((one(alloc, Stmt::Assign(assign))?, end))
        }
    }
}

// [expr] ";"
fn test(
    alloc: Global,
    tokens: &[Token],
    at: usize,
) -> Result<(Option<Expr>, usize), Fail<ParseFault>>
    requires size { length tokens.now < 2 ^ 32 }
    requires within { at ≤ length tokens.now }
    ensures tree { IfOk result (λ r. Test (drop at tokens.now) (option_map expression r.0) (drop r.1 tokens.now)) }
    ensures ended { IfOk result (λ r. Ended [] (maybe expr ∷ lexeme Semicolon ∷ []) tokens.now at r.1) }
    ensures ahead { IfOk result (λ r. at < r.1) }
    ensures stopped { IfErr result (StopsBy [] (maybe expr ∷ lexeme Semicolon ∷ []) tokens.now at) }
{
    if lexeme_at(tokens, at) == Lexeme::Semicolon {
        return Ok((None, at + 1));
    }
    let (test, mid) = expression(alloc, tokens, at)?;
    let end = expect(tokens, mid, Lexeme::Semicolon)?;
    Ok((Some(test), end))
}

// [assign] ")"
fn step(
    alloc: Global,
    tokens: &[Token],
    at: usize,
) -> Result<(Option<Assign>, usize), Fail<ParseFault>>
    requires size { length tokens.now < 2 ^ 32 }
    requires within { at ≤ length tokens.now }
    ensures tree { IfOk result (λ r. Step (drop at tokens.now) (option_map assigned r.0) (drop r.1 tokens.now)) }
    ensures ended { IfOk result (λ r. Ended [] (maybe (form an_assign) ∷ lexeme Close ∷ []) tokens.now at r.1) }
    ensures ahead { IfOk result (λ r. at < r.1) }
    ensures stopped { IfErr result (StopsBy [] (maybe (form an_assign) ∷ lexeme Close ∷ []) tokens.now at) }
{
    if lexeme_at(tokens, at) == Lexeme::Close {
        return Ok((None, at + 1));
    }
    let (step, mid) = assign(alloc, tokens, at)?;
    let end = expect(tokens, mid, Lexeme::Close)?;
    Ok((Some(step), end))
}

/// The statement alone.
pub(crate) fn one(alloc: Global, form: Stmt) -> Result<Vec<Stmt>, NoMemory>
    ensures { IfOk result (λ found. statements found.items ≡ also (statement form) no_more) }
{
    let mut found = Vec::new(alloc);
    found.push(form)?;
    Ok(found)
}
