//! The trees of function files: transition functions and helpers, as their grammar has them. Names stand as they are
//! written, and lines count from 1. Brackets leave no trace.

use flame_ops::Op;
use flame_rows::{Boxed, Seq, Text};

/// A function file: its function definitions in order.
#[derive(Drop)]
pub struct Unit {
    /// The definitions.
    pub functions: Seq<Def>,
}

/// A function definition, `int name(int a, int b) { .. }` (C standard, 6.9.1). One with parameters is a helper, unless
/// its name is that of a function of the model.
#[derive(Drop)]
pub struct Def {
    /// The function's name.
    pub name: Text,
    /// The line of its `int`.
    pub line: u32,
    /// Its parameters; none where it has `()` or `(void)`.
    pub parameters: Seq<Parameter>,
    /// The statements of its body.
    pub body: Seq<Stmt>,
}

/// A parameter, `int name`.
#[derive(Drop)]
pub struct Parameter {
    /// The line of its `int`.
    pub line: u32,
    /// Its name.
    pub name: Text,
}

/// A statement (C standard, 6.8) or one of FLAME's macros. A `u32` is the line of the word or keyword that begins it,
/// unless it says otherwise. A body without braces is a list of one statement.
#[cycle(tree)]
#[derive(Drop)]
pub enum Stmt {
    /// `;`
    Empty,
    /// `int a, b = e;`
    Declare(Seq<Item>),
    /// `x = e;`, `x[i] += e;`, `x++;` and their like.
    Assign(Assign),
    /// `name(e1, e2);`
    Call(u32, Text, Seq<Expr>),
    /// `{ .. }`
    Block(Seq<Stmt>),
    /// The tests with their bodies in order, and the body of the last `else`, which is empty where there is none.
    If(Seq<Arm>, Seq<Stmt>),
    /// `while (test) body`
    While(u32, Expr, Seq<Stmt>),
    /// `for (first; test; step) body`
    For(u32, Boxed<Head>, Seq<Stmt>),
    /// `do body while (test);`
    Do(u32, Seq<Stmt>, Expr),
    /// A message loop: line and name of its START, its body, line and name of its FINISH.
    Loop(u32, Text, Seq<Stmt>, u32, Text),
    /// `return e;`
    Return(Expr),
    /// `break;`
    Break(u32),
    /// `continue;`
    Continue(u32),
}

/// A local that a declaration declares.
#[derive(Drop)]
pub struct Item {
    /// The line of its name.
    pub line: u32,
    /// Its name.
    pub name: Text,
    /// Its initial value.
    pub value: Option<Value>,
}

/// An assignment. `x += e` has the operator `Add`; `x++` and `++x` have it with the value 1, and `x--` and `--x` have
/// `Sub` with the value 1.
#[derive(Drop)]
pub struct Assign {
    /// The line of the name.
    pub line: u32,
    /// The name that is assigned to.
    pub name: Text,
    /// Which element of it, where it is an array.
    pub subscript: Option<Subscript>,
    /// The operator before `=`, if there is one.
    pub op: Option<Op>,
    /// The line of the operator.
    pub op_line: u32,
    /// The value.
    pub value: Value,
}

/// The right side of an assignment or of a declaration: what it stores.
#[derive(Drop)]
pub enum Value {
    /// An expression.
    Plain(Expr),
    /// What a helper returns: the line of its name, its name, and the arguments, at least one.
    Call(u32, Text, Seq<Expr>),
}

/// A test of an `if` and the body that runs where it is the first that holds.
#[cycle(tree)]
#[derive(Drop)]
pub struct Arm {
    /// The test.
    pub test: Expr,
    /// The body.
    pub body: Seq<Stmt>,
}

/// The head of a `for`.
#[cycle(tree)]
#[derive(Drop)]
pub struct Head {
    /// The first statement, a declaration or an assignment; at most one.
    pub first: Seq<Stmt>,
    /// The test, if there is one.
    pub test: Option<Expr>,
    /// The step, if there is one.
    pub step: Option<Assign>,
}

/// An expression (C standard, 6.5). A `u32` is the line of the word that begins it.
#[cycle(expression)]
#[derive(Drop)]
pub enum Expr {
    /// A number.
    Number(i32),
    /// A local, a memory variable or a constant in capitals, or `iteration_loop`.
    Name(u32, Text),
    /// `word->variable`
    Field(u32, Text, Text),
    /// `word()`
    Get(u32, Text),
    /// `word[e]`, an element of an array (C standard, 6.5.2.1).
    At(u32, Text, Subscript),
    /// `word->variable[e]`, an element of an array of a message.
    FieldAt(u32, Text, Text, Subscript),
    /// Signs as they are written, at least one, before what they stand for.
    Unary(Seq<Sign>, Boxed<Expr>),
    /// Binary operators of one level, from left to right, at least one.
    Chain(Boxed<Expr>, Seq<Link>),
    /// At least two parts with `&&` between them.
    All(Seq<Expr>),
    /// At least two parts with `||` between them.
    Any(Seq<Expr>),
}

/// Which element of an array.
#[cycle(expression)]
#[derive(Drop)]
pub struct Subscript {
    /// The line of the `[`.
    pub line: u32,
    /// The element's number, from 0.
    pub index: Boxed<Expr>,
}

/// A sign and its line.
#[derive(Clone, Copy, Debug, PartialEq, Eq)]
pub struct Sign {
    /// Which sign.
    pub kind: SignKind,
    /// The line of the sign.
    pub line: u32,
}

/// The unary operators `-`, `+` and `!` (C standard, 6.5.3.3).
#[derive(Clone, Copy, Debug, PartialEq, Eq)]
pub enum SignKind {
    /// `-`
    Minus,
    /// `+`
    Plus,
    /// `!`
    Bang,
}

/// A binary operator and the operand after it.
#[cycle(expression)]
#[derive(Drop)]
pub struct Link {
    /// The operator.
    pub op: Op,
    /// The line of the operator.
    pub line: u32,
    /// The operand.
    pub right: Expr,
}
