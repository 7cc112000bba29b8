//! Numbered trees: the trees of function files with numbers in place of names. They have the forms of the named trees,
//! and of their lines those that a fault of a run may have: of operators, signs, brackets, loops and calls of helpers.

use flame_ops::Op;
use flame_rows::{Boxed, Seq};
use flame_spec::Sign;

/// Where a variable stands in a row.
#[derive(Clone, Copy)]
pub struct Span {
    /// Its column, of an array that of the first element.
    pub column: u32,
    /// The length of an array; a single variable has none.
    pub length: Option<u32>,
}

/// Where an array stands in a row.
#[derive(Clone, Copy)]
pub struct Cells {
    /// The column of its first element.
    pub column: u32,
    /// How many elements it has.
    pub length: u32,
}

/// What a name stands for.
#[derive(Clone, Copy)]
pub enum Slot {
    /// A local, by how many locals were declared before it in all scopes that are open where it is declared, hidden
    /// ones too.
    Local(u32),
    /// A memory variable.
    Memory(Span),
    /// A constant, by its number.
    Constant(u32),
    /// The number of the iteration.
    Iteration,
}

/// An expression.
#[cycle(slot_expression)]
#[derive(Drop)]
pub enum SlotExpr {
    /// A number.
    Number(i32),
    /// A name.
    Name(Slot),
    /// A variable of a message: the number of the function's input, and where it stands in the message's row.
    Field(u32, Span),
    /// `get_x()`, by the column of the memory variable.
    Get(u32),
    /// An element of an array of the memory.
    At(Cells, SlotSubscript),
    /// An element of an array of a message: the number of the function's input, and where the array stands.
    FieldAt(u32, Cells, SlotSubscript),
    /// Signs, at least one, before what they stand for.
    Unary(Seq<Sign>, Boxed<SlotExpr>),
    /// Binary operators of one level, from left to right, at least one.
    Chain(Boxed<SlotExpr>, Seq<SlotLink>),
    /// At least two parts with `&&` between them.
    All(Seq<SlotExpr>),
    /// At least two parts with `||` between them.
    Any(Seq<SlotExpr>),
}

/// Which element of an array.
#[cycle(slot_expression)]
#[derive(Drop)]
pub struct SlotSubscript {
    /// The line of the `[`.
    pub line: u32,
    /// The element's number, from 0.
    pub index: Boxed<SlotExpr>,
}

/// A binary operator and the operand after it.
#[cycle(slot_expression)]
#[derive(Drop)]
pub struct SlotLink {
    /// The operator.
    pub op: Op,
    /// The line of the operator.
    pub line: u32,
    /// The operand.
    pub right: SlotExpr,
}

/// What a call statement does.
#[derive(Clone, Copy)]
pub enum SlotDeed {
    /// It sets the memory variable in this column.
    Sets(u32),
    /// It sends a message of the type of this number.
    Sends(u32),
    /// It bears an agent of the type of this number.
    Bears(u32),
    /// It calls a helper: the line of the call, and the helper's number.
    Calls(u32, u32),
}

/// What an assignment or a declaration stores.
#[derive(Drop)]
pub enum SlotValue {
    /// An expression.
    Plain(SlotExpr),
    /// What a helper returns: the line of the call, the helper's number, and the arguments.
    Call(u32, u32, Seq<SlotExpr>),
}

/// A local that a declaration declares.
#[derive(Drop)]
pub struct SlotItem {
    /// Its number.
    pub local: u32,
    /// Its initial value.
    pub value: Option<SlotValue>,
}

/// What is assigned to.
#[derive(Drop)]
pub enum SlotTarget {
    /// The local of this number.
    Local(u32),
    /// The memory variable in this column.
    Memory(u32),
    /// An element of an array of the memory.
    Element(Cells, SlotSubscript),
}

/// An assignment.
#[derive(Drop)]
pub struct SlotAssign {
    /// What is assigned to.
    pub target: SlotTarget,
    /// The operator before `=`, if there is one.
    pub op: Option<Op>,
    /// The line of the operator.
    pub op_line: u32,
    /// The value.
    pub value: SlotValue,
}

/// A statement. The `u32` of a loop that comes first is the line of the word or keyword that begins it.
#[cycle(slot_statement)]
#[derive(Drop)]
pub enum SlotStmt {
    /// `;`
    Empty,
    /// `int a, b = e;`
    Declare(Seq<SlotItem>),
    /// `x = e;` and its like.
    Assign(SlotAssign),
    /// A call statement: what it does, and the arguments.
    Call(SlotDeed, Seq<SlotExpr>),
    /// `{ .. }`
    Block(Seq<SlotStmt>),
    /// The tests with their bodies in order, and the body of the last `else`, which is empty where there is none.
    If(Seq<SlotArm>, Seq<SlotStmt>),
    /// `while (test) body`
    While(u32, SlotExpr, Seq<SlotStmt>),
    /// `for (first; test; step) body`
    For(u32, Boxed<SlotHead>, Seq<SlotStmt>),
    /// `do body while (test);`
    Do(u32, Seq<SlotStmt>, SlotExpr),
    /// A message loop: the line of its START, the number of the function's input, and its body.
    Loop(u32, u32, Seq<SlotStmt>),
    /// `return e;`
    Return(SlotExpr),
    /// `break;`
    Break,
    /// `continue;`
    Continue,
}

/// A test of an `if` and the body that runs where it is the first that holds.
#[cycle(slot_statement)]
#[derive(Drop)]
pub struct SlotArm {
    /// The test.
    pub test: SlotExpr,
    /// The body.
    pub body: Seq<SlotStmt>,
}

/// The head of a `for`.
#[cycle(slot_statement)]
#[derive(Drop)]
pub struct SlotHead {
    /// The first statement, a declaration or an assignment; at most one.
    pub first: Seq<SlotStmt>,
    /// The test, if there is one.
    pub test: Option<SlotExpr>,
    /// The step, if there is one.
    pub step: Option<SlotAssign>,
}
