//! Trees as texts: a node a line, with two blanks before it for each node that it stands in. `line` and a number behind
//! what they belong to are its line.

use flame_ops::Op;
use flame_rows::Text;
use flame_spec::{
    Arm, Assign, Def, Expr, Head, Item, Link, Parameter, Sign, Stmt, Subscript, Value,
};
use std::alloc::AllocError;

/// Begins the line of a node at this depth.
fn begin(out: &mut String, depth: usize) -> Result<(), AllocError> {
    for _ in 0..depth {
        out.push_str("  ")?;
    }
    Ok(())
}

/// A line that has this word alone.
fn print_word(out: &mut String, depth: usize, word: &str) -> Result<(), AllocError> {
    begin(out, depth)?;
    writeln!(out, "{word}")
}

/// A line that has this word, and behind it the node's line.
fn print_lined(out: &mut String, depth: usize, word: &str, line: u32) -> Result<(), AllocError> {
    begin(out, depth)?;
    writeln!(out, "{word} line {line}")
}

/// A line that has this word and a name, and behind them the node's line.
fn print_named(
    out: &mut String,
    depth: usize,
    word: &str,
    name: &Text,
    line: u32,
) -> Result<(), AllocError> {
    begin(out, depth)?;
    writeln!(out, "{word} {name} line {line}")
}

/// The same with the name of a variable of a message too.
fn print_field(
    out: &mut String,
    depth: usize,
    word: &str,
    names: (&Text, &Text),
    line: u32,
) -> Result<(), AllocError> {
    let (message, variable) = names;
    begin(out, depth)?;
    writeln!(out, "{word} {message} {variable} line {line}")
}

fn print_number(out: &mut String, depth: usize, number: i32) -> Result<(), AllocError> {
    begin(out, depth)?;
    writeln!(out, "number {number}")
}

/// An expression.
#[cycle(expression)]
pub(crate) fn print_expression(
    out: &mut String,
    depth: usize,
    tree: &Expr,
) -> Result<(), AllocError> {
    let below = depth.saturating_add(1);
    match tree {
        Expr::Number(number) => print_number(out, depth, *number),
        Expr::Name(line, word) => print_named(out, depth, "name", word, *line),
        Expr::Field(line, word, variable) => {
            print_field(out, depth, "field", (word, variable), *line)
        }
        Expr::Get(line, word) => print_named(out, depth, "get", word, *line),
        Expr::At(line, word, which) => {
            print_named(out, depth, "at", word, *line)?;
            print_subscript(out, below, which)
        }
        Expr::FieldAt(line, word, variable, which) => {
            print_field(out, depth, "field_at", (word, variable), *line)?;
            print_subscript(out, below, which)
        }
        Expr::Unary(signs, part) => {
            print_signs(out, depth, signs.items())?;
            print_expression(out, below, part.get())
        }
        Expr::Chain(first, links) => {
            print_word(out, depth, "chain")?;
            print_expression(out, below, first.get())?;
            print_links(out, below, links.items())
        }
        Expr::All(parts) => {
            print_word(out, depth, "all")?;
            print_expressions(out, below, parts.items())
        }
        Expr::Any(parts) => {
            print_word(out, depth, "any")?;
            print_expressions(out, below, parts.items())
        }
    }
}

/// The signs, on one line.
fn print_signs(out: &mut String, depth: usize, signs: &[Sign]) -> Result<(), AllocError> {
    begin(out, depth)?;
    out.push_str("signs")?;
    for sign in signs {
        let kind = sign.kind;
        let line = sign.line;
        write!(out, " {kind:?} line {line}")?;
    }
    writeln!(out, "")
}

/// Expressions in order.
#[cycle(expression)]
fn print_expressions(out: &mut String, depth: usize, parts: &[Expr]) -> Result<(), AllocError> {
    for part in parts {
        print_expression(out, depth, part)?;
    }
    Ok(())
}

/// An operator.
fn print_operator(out: &mut String, depth: usize, op: Op, line: u32) -> Result<(), AllocError> {
    begin(out, depth)?;
    writeln!(out, "link {op:?} line {line}")
}

/// Operators, each with the operand behind it.
#[cycle(expression)]
fn print_links(out: &mut String, depth: usize, links: &[Link]) -> Result<(), AllocError> {
    for link in links {
        print_operator(out, depth, link.op, link.line)?;
        print_expression(out, depth.saturating_add(1), &link.right)?;
    }
    Ok(())
}

/// Which element.
#[cycle(expression)]
fn print_subscript(out: &mut String, depth: usize, which: &Subscript) -> Result<(), AllocError> {
    print_lined(out, depth, "subscript", which.line)?;
    print_expression(out, depth.saturating_add(1), which.index.get())
}

/// A call: its word, and its arguments.
fn print_call(
    out: &mut String,
    depth: usize,
    line: u32,
    word: &Text,
    arguments: &[Expr],
) -> Result<(), AllocError> {
    print_named(out, depth, "call", word, line)?;
    print_expressions(out, depth.saturating_add(1), arguments)
}

/// What is stored: an expression, or a call.
fn print_value(out: &mut String, depth: usize, value: &Value) -> Result<(), AllocError> {
    match value {
        Value::Plain(tree) => print_expression(out, depth, tree),
        Value::Call(line, word, arguments) => {
            print_call(out, depth, *line, word, arguments.items())
        }
    }
}

/// A local of a declaration, with its value where it has one.
fn print_item(out: &mut String, depth: usize, item: &Item) -> Result<(), AllocError> {
    print_named(out, depth, "item", &item.name, item.line)?;
    match &item.value {
        Some(value) => print_value(out, depth.saturating_add(1), value),
        None => Ok(()),
    }
}

/// The locals of a declaration.
fn print_items(out: &mut String, depth: usize, items: &[Item]) -> Result<(), AllocError> {
    for item in items {
        print_item(out, depth, item)?;
    }
    Ok(())
}

/// The line of an assignment: the name, and the operator, each with its line.
fn print_assigned(out: &mut String, depth: usize, tree: &Assign) -> Result<(), AllocError> {
    let line = tree.line;
    let op_line = tree.op_line;
    begin(out, depth)?;
    write!(out, "assign {} line {line} operator ", tree.name)?;
    match tree.op {
        Some(op) => writeln!(out, "{op:?} line {op_line}"),
        None => writeln!(out, "none line {op_line}"),
    }
}

/// An assignment: its operator, which element where it is one, and the value.
fn print_assign(out: &mut String, depth: usize, tree: &Assign) -> Result<(), AllocError> {
    print_assigned(out, depth, tree)?;
    if let Some(which) = &tree.subscript {
        print_subscript(out, depth.saturating_add(1), which)?;
    }
    print_value(out, depth.saturating_add(1), &tree.value)
}

/// Statements in order.
#[cycle(statement)]
fn print_statements(out: &mut String, depth: usize, body: &[Stmt]) -> Result<(), AllocError> {
    for statement in body {
        print_statement(out, depth, statement)?;
    }
    Ok(())
}

/// Statements under a word of their own.
#[cycle(statement)]
fn print_body(out: &mut String, depth: usize, body: &[Stmt], word: &str) -> Result<(), AllocError> {
    print_word(out, depth, word)?;
    print_statements(out, depth.saturating_add(1), body)
}

/// A test.
fn print_test(out: &mut String, depth: usize, test: &Expr) -> Result<(), AllocError> {
    print_word(out, depth, "test")?;
    print_expression(out, depth.saturating_add(1), test)
}

/// The tests of an `if`, each with its body.
#[cycle(statement)]
fn print_arms(out: &mut String, depth: usize, arms: &[Arm]) -> Result<(), AllocError> {
    for arm in arms {
        print_word(out, depth, "arm")?;
        print_test(out, depth.saturating_add(1), &arm.test)?;
        print_body(out, depth.saturating_add(1), arm.body.items(), "body")?;
    }
    Ok(())
}

/// The head of a `for`.
#[cycle(statement)]
fn print_head(out: &mut String, depth: usize, head: &Head) -> Result<(), AllocError> {
    print_body(out, depth, head.first.items(), "first")?;
    print_word(out, depth, "test")?;
    if let Some(test) = &head.test {
        print_expression(out, depth.saturating_add(1), test)?;
    }
    print_word(out, depth, "step")?;
    if let Some(step) = &head.step {
        print_assign(out, depth.saturating_add(1), step)?;
    }
    Ok(())
}

/// A statement.
#[cycle(statement)]
fn print_statement(out: &mut String, depth: usize, tree: &Stmt) -> Result<(), AllocError> {
    let below = depth.saturating_add(1);
    match tree {
        Stmt::Empty => print_word(out, depth, "empty"),
        Stmt::Declare(items) => {
            print_word(out, depth, "declare")?;
            print_items(out, below, items.items())
        }
        Stmt::Assign(assign) => print_assign(out, depth, assign),
        Stmt::Call(line, word, arguments) => {
            print_call(out, depth, *line, word, arguments.items())
        }
        Stmt::Block(body) => print_body(out, depth, body.items(), "block"),
        Stmt::If(arms, last) => {
            print_word(out, depth, "if")?;
            print_arms(out, below, arms.items())?;
            print_body(out, below, last.items(), "else")
        }
        Stmt::Return(value) => {
            print_word(out, depth, "return")?;
            print_expression(out, below, value)
        }
        Stmt::Break(line) => print_lined(out, depth, "break", *line),
        Stmt::Continue(line) => print_lined(out, depth, "continue", *line),
        _ => print_loop(out, depth, tree),
    }
}

/// A statement that is a loop; nothing of another.
#[cycle(statement)]
fn print_loop(out: &mut String, depth: usize, tree: &Stmt) -> Result<(), AllocError> {
    let below = depth.saturating_add(1);
    match tree {
        Stmt::While(line, test, body) => {
            print_lined(out, depth, "while", *line)?;
            print_test(out, below, test)?;
            print_body(out, below, body.items(), "body")
        }
        Stmt::For(line, head, body) => {
            print_lined(out, depth, "for", *line)?;
            print_head(out, below, head.get())?;
            print_body(out, below, body.items(), "body")
        }
        Stmt::Do(line, body, test) => {
            print_lined(out, depth, "do", *line)?;
            print_body(out, below, body.items(), "body")?;
            print_test(out, below, test)
        }
        Stmt::Loop(line, name, body, end_line, end_name) => {
            print_named(out, depth, "loop", name, *line)?;
            print_body(out, below, body.items(), "body")?;
            print_named(out, below, "finish", end_name, *end_line)
        }
        _ => Ok(()),
    }
}

/// The parameters of a function.
fn print_parameters(out: &mut String, parameters: &[Parameter]) -> Result<(), AllocError> {
    for parameter in parameters {
        print_named(out, 1, "parameter", &parameter.name, parameter.line)?;
    }
    Ok(())
}

/// The function definitions of a file.
pub(crate) fn print_definitions(out: &mut String, functions: &[Def]) -> Result<(), AllocError> {
    for function in functions {
        print_named(out, 0, "function", &function.name, function.line)?;
        print_parameters(out, function.parameters.items())?;
        print_body(out, 1, function.body.items(), "body")?;
    }
    Ok(())
}

/// The names of the functions of a file, without what they hold.
pub(crate) fn print_names(out: &mut String, functions: &[Def]) -> Result<(), AllocError> {
    for function in functions {
        print_named(out, 0, "function", &function.name, function.line)?;
    }
    Ok(())
}
