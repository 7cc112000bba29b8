//! Whether two trees are one and the same.

use crate::trees::{
    Arm, Assign, Def, Expr, Head, Item, Link, Parameter, Sign, Stmt, Subscript, Unit, Value,
};
use flame_rows::Same;

impl Same for Sign {
    fn same(&self, other: &Sign) -> bool {
        *self == *other
    }
}

impl Same for Expr {
    #[cycle(same_expression)]
    fn same(&self, other: &Expr) -> bool {
        match (self, other) {
            (Expr::Number(n), Expr::Number(m)) => n == m,
            (Expr::Name(n, a), Expr::Name(m, b)) => n == m && a.same(b),
            (Expr::Field(n, a, x), Expr::Field(m, b, y)) => n == m && a.same(b) && x.same(y),
            (Expr::Get(n, a), Expr::Get(m, b)) => n == m && a.same(b),
            (Expr::At(n, a, e), Expr::At(m, b, f)) => {
                n == m && a.same(b) && e.line == f.line && e.index.same(&f.index)
            }
            (Expr::FieldAt(n, a, x, e), Expr::FieldAt(m, b, y, f)) => {
                n == m && a.same(b) && x.same(y) && e.line == f.line && e.index.same(&f.index)
            }
            (Expr::Unary(a, b), Expr::Unary(c, d)) => a.same(c) && b.same(d),
            (Expr::Chain(a, b), Expr::Chain(c, d)) => a.same(c) && b.same(d),
            (Expr::All(a), Expr::All(b)) => a.same(b),
            (Expr::Any(a), Expr::Any(b)) => a.same(b),
            _ => false,
        }
    }
}

impl Same for Subscript {
    fn same(&self, other: &Subscript) -> bool {
        self.line == other.line && self.index.same(&other.index)
    }
}

impl Same for Link {
    #[cycle(same_expression)]
    fn same(&self, other: &Link) -> bool {
        self.op == other.op && self.line == other.line && self.right.same(&other.right)
    }
}

impl Same for Value {
    fn same(&self, other: &Value) -> bool {
        match (self, other) {
            (Value::Plain(e), Value::Plain(f)) => e.same(f),
            (Value::Call(n, a, es), Value::Call(m, b, fs)) => n == m && a.same(b) && es.same(fs),
            _ => false,
        }
    }
}

impl Same for Item {
    fn same(&self, other: &Item) -> bool {
        self.line == other.line && self.name.same(&other.name) && self.value.same(&other.value)
    }
}

impl Same for Assign {
    fn same(&self, other: &Assign) -> bool {
        self.line == other.line
            && self.name.same(&other.name)
            && self.subscript.same(&other.subscript)
            && self.op == other.op
            && self.op_line == other.op_line
            && self.value.same(&other.value)
    }
}

impl Same for Stmt {
    #[cycle(same_statement)]
    fn same(&self, other: &Stmt) -> bool {
        match (self, other) {
            (Stmt::Empty, Stmt::Empty) => true,
            (Stmt::Declare(a), Stmt::Declare(b)) => a.same(b),
            (Stmt::Assign(a), Stmt::Assign(b)) => a.same(b),
            (Stmt::Call(n, a, es), Stmt::Call(m, b, fs)) => n == m && a.same(b) && es.same(fs),
            (Stmt::Block(a), Stmt::Block(b)) => a.same(b),
            (Stmt::If(a, b), Stmt::If(c, d)) => a.same(c) && b.same(d),
            (Stmt::While(n, e, a), Stmt::While(m, f, b)) => n == m && e.same(f) && a.same(b),
            (Stmt::For(n, h, a), Stmt::For(m, k, b)) => n == m && h.same(k) && a.same(b),
            (Stmt::Do(n, a, e), Stmt::Do(m, b, f)) => n == m && a.same(b) && e.same(f),
            (Stmt::Loop(n, a, body, i, c), Stmt::Loop(m, b, text, j, d)) => {
                n == m && a.same(b) && body.same(text) && i == j && c.same(d)
            }
            (Stmt::Return(e), Stmt::Return(f)) => e.same(f),
            (Stmt::Break(n), Stmt::Break(m)) => n == m,
            (Stmt::Continue(n), Stmt::Continue(m)) => n == m,
            _ => false,
        }
    }
}

impl Same for Arm {
    #[cycle(same_statement)]
    fn same(&self, other: &Arm) -> bool {
        self.test.same(&other.test) && self.body.same(&other.body)
    }
}

impl Same for Head {
    #[cycle(same_statement)]
    fn same(&self, other: &Head) -> bool {
        self.first.same(&other.first) && self.test.same(&other.test) && self.step.same(&other.step)
    }
}

impl Same for Parameter {
    fn same(&self, other: &Parameter) -> bool {
        self.line == other.line && self.name.same(&other.name)
    }
}

impl Same for Def {
    fn same(&self, other: &Def) -> bool {
        self.name.same(&other.name)
            && self.line == other.line
            && self.parameters.same(&other.parameters)
            && self.body.same(&other.body)
    }
}

impl Same for Unit {
    fn same(&self, other: &Unit) -> bool {
        self.functions.same(&other.functions)
    }
}
