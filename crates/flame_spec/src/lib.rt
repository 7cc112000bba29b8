//! What models and function files mean: the data and the definitions that other crates cite.
#![tactic(auto)]

mod conditions;
mod counted;
mod faults;
mod models;
mod outcomes;
mod same_data;
mod same_trees;
mod trees;
mod wide;

pub use conditions::{Condition, Operand};
pub use faults::{CheckFault, CheckKind, Fault, NameFault, NameKind};
pub use models::{AgentType, Function, Input, MessageType, Model, Sort, TimeUnit, Variable};
pub use outcomes::{Born, Effect, Outcome, Sent, Source, Widths};
pub use trees::{
    Arm, Assign, Def, Expr, Head, Item, Link, Parameter, Sign, SignKind, Stmt, Subscript, Unit,
    Value,
};
pub use wide::{DataType, Wide, WideAgent, WideMessage, WideVariable};
