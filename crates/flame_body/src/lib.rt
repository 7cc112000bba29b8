//! Bodies of function files with numbers in place of names.
#![tactic(auto)]

mod bodies;
pub mod laws;
mod slots;

pub use bodies::Body;
pub use slots::{
    Cells, Slot, SlotArm, SlotAssign, SlotDeed, SlotExpr, SlotHead, SlotItem, SlotLink, SlotStmt,
    SlotSubscript, SlotTarget, SlotValue, Span,
};
