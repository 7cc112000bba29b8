//! Why a model has no plan.

use flame_rows::{Seq, Text};

/// Why a model has no plan.
#[derive(Debug, Drop)]
pub enum DependFault {
    /// Functions stand before one another in a round.
    Cycle(CycleFault),
    /// There is no cycle, and an agent type has two start states or more.
    Starts(ManyStarts),
}

/// Functions that stand before one another in a round. Functions are numbered from 0 in document order.
#[derive(Debug, Drop)]
pub struct CycleFault {
    /// The functions, each once: each stands before the next one, and the last before the first, which is the first in
    /// document order.
    pub functions: Seq<u32>,
}

/// The first agent type that has two start states or more.
#[derive(Debug, Drop)]
pub struct ManyStarts {
    /// The number of the type, from 0 in the order of the model.
    pub agent: u32,
    /// Its start states, in the order of their first function.
    pub states: Seq<Text>,
}
