//! How statements end.

use flame_spec::Fault;

/// How a statement ended.
#[derive(Clone, Copy)]
pub(crate) enum Ending {
    /// It went on behind the statement.
    WentOn,
    /// It met `break`.
    Broke,
    /// It met `continue`.
    Continued,
    /// It returned this value.
    Returned(i32),
    /// It faulted.
    Faulted(Fault),
}

/// How a call of a helper ended.
#[derive(Clone, Copy)]
pub(crate) enum Gave {
    /// It gave this value, and left this fuel.
    Value(i32, u32),
    /// It faulted.
    Failed(Fault),
}
