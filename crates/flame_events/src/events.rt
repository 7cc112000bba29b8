//! Events of a core.

/// What may happen next in an iteration. The numbers are those of a function, of a piece of it, and of a message.
#[derive(Clone, Copy, Debug)]
pub enum Event {
    /// The agents that take a function leave the state where they rest, in pieces.
    Open(u32),
    /// The next agent of a piece of a function runs.
    Agent(u32, u32),
    /// The messages of one type that a piece of a function sent join their board.
    HandIn(u32, u32, u32),
    /// A function is done.
    Shut(u32),
    /// The board of a message is frozen: it has all its messages, and may be read.
    Freeze(u32),
}
