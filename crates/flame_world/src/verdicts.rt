//! Verdicts on traces.

/// What is found of a trace: a text that is to tell one iteration of a world, first which it is, then its events, a
/// line each, and then its end. Lines are numbered from 1, and the verdict comes from the first one that settles it.
#[derive(Clone, Copy, Debug)]
pub enum Verdict {
    /// It tells the iteration: so many events, each legal after those before it, after which the iteration is complete,
    /// and its end is what they lead to.
    Yes(u32),
    /// This line has not the form that a trace has there, lacks its line feed, is missing, or stands behind a fault.
    Form(u32),
    /// This line, which is the first, tells another iteration than the one that comes next.
    OtherStart(u32),
    /// The event of this line is not legal after those before it.
    Illegal(u32),
    /// The end stands in this line, and the iteration is not complete there.
    Incomplete(u32),
    /// The end in this line, or what stands behind `done` from this line on, is not that to which the events lead.
    OtherEnd(u32),
}
