//! Tests of gates: that workers are at work at once, what they wait for, and how nodes part agents, which no clause says; and that
//! traces are replayed. It has no code.
#![tactic(auto)]

#[cfg(test)]
mod meetings;
#[cfg(test)]
mod overtaking;
#[cfg(test)]
mod parting;
#[cfg(test)]
mod retelling;
#[cfg(test)]
mod runs;
