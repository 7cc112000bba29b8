//! Laws of the orders of events, for runners: what is still legal after an event, what is newly so, and what stays; what a
//! whole function leaves; and what two cores from one beginning agree on.
#![tactic(auto)]

pub mod laws;
