//! How the agents of a model's functions go: from which state to which, who else leaves that state, and which messages they
//! read. All names are looked up once, so that runs go by numbers.
#![tactic(auto)]

mod leaving;
mod messages;
mod routes;
mod starts;
mod states;
mod types;

pub use routes::{Route, Routes};
