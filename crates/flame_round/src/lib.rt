//! What runners share: what stays the same throughout an iteration, how its field begins and ends, who takes a function, and
//! what the takers leave.
#![tactic(auto)]

mod closing;
mod opening;
mod parting;
mod rounds;
mod routes;
mod takers;
mod wants;

pub use closing::closed;
pub use opening::opened;
pub use parting::{choose, count_takers, leave, leave_chosen};
pub use rounds::Round;
pub use routes::{out_of, route_of};
pub use takers::run_over;
pub use wants::wants_of;
