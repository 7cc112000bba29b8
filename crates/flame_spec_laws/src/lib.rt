//! Laws and worked cases of what models and function files mean. A law is the contract of a function that computes
//! nothing. Few crates stand on this one, so that an edit of a law proves few crates anew.
#![tactic(auto)]

mod accepted_laws;
mod check_laws;
mod fault_cases;
mod helper_laws;
mod joined_laws;
mod name_laws;
mod order_laws;
mod tree_laws;
mod used_laws;
mod view_laws;
mod width_laws;

pub use accepted_laws::{accepted_cases, accepted_conditions, counted_conditions};
pub use check_laws::{
    check_faults_stand_in_files, checked_calls, checked_functions, checked_loops, checked_names,
};
pub use fault_cases::{array_cases, check_cases, helper_cases, place_cases};
pub use helper_laws::{helpers_end, helpers_stand_alone};
pub use joined_laws::{bounded_calls, free_functions, outcomes_over_boards};
pub use name_laws::{members_differ, names_differ, unit_lengths};
pub use order_laws::{cycles, layers, order_cases, orders, ranks, start_states_of_types};
pub use tree_laws::{trees_are_seen, trees_are_told};
pub use used_laws::{used_names, used_names_cases};
pub use view_laws::{choices, time_conditions, view_cases, views};
pub use width_laws::{narrow_rows, near_arrays};
