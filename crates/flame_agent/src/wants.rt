//! What helps agents to find what they read.

ghost use Rattle.std.specs.Prelude.{◌≡◌};
ghost use Rattle.std.specs.Option.{option_copied};
ghost use Rattle.flame_agent.specs.WantedKeys.{filtered_by, unless_content_order, wanted_key};

use flame_cond::{Filter, SortBy};

/// The key of the column which the filter fixes, else that of the sort.
fn filtered_by(filter: Option<&Filter>, sort: Option<SortBy>) -> Option<SortBy>
    ensures { result ≡ filtered_by (option_copied filter.entry) sort }
{
    match filter {
        None => sort,
        Some(filter) => match filter.equality() {
            None => sort,
            Some(equality) => Some(SortBy {
                variable: equality.column,
                descending: false,
            }),
        },
    }
}

/// The key, unless a board has its order anyway.
fn unless_content_order(by: SortBy) -> Option<SortBy>
    ensures { result ≡ unless_content_order by }
{
    if by.variable == 0 && !by.descending {
        None
    } else {
        Some(by)
    }
}

/// The key that finds what is read from a board under this filter and this sort, where it is kept beside the board: that of
/// the column which the filter fixes, else that of the sort. None where there is neither, and where the board has this
/// order anyway. Which messages are read does not depend on what is kept.
pub fn wanted_key(filter: Option<&Filter>, sort: Option<SortBy>) -> Option<SortBy>
    ensures { result ≡ wanted_key (option_copied filter.entry) sort }
{
    unless_content_order(filtered_by(filter, sort)?)
}
