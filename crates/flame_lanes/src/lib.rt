//! The lanes of a layer: tasks that are dealt to workers, boards that their lanes fill, and what tasks leave, put together.
#![tactic(auto)]

mod boards;
mod columns;
mod dealing;
mod gains;
mod jobs;
mod messages;
mod tasks;

pub use boards::{freeze_all, open_boards, put_part};
pub use columns::{gathered, jobs_of};
pub use dealing::deal_tasks;
pub use gains::{Gain, gain_all};
pub use jobs::{Done, Job, Left};
pub use messages::{Messages, add_all};
pub use tasks::{Task, add_tasks};
