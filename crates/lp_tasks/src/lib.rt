//! The tasks of an engine by their numbers, and what an engine was when a leg opened.
//!
//! Costs: of a table only `new` and `copy` allocate, and what takes a group's members costs these.
#![tactic(auto)]

mod deep_stack;
mod deep_stacks;
mod live_task;
mod opening;
mod task_table;

pub use live_task::{LiveTask, LiveView, own_check_mode};
pub use lp_numbers::{Ascending, NumberSet};
pub use lp_patch::PatchStack;
pub use lp_stack::{Class, GroupId, Level, Mode, TaskId, View};
pub use opening::Opening;
pub use task_table::TaskTable;
