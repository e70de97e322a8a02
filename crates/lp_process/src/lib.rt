//! A consistency model in which the tasks of a process switch together.
#![tactic(auto)]

mod process_group;

pub use lp_model::Consistency;
pub use process_group::ProcessGroup;
