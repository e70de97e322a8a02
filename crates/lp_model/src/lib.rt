//! What a consistency model says, and what each of them has to keep.
#![tactic(auto)]

mod check;
mod consistency;
mod stale;
mod verdict;

pub use check::{Blame, CheckKind, ForkKind};
pub use consistency::Consistency;
pub use lp_patch::Aim;
pub use lp_stack::{GroupId, TaskId, View};
pub use stale::lowest_stale;
pub use verdict::Verdict;
