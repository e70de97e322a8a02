//! The engine of a transition from one level of patches to another.
//!
//! Costs: an event of one task is constant, and allocates only where it switches a group. The first walk or
//! stop of a leg looks at each waiting task and its frames. A further one of the same kind looks, of the groups to
//! which something happened since, at the tasks to which something happened, at the first member that is refused, and
//! at all members of a group that switches. After a scan of the other kind it looks at all again. A control event goes
//! over the live tasks and the groups that got a blame in the leg, a return of a blamed task through its frames.
//! `views` and `waiting` go over the waiting tasks.
//!
//! Memory: a `Core` has tables over 65,536 numbers, about 1 MB, and room for as many tasks of 72 bytes, standing blames of
//! 24 and arrays of 800 for stacks of more than 6 frames: some 60 MB of addresses, of which only what was ever needed
//! becomes memory: of tasks that up to the greatest number. `standing` copies the tables, and has as much room.
#![tactic(auto)]

mod engine;
pub mod laws;

pub use engine::{BootFault, Core, Halt, Step};
pub use lp_definitions::{Event, GroupList, MOST_EVENTS, Refusal, Reply, What};
pub use lp_machine::StandingBlame;
pub use lp_model::{CheckKind, Consistency, ForkKind, Verdict};
pub use lp_numbers::{Ascending, NumberSet};
pub use lp_patch::{Aim, PatchStack};
pub use lp_stack::{Class, GroupId, Level, TaskId, View};
pub use lp_symbols::SymId;
pub use lp_tasks::Opening;
