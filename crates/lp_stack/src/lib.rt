//! The functions that a task has called and that have not returned.
//!
//! Costs: no call allocates. A frame has 8 bytes, so a `TaskStack` and a `ViewCopy` have about 800, however few frames
//! they have. `push`, `pop` and `view` are constant; `new` fills the places once; `ViewCopy::of` and `same_as` go over
//! the frames.
#![tactic(auto)]

mod frame;
mod number;
mod task_stack;
mod view;
mod view_copy;

pub use frame::Frame;
pub use lp_symbols::SymId;
pub use number::{GroupId, Level, TaskId};
pub use task_stack::{MOST_FRAMES, TaskStack};
pub use view::{Class, Mode, View};
pub use view_copy::ViewCopy;
