//! A frame by which a waiting group is known to be refused.

use lp_stack::TaskId;

/// A frame on the stack of a waiting task. Until it is popped or the leg ends, every check of the
/// task's group is refused.
#[derive(Clone, Copy, Debug, PartialEq, Eq)]
pub struct StandingBlame {
    /// The task.
    pub task: TaskId,
    /// The serial of the frame.
    pub serial: u64,
}
