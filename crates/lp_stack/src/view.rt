//! A task as a check sees it.
ghost use Rattle.std.specs.Prelude.{◌≤◌, length};

use crate::{Frame, TaskId};

/// Where a task runs.
#[derive(Clone, Copy, Debug, PartialEq, Eq)]
pub enum Mode {
    /// In user space, counted as on a CPU.
    User,
    /// In the kernel, on a CPU.
    Kernel,
    /// In the kernel, off the CPU.
    Asleep,
}

/// What a task is to the scheduler.
#[derive(Clone, Copy, Debug, PartialEq, Eq)]
pub enum Class {
    /// A normal task.
    Normal,
    /// The idle task of a CPU.
    Idle,
}

/// A task as it stands, borrowed: its number, its class, its mode and its stack of at most 100
/// frames.
///
/// The stack is reliable, and its top frame stands for the instruction pointer
/// (Linux livepatch documentation, consistency model: sleeping tasks are checked by their stacks).
#[derive(Clone, Copy, Debug)]
pub struct View<'a> {
    /// The task's number.
    pub task: TaskId,
    /// The task's class.
    pub class: Class,
    /// Where the task runs.
    pub mode: Mode,
    /// The frames, the one pushed first in front.
    pub frames: &'a [Frame],
    ghost few: { length frames.now ≤ 100 },
}
