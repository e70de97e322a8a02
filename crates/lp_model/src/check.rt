//! The words of a check.
ghost use Rattle.std.specs.Prelude.{Some};
ghost use Rattle.lp_model.specs.Printed.{fork_kind_text};

use std::fmt;

/// The kinds of moments at which tasks are checked.
#[derive(Clone, Copy, Debug, PartialEq, Eq)]
pub enum CheckKind {
    /// A task returns to user space (kGraft; Linux livepatch's switch on the way out of the kernel).
    KernelExit,
    /// An idle task at the point in its loop where nothing runs.
    IdlePoint,
    /// A task in the kernel asks whether another should run, and its own stack is looked at while it
    /// is on its CPU (Linux livepatch from 6.4 on, at `cond_resched`).
    Resched,
    /// The stacks of all waiting tasks are looked at while the tasks run (Linux livepatch).
    Walk,
    /// All CPUs are stopped, and every stack is looked at (Ksplice).
    Stop,
}

/// Why a task isn't admitted.
#[derive(Clone, Copy, Debug, PartialEq, Eq)]
pub enum Blame {
    /// The model doesn't use this kind of check.
    Unused,
    /// The frame with this serial.
    Frame(u64),
    /// The task is on a CPU.
    Busy,
}

/// What a fork asks of the child's group.
#[derive(Clone, Copy, Debug, PartialEq, Eq)]
pub enum ForkKind {
    /// A process of its own.
    Own,
    /// A thread of the parent's process.
    Share,
}

impl fmt::Display for CheckKind {
    fn fmt<W: fmt::Write>(&self, f: &mut fmt::Formatter<W>) -> fmt::Result {
        f.write_str(match self {
            CheckKind::KernelExit => "exit",
            CheckKind::IdlePoint => "idle",
            CheckKind::Resched => "resched",
            CheckKind::Walk => "walk",
            CheckKind::Stop => "stop",
        })
    }
}

impl fmt::Display for Blame {
    fn fmt<W: fmt::Write>(&self, f: &mut fmt::Formatter<W>) -> fmt::Result {
        match self {
            Blame::Unused => f.write_str("unused"),
            Blame::Frame(serial) => write!(f, "frame {serial}"),
            Blame::Busy => f.write_str("busy"),
        }
    }
}

impl fmt::Display for ForkKind {
    ghost output = { λ how. Some (fork_kind_text how) };

    fn fmt<W: fmt::Write>(&self, f: &mut fmt::Formatter<W>) -> fmt::Result {
        f.write_str(match self {
            ForkKind::Own => "own",
            ForkKind::Share => "share",
        })
    }
}
