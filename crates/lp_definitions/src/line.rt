//! The lines of a certificate.
ghost use Rattle.std.specs.Prelude.{◌≡◌, ◌↔◌, [], length, IsTrue};

use lp_stack::{GroupId, TaskId};
use std::fmt;
use std::marker::Model;

/// One reason why a group still waits. Events have their numbers in the run.
#[derive(Clone, Copy, Debug, PartialEq, Eq)]
pub enum Line {
    /// At the check of event `from` the member `task` is blamed by the frame of this serial, which
    /// stays on its stack after each event from `from` to `to`.
    Hold {
        /// The group that waits.
        group: GroupId,
        /// The member that isn't admitted.
        task: TaskId,
        /// The number of the event that pushed the frame.
        serial: u64,
        /// The event of the check.
        from: u64,
        /// The last event after which the frame is known to be there.
        to: u64,
    },
    /// At the check of event `at` the member `task` is blamed as busy: it is on a CPU.
    Busy {
        /// The group that waits.
        group: GroupId,
        /// The member that isn't admitted.
        task: TaskId,
        /// The event of the check.
        at: u64,
    },
    /// The group was born at event `at`, a fork by the task `parent`.
    Born {
        /// The group that waits, whose number is the child's.
        group: GroupId,
        /// The task that forked.
        parent: TaskId,
        /// The event of the fork.
        at: u64,
    },
}

/// As a report writes it.
impl fmt::Display for Line {
    fn fmt<W: fmt::Write>(&self, f: &mut fmt::Formatter<W>) -> fmt::Result {
        match self {
            Line::Hold {
                group,
                task,
                serial,
                from,
                to,
            } => write!(f, "hold {} {} {serial} {from} {to}", group.0, task.0),
            Line::Busy { group, task, at } => write!(f, "busy {} {} {at}", group.0, task.0),
            Line::Born { group, parent, at } => write!(f, "born {} {} {at}", group.0, parent.0),
        }
    }
}

/// A list of lines. Contracts see the list.
#[derive(Drop)]
pub struct LineList {
    lines: Vec<Line>,
}

impl Model for LineList {
    ghost use Rattle.std.specs.Prelude.{List};
    ghost use Rattle.lp_definitions.specs.declared.line.Line.{Line};

    ghost Value = { List Line };

    ghost view = { λ l. l.lines.items };
}

impl LineList {
    /// The list of these lines. Never allocates.
    pub fn from_vec(lines: Vec<Line>) -> LineList
        ensures { result ≡ lines.items }
    {
        LineList { lines }
    }

    /// The lines, borrowed.
    pub fn as_slice(&self) -> &[Line]
        ensures { result.now ≡ self.now }
    {
        self.lines.as_slice()
    }

    /// How many lines there are.
    pub fn len(&self) -> usize
        ensures { result ≡ length self.now }
    {
        self.lines.len()
    }

    /// Whether there is no line.
    pub fn is_empty(&self) -> bool
        ensures { IsTrue result ↔ (self.now ≡ []) }
    {
        self.lines.is_empty()
    }
}
