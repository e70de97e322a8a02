//! The lines of busy members, of which most differ from the one before in the event alone.
ghost use Rattle.std.specs.Prelude.{◌≡◌, ◌++◌, IsFalse, IsTrue};
ghost use Rattle.lp_definitions.specs.declared.line.Line.TheVariants.{Busy};
ghost use Rattle.lp_text.specs.CertTexts.{reason_words};
ghost use Rattle.lp_text.specs.Words.{line_of};

use crate::held::Held;
use crate::part::Part;
use lp_stack::{GroupId, TaskId};
use std::marker::Model;

/// What stands in front of the event in the lines of a busy member.
///
/// A certificate has such a line for each scan that a member was busy at, and nothing else between them: so the numbers of the
/// group and of the member are written out once and copied for each.
///
/// Contracts see the group and the member.
#[derive(Drop)]
pub(super) struct BusyText {
    group: GroupId,
    task: TaskId,
    before: Part,
}

impl Model for BusyText {
    ghost use Rattle.lp_stack.specs.declared.number.GroupId.{GroupId};
    ghost use Rattle.lp_stack.specs.declared.number.TaskId.{TaskId};
    ghost use Rattle.lp_trace.specs.inside.Busy.{IsBusyText};

    ghost Value = { GroupId × TaskId };

    ghost view = { λ b. (b.group, b.task) };

    ghost invariant = { λ b. IsBusyText b.group b.task b.before };
}

impl BusyText {
    /// The text of no member that there is.
    pub(super) fn none() -> BusyText {
        let mut before = Part::none();
        before.set_ids(b"busy", 0, 0);
        BusyText {
            group: GroupId(0),
            task: TaskId(0),
            before,
        }
    }

    /// Whether it is the text of a member.
    #[inline(always)]
    fn is_of(&self, group: GroupId, task: TaskId) -> bool
        ensures { IsTrue result → self.now ≡ (group, task) }
    {
        self.group == group && self.task == task
    }

    /// Turns to a member. Out of line, as the lines of one follow each other.
    #[inline(never)]
    fn turn_to(&mut self, group: GroupId, task: TaskId)
        ensures { self.new ≡ (group, task) }
    {
        self.before.set_ids(b"busy", group.0, task.0);
        self.group = group;
        self.task = task;
    }

    /// Holds the line of a member that is busy at an event where there is room, and says whether it did.
    #[inline(always)]
    pub(super) fn hold(&mut self, held: &mut Held, group: GroupId, task: TaskId, at: u64) -> bool
        ensures taken { IsTrue result → held.new.items ≡ held.old.items ++ line_of (reason_words (Busy group task at)) }
        ensures kept { IsFalse result → held.new.items ≡ held.old.items }
    {
        if !self.is_of(group, task) {
            self.turn_to(group, task);
        }
        held.hold_after(&self.before, at)
    }
}
