//! The model `hybrid`.

use crate::row::{Row, admits};
use lp_model::{Blame, CheckKind, Consistency, ForkKind, lowest_stale};
use lp_patch::Aim;
use lp_stack::{GroupId, Mode, TaskId, View};

/// Each task switches by itself, once no function on its stack changes.
///
/// This is Linux livepatch's consistency model, a hybrid of kGraft's switching of each task by
/// itself and kpatch's check of stacks: tasks are checked when they return to user space, idle
/// tasks at their idle point, and a walk over the stacks switches tasks that sleep. From Linux 6.4 on
/// a task also looks at its own stack at `cond_resched`.
#[derive(Clone, Copy, Debug, PartialEq, Eq)]
pub struct Hybrid;

impl Row for Hybrid {
    ghost use Rattle.lp_models.specs.Models.{hybrid};

    ghost table = { hybrid };
}

impl Consistency for Hybrid {
    ghost use Rattle.lp_model.specs.Row.{rules_of};
    ghost use Rattle.lp_models.specs.Models.{hybrid};
    ghost use Rattle.lp_models.specs.inside.ModelLaws.{hybrid_lawful};

    ghost rules = { rules_of hybrid };

    ghost lawful = { hybrid_lawful };

    fn uses(&self, kind: CheckKind) -> bool {
        kind != CheckKind::Stop
    }

    fn admits(&self, kind: CheckKind, view: &View<'_>, aim: &Aim<'_>) -> bool {
        admits(self, kind, view, aim, self.blame(kind, view, aim))
    }

    fn blame(&self, kind: CheckKind, view: &View<'_>, aim: &Aim<'_>) -> Option<Blame> {
        if !self.uses(kind) {
            return Some(Blame::Unused);
        }
        if let Some(serial) = lowest_stale(view, aim) {
            return Some(Blame::Frame(serial));
        }
        if kind == CheckKind::Walk && view.mode != Mode::Asleep {
            return Some(Blame::Busy);
        }
        None
    }

    fn first_group(&self, task: TaskId) -> GroupId {
        GroupId(task.0)
    }

    fn child_group(&self, _group: GroupId, child: TaskId, _how: ForkKind) -> GroupId {
        GroupId(child.0)
    }

    fn whole_call(&self) -> bool {
        true
    }
}
