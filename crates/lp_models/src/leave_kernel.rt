//! The model `leave-kernel`.

use crate::row::{Row, admits};
use lp_model::{Blame, CheckKind, Consistency, ForkKind};
use lp_patch::Aim;
use lp_stack::{GroupId, TaskId, View};

/// Each task switches by itself, when its stack is empty.
///
/// This is kGraft's model: a task is switched when it leaves the kernel, an idle task at its idle
/// point, and no stack is searched for the functions that change.
#[derive(Clone, Copy, Debug, PartialEq, Eq)]
pub struct LeaveKernel;

impl Row for LeaveKernel {
    ghost use Rattle.lp_models.specs.Models.{leave_kernel};

    ghost table = { leave_kernel };
}

impl Consistency for LeaveKernel {
    ghost use Rattle.lp_model.specs.Row.{rules_of};
    ghost use Rattle.lp_models.specs.Models.{leave_kernel};
    ghost use Rattle.lp_models.specs.inside.ModelLaws.{leave_kernel_lawful};

    ghost rules = { rules_of leave_kernel };

    ghost lawful = { leave_kernel_lawful };

    fn uses(&self, kind: CheckKind) -> bool {
        matches!(kind, CheckKind::KernelExit | CheckKind::IdlePoint)
    }

    fn admits(&self, kind: CheckKind, view: &View<'_>, aim: &Aim<'_>) -> bool {
        admits(self, kind, view, aim, self.blame(kind, view, aim))
    }

    fn blame(&self, kind: CheckKind, view: &View<'_>, _aim: &Aim<'_>) -> Option<Blame> {
        if !self.uses(kind) {
            return Some(Blame::Unused);
        }
        let lowest = view.frames.first()?;
        Some(Blame::Frame(u64::from(lowest.serial)))
    }

    fn first_group(&self, task: TaskId) -> GroupId {
        GroupId(task.0)
    }

    fn child_group(&self, _group: GroupId, child: TaskId, _how: ForkKind) -> GroupId {
        GroupId(child.0)
    }

    fn whole_call(&self) -> bool {
        true
    }
}
