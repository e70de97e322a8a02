//! The model `immediate`.

use lp_model::{Blame, CheckKind, Consistency, ForkKind};
use lp_patch::Aim;
use lp_stack::{GroupId, TaskId, View};

/// Each task switches by itself, at its first check, whatever is on its stack.
///
/// No system should switch tasks so where calls have to be consistent: a call may begin in one
/// version and go on in another. The model shows what a whole-call model excludes.
#[derive(Clone, Copy, Debug, PartialEq, Eq)]
pub struct Immediate;

impl Consistency for Immediate {
    ghost use Rattle.lp_model.specs.Row.{rules_of};
    ghost use Rattle.lp_models.specs.Models.{immediate};
    ghost use Rattle.lp_models.specs.inside.ModelLaws.{immediate_lawful};

    ghost rules = { rules_of immediate };

    ghost lawful = { immediate_lawful };

    fn uses(&self, _kind: CheckKind) -> bool {
        true
    }

    fn admits(&self, _kind: CheckKind, _view: &View<'_>, _aim: &Aim<'_>) -> bool {
        true
    }

    fn blame(&self, _kind: CheckKind, _view: &View<'_>, _aim: &Aim<'_>) -> Option<Blame> {
        None
    }

    fn first_group(&self, task: TaskId) -> GroupId {
        GroupId(task.0)
    }

    fn child_group(&self, _group: GroupId, child: TaskId, _how: ForkKind) -> GroupId {
        GroupId(child.0)
    }

    fn whole_call(&self) -> bool {
        false
    }
}
