//! The model `all-at-once`.

use crate::row::{Row, admits};
use lp_model::{Blame, CheckKind, Consistency, ForkKind, lowest_stale};
use lp_patch::Aim;
use lp_stack::{GroupId, TaskId, View};

/// All tasks switch together, while all CPUs are stopped, once no function on any stack changes.
///
/// This is the model of Ksplice (EuroSys 2009): it stops all CPUs, and goes on only if no thread's
/// instruction pointer or return address is in a replaced function.
#[derive(Clone, Copy, Debug, PartialEq, Eq)]
pub struct AllAtOnce;

impl Row for AllAtOnce {
    ghost use Rattle.lp_models.specs.Models.{all_at_once};

    ghost table = { all_at_once };
}

impl Consistency for AllAtOnce {
    ghost use Rattle.lp_model.specs.Row.{rules_of};
    ghost use Rattle.lp_models.specs.Models.{all_at_once};
    ghost use Rattle.lp_models.specs.inside.ModelLaws.{all_at_once_lawful};

    ghost rules = { rules_of all_at_once };

    ghost lawful = { all_at_once_lawful };

    fn uses(&self, kind: CheckKind) -> bool {
        kind == CheckKind::Stop
    }

    fn admits(&self, kind: CheckKind, view: &View<'_>, aim: &Aim<'_>) -> bool {
        admits(self, kind, view, aim, self.blame(kind, view, aim))
    }

    fn blame(&self, kind: CheckKind, view: &View<'_>, aim: &Aim<'_>) -> Option<Blame> {
        if !self.uses(kind) {
            return Some(Blame::Unused);
        }
        lowest_stale(view, aim).map(Blame::Frame)
    }

    fn first_group(&self, _task: TaskId) -> GroupId {
        GroupId(0)
    }

    fn child_group(&self, group: GroupId, _child: TaskId, _how: ForkKind) -> GroupId {
        group
    }

    fn whole_call(&self) -> bool {
        true
    }
}
