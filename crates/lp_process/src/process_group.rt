//! The model `process-group`.

use lp_model::{Blame, CheckKind, Consistency, ForkKind, lowest_stale};
use lp_patch::Aim;
use lp_stack::{GroupId, Mode, TaskId, View};

/// The tasks of a process switch together, once no function on their stacks changes.
///
/// This model is this project's own. A child forked as a process of its own has a group of its own,
/// and a thread joins the group of its parent, so that threads which share memory run one version.
/// A walk takes tasks that sleep and tasks in user space, neither of which runs kernel code.
#[derive(Clone, Copy, Debug, PartialEq, Eq)]
pub struct ProcessGroup;

impl Consistency for ProcessGroup {
    ghost use Rattle.lp_model.specs.Row.{rules_of};
    ghost use Rattle.lp_process.specs.Models.{process_group};
    ghost use Rattle.lp_process.specs.inside.ModelLaws.{process_group_lawful};

    ghost rules = { rules_of process_group };

    ghost lawful = { process_group_lawful };

    fn uses(&self, kind: CheckKind) -> bool {
        kind != CheckKind::Stop
    }

    fn admits(&self, kind: CheckKind, view: &View<'_>, aim: &Aim<'_>) -> bool {
        self.blame(kind, view, aim).is_none()
    }

    fn blame(&self, kind: CheckKind, view: &View<'_>, aim: &Aim<'_>) -> Option<Blame> {
        if !self.uses(kind) {
            return Some(Blame::Unused);
        }
        if let Some(serial) = lowest_stale(view, aim) {
            return Some(Blame::Frame(serial));
        }
        if kind == CheckKind::Walk && view.mode == Mode::Kernel {
            return Some(Blame::Busy);
        }
        None
    }

    fn first_group(&self, task: TaskId) -> GroupId {
        GroupId(task.0)
    }

    fn child_group(&self, group: GroupId, child: TaskId, how: ForkKind) -> GroupId {
        match how {
            ForkKind::Own => GroupId(child.0),
            ForkKind::Share => group,
        }
    }

    fn whole_call(&self) -> bool {
        true
    }
}
