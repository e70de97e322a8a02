//! The consistency models.
ghost use Rattle.std.specs.Prelude.{◌≡◌};
ghost use Rattle.lp_stack.specs.TaskView.{seen};
ghost use Rattle.lp_patch.specs.Aimed.{aimed};
ghost use Rattle.lp_model.specs.Rules.{Rules, IsLawful};

use crate::{Blame, CheckKind, ForkKind};
use lp_patch::Aim;
use lp_stack::{GroupId, TaskId, View};

/// A consistency model: which checks it uses, what must be left before a task switches, and who
/// switches together.
///
/// `rules` is the model as contracts see it. It belongs to the type, so two values of one type
/// answer alike. `lawful` is what every engine over the model relies on, and all that it relies on.
/// No call allocates.
pub trait Consistency: Copy {
    ghost rules: { Rules };

    /// Whether the model uses a kind of check.
    fn uses(&self, kind: CheckKind) -> bool
        ensures { result ≡ rules.uses kind };

    /// Whether a check of a kind admits a task.
    fn admits(&self, kind: CheckKind, view: &View<'_>, aim: &Aim<'_>) -> bool
        ensures { result ≡ rules.admits kind (seen view.now) (aimed aim.now) };

    /// Why a check of a kind doesn't admit a task; None where it does.
    fn blame(&self, kind: CheckKind, view: &View<'_>, aim: &Aim<'_>) -> Option<Blame>
        ensures { result ≡ rules.blame kind (seen view.now) (aimed aim.now) };

    /// The group of a task that is there from the start.
    fn first_group(&self, task: TaskId) -> GroupId
        ensures { result.0 ≡ rules.first_group task.0 };

    /// The group of a child of a member of a group.
    fn child_group(&self, group: GroupId, child: TaskId, how: ForkKind) -> GroupId
        ensures { result.0 ≡ rules.child_group group.0 child.0 how };

    /// Whether no task switches with a stale frame on its stack.
    fn whole_call(&self) -> bool
        ensures { result ≡ rules.whole_call };

    ghost lawful: { IsLawful rules };
}
