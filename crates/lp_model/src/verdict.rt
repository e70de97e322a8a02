//! What a check found of a task.
ghost use Rattle.std.specs.Prelude.{◌≡◌};
ghost use Rattle.lp_stack.specs.TaskView.{seen};
ghost use Rattle.lp_patch.specs.Aimed.{aimed};

use crate::{Blame, CheckKind, Consistency};
use lp_patch::Aim;
use lp_stack::{TaskId, View};

/// What a check found of a task.
#[derive(Clone, Copy, Debug, PartialEq, Eq)]
pub struct Verdict {
    /// The task.
    pub task: TaskId,
    /// Why it isn't admitted; None where it is.
    pub blame: Option<Blame>,
}

impl Verdict {
    /// What a check of a kind finds of a task.
    pub fn of<M: Consistency>(model: &M, kind: CheckKind, view: &View<'_>, aim: &Aim<'_>) -> Verdict
        ensures task { result.task ≡ view.now.task }
        ensures blame { result.blame ≡ M.rules.blame kind (seen view.now) (aimed aim.now) }
    {
        Verdict {
            task: view.task,
            blame: model.blame(kind, view, aim),
        }
    }
}
