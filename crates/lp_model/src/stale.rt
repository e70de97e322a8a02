//! The stack check.
ghost use Rattle.std.specs.Prelude.{◌≡◌};
ghost use Rattle.lp_stack.specs.TaskView.{seen};
ghost use Rattle.lp_patch.specs.Aimed.{aimed};
ghost use Rattle.lp_patch.specs.Patches.{is_stale};
ghost use Rattle.lp_model.specs.Row.{lowest};

use lp_patch::Aim;
use lp_stack::View;

/// The serial of the lowest stale frame of a task, the one pushed first; None where no frame is
/// stale.
///
/// Frames below the top count too, since their functions go on once those above them have returned
/// (Linux livepatch documentation, consistency model; Ksplice's check of each thread's stack).
pub fn lowest_stale(view: &View<'_>, aim: &Aim<'_>) -> Option<u64>
    ensures { result ≡ lowest (is_stale (aimed aim.now)) (seen view.now) }
{
    view.frames
        .iter()
        .find(|frame| aim.stale(frame))
        .map(|frame| u64::from(frame.serial))
}
