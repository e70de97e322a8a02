//! A scan by one thread.
ghost use Rattle.std.specs.Prelude.{◌≡◌, map, IfOk};
ghost use Rattle.lp_stack.specs.TaskView.{seen};
ghost use Rattle.lp_patch.specs.Aimed.{aimed};
ghost use Rattle.lp_scan.specs.Found.{found_of};

use lp_model::{CheckKind, Consistency, Verdict};
use lp_patch::Aim;
use lp_stack::View;
use std::alloc::{AllocError, Global};

/// What a check of a kind finds of each of these tasks, in their order; AllocError where an allocation failed.
pub fn scan_plain<M: Consistency>(
    alloc: Global,
    model: M,
    kind: CheckKind,
    aim: &Aim<'_>,
    views: &[View<'_>],
) -> Result<Vec<Verdict>, AllocError>
    ensures { IfOk result (λ found. found.items ≡ found_of M.rules kind (aimed aim.now) (map seen views.now)) }
{
    let mut found = Vec::with_capacity(alloc, views.len())?;
    for view in views {
        found.push(Verdict::of(&model, kind, view, aim))?;
    }
    Ok(found)
}
