//! What all models have in common that are rows of the table.
ghost use Rattle.std.specs.Prelude.{◌≡◌};
ghost use Rattle.lp_stack.specs.TaskView.{seen};
ghost use Rattle.lp_patch.specs.Aimed.{aimed};
ghost use Rattle.lp_model.specs.Row.{ModelRow, admits_of, blame_of};

use lp_model::{Blame, CheckKind};
use lp_patch::Aim;
use lp_stack::View;

/// A model that is a row of the table.
pub(crate) trait Row {
    ghost table: { ModelRow };
}

/// Whether a row admits a task that it blames so: whoever is blamed for nothing. Proved once here, and not in each model.
pub(crate) fn admits<M: Row>(
    _model: &M,
    _kind: CheckKind,
    _view: &View<'_>,
    _aim: &Aim<'_>,
    blame: Option<Blame>,
) -> bool
    requires { blame ≡ blame_of M.table _kind (seen _view.now) (aimed _aim.now) }
    ensures { result ≡ admits_of M.table _kind (seen _view.now) (aimed _aim.now) }
{
    blame.is_none()
}
