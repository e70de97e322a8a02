//! The publication of an event that was weighed.
ghost use Rattle.std.specs.Prelude.{◌≡◌, ◌∷◌, ◌++◌, [], OnErr, OnOk};
ghost use Rattle.lp_transition.specs.Weigh.{IsWeighed};
ghost use Rattle.lp_desk.specs.Books.{IsShown};

use lp_board::{DeskName, Publisher, Update};
use lp_log::Log;
use lp_model::Consistency;
use lp_transition::Step;
use std::alloc::{AllocError, Global};
use std::sync::Wait;

/// Publishes an event that was weighed on the engine of the log. Where it fails the board is as it was: an allocation
/// failed. What comes after it must not fail, as the board shows the event already.
pub(super) fn publish<M: Consistency, N: DeskName, R: Wait>(
    rt: &R,
    alloc: Global,
    log: &Log<M>,
    board: &mut Publisher<N>,
    step: &Step,
) -> Result<(), AllocError>
    requires weighed { IsWeighed M.rules log.now.core step.now }
    requires shown { IsShown N.desk M.rules log.now.journal board.old }
    ensures published { OnOk result (board.new ≡ board.old ++ step.now.event ∷ []) }
    ensures err { OnErr result (board.new ≡ board.old) }
{
    let update = Update::of(alloc, log.core(), step, board.heading())?;
    board.show(rt, step.event(), update)
}
