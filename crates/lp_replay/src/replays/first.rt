//! The first leg of a trace alone.
ghost use Rattle.std.specs.Prelude.{◌≡◌, ◌≤◌, ◌+◌, ◌++◌, length, option_to_list, slice_get, IfOk, OnOk};
ghost use Rattle.lp_definitions.specs.Run.{Run, first_leg};
ghost use Rattle.lp_cert.specs.Explained.{IsExplained, made_in};
ghost use Rattle.lp_definitions.specs.Outcome.{leg_ends};
ghost use Rattle.lp_replay.specs.Outcome.{run_of};
ghost use Rattle.lp_replay.specs.inside.Recording.{first_made};

use super::fault::ReplayFault;
use super::own_code::{FirstLeg, OwnCode};
use super::start;
use lp_cert::{ExplainedCore, LegList};
use lp_model::Consistency;
use lp_text::Trace;
use lp_transition::Event;
use std::alloc::Global;

/// How the first leg of a trace ended under a model, as `replay` tells it: a list of that end alone,
/// empty where no event opened one; NoMemory where an allocation failed.
///
/// The events after the leg's end aren't taken, nor are those after its completion, from which on
/// its end stays the same. Neither replies nor stays are kept.
pub fn first_leg_end<M: Consistency>(
    alloc: Global,
    model: M,
    trace: &Trace,
) -> Result<LegList, ReplayFault>
    ensures { IfOk result (λ found. found ≡ option_to_list (slice_get (leg_ends M.rules (first_leg M.rules (run_of trace.now)) trace.now.events) 0)) }
{
    let model = OwnCode::<M, FirstLeg>::new(model);
    let core = start::engine(alloc, model, trace)?;
    let mut explained = ExplainedCore::new(alloc, core)?;
    take_first_leg(alloc, &mut explained, trace.events())?;
    first_of(alloc, explained)
}

/// Takes these events up to the one that completes or ends the first leg.
fn take_first_leg<M: Consistency>(
    alloc: Global,
    explained: &mut ExplainedCore<M>,
    events: &[Event],
) -> Result<(), ReplayFault>
    requires { (run : Run) × IsExplained M.rules run explained.old × (length run.events + length events.now ≤ 1000000) }
    ensures { OnOk result ((run : Run) → IsExplained M.rules run explained.old → first_made (made_in explained.new) ≡ slice_get (leg_ends M.rules (first_leg M.rules run) (run.events ++ events.now)) 0) }
{
    for event in events {
        explained.step(alloc, *event)?;
        // No quiet event completes or ends a leg, and nearly all events are quiet.
        if event.is_quiet() {
            continue;
        }
        if explained.is_complete() {
            return Ok(());
        }
        if !explained.ended().is_empty() {
            return Ok(());
        }
    }
    Ok(())
}

/// The first end that was made, alone.
fn first_of<M: Consistency>(
    alloc: Global,
    explained: ExplainedCore<M>,
) -> Result<LegList, ReplayFault>
    ensures { IfOk result (λ found. found ≡ option_to_list (first_made (made_in explained))) }
{
    Ok(explained.into_ends(alloc)?.into_first())
}
