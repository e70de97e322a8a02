//! The replay of a trace under a model.
ghost use Rattle.std.specs.Prelude.{◌≡◌, IfOk, IsTrue};
ghost use Rattle.lp_definitions.specs.Run.{first_leg, replies};
ghost use Rattle.lp_definitions.specs.Stays.{mixed_count, stay_count};
ghost use Rattle.lp_definitions.specs.Headline.{Headline};
ghost use Rattle.lp_replay.specs.Outcome.{whole_run, run_of};
ghost use Rattle.lp_text.specs.Traces.{IsTrace};
ghost use Rattle.lp_definitions.specs.Outcome.{leg_ends, IsOutcome};

mod fault;
mod first;
mod leg;
mod own_code;
mod recorder;
mod start;

use crate::outcome::Outcome;
pub use fault::ReplayFault;
pub use first::first_leg_end;
pub use leg::{TraceLeg, leg_numbered};
use lp_model::Consistency;
use lp_text::Trace;
use own_code::{OwnCode, WholeTrace};
use recorder::Recorder;
pub use start::stack;
use std::alloc::Global;

/// What the run of a trace under a model comes to; NoMemory where an allocation failed.
pub fn replay<M: Consistency>(
    alloc: Global,
    model: M,
    trace: &Trace,
) -> Result<Outcome, ReplayFault>
    ensures replies { IfOk result (λ found. found.replies ≡ replies M.rules (first_leg M.rules (run_of trace.now)) trace.now.events) }
    ensures legs { IfOk result (λ found. found.legs ≡ leg_ends M.rules (first_leg M.rules (run_of trace.now)) trace.now.events) }
    ensures stays { IfOk result (λ found. found.stays ≡ stay_count M.rules (first_leg M.rules (run_of trace.now)) trace.now.events) }
    ensures mixed { IfOk result (λ found. found.mixed ≡ mixed_count M.rules (first_leg M.rules (run_of trace.now)) trace.now.events) }
    ensures unmixed { IfOk result (λ found. IsTrue M.rules.whole_call → found.mixed ≡ 0) }
    ensures headline { IfOk result (λ found. Headline M.rules (whole_run trace.now) found) }
{
    outcome_of(alloc, OwnCode::<M, WholeTrace>::new(model), trace)
}

/// The same, by the events one after the other.
fn outcome_of<M: Consistency>(
    alloc: Global,
    model: M,
    trace: &Trace,
) -> Result<Outcome, ReplayFault>
    ensures { IfOk result (λ found. IsTrace trace.now × IsOutcome M.rules (whole_run trace.now) found) }
{
    let mut recorder = Recorder::new(alloc, model, trace)?;
    match recorder.record_all(alloc, trace.events()) {
        Ok(()) => recorder.finish(alloc),
        Err(fault) => Err(fault),
    }
}
