//! What a run comes to, event by event.
ghost use Rattle.std.specs.Prelude.{◌≡◌, ◌≤◌, ◌<◌, ◌+◌, ◌++◌, false, length, IfOk, OnOk};
ghost use Rattle.lp_definitions.specs.Run.{Run, leg_of, plus};
ghost use Rattle.lp_stack.specs.declared.number.TaskId.{TaskId};
ghost use Rattle.lp_stays.specs.Counts.{moves, top_of};
ghost use Rattle.lp_definitions.specs.declared.reply.What.{What};
ghost use Rattle.lp_definitions.specs.Stays.{stack};
ghost use Rattle.lp_machine.specs.Steps.{StandsIn};
ghost use Rattle.lp_machine.specs.Table.{state_in};
ghost use Rattle.lp_replay.specs.Outcome.{run_of};
ghost use Rattle.lp_definitions.specs.Outcome.{IsOutcome};
ghost use Rattle.lp_replay.specs.inside.Recording.{IsRecorded};

use super::fault::ReplayFault;
use super::start;
use crate::outcome::Outcome;
use crate::replies::ReplyList;
use lp_cert::ExplainedCore;
use lp_model::Consistency;
use lp_stack::TaskId;
use lp_stays::StayCount;
use lp_symbols::SymId;
use lp_text::Trace;
use lp_transition::{Core, Event, What};
use std::alloc::Global;
use std::marker::Model;

/// A run under way: the engine, and what the run came to so far.
pub(super) struct Recorder<M: Consistency> {
    explained: ExplainedCore<M>,
    replies: ReplyList,
    stays: StayCount,
}

/// By hand, so that the proof of who owns one lets go of it in one step, not field by field.
impl<M: Consistency> Drop for Recorder<M> {
    fn drop(self) {
        let Recorder {
            explained: _,
            replies: _,
            stays: _,
        } = self;
    }
}

impl<M: Consistency> Model for Recorder<M> {
    ghost use Rattle.lp_replay.specs.inside.Recording.{Recorded};

    ghost Value = { Recorded };

    ghost view = { λ r. record { explained = r.explained; replies = r.replies; stays = r.stays } };
}

impl<M: Consistency> Recorder<M> {
    /// The run of a trace before its first event, with room for the replies.
    pub(super) fn new(alloc: Global, model: M, trace: &Trace) -> Result<Recorder<M>, ReplayFault>
        ensures { IfOk result (λ recorder. IsRecorded M.rules (run_of trace.now) recorder) }
    {
        let patches = start::stack(alloc, trace)?;
        let stays = StayCount::new(alloc, &patches)?;
        let replies = ReplyList::with_capacity(alloc, trace.events().len())?;
        let core = start::engine_over(alloc, model, patches, trace)?;
        let explained = ExplainedCore::new(alloc, core)?;
        Ok(Recorder {
            explained,
            replies,
            stays,
        })
    }

    /// These events, one after the other.
    pub(super) fn record_all(&mut self, alloc: Global, events: &[Event]) -> Result<(), ReplayFault>
        requires { (run : Run) × IsRecorded M.rules run self.old × (length run.events + length events.now ≤ 1000000) }
        ensures { OnOk result ((run : Run) → IsRecorded M.rules run self.old → IsRecorded M.rules (record run { events = run.events ++ events.now }) self.new) }
    {
        for event in events {
            self.step(alloc, event)?;
        }
        Ok(())
    }

    /// Steps by the next event. For a quiet one and a scan that is compiled for each kind by itself, so that the event is told from
    /// those of other kinds once, and not by each part of the step.
    #[inline(always)]
    fn step(&mut self, alloc: Global, event: &Event) -> Result<(), ReplayFault>
        requires numbered { self.old.explained.core.number < 1000000 }
        requires counted { self.old.stays.calls < 1000000 }
        ensures { OnOk result ((run : Run) → IsRecorded M.rules run self.old → IsRecorded M.rules (plus run event.now) self.new) }
    {
        match *event {
            Event::Call(task, func) => self.call(alloc, task, func),
            Event::Ret(task) => self.ret(alloc, task),
            Event::Enter(task) => self.step_here(alloc, Event::Enter(task)),
            Event::Sleep(task) => self.step_here(alloc, Event::Sleep(task)),
            Event::Wake(task) => self.step_here(alloc, Event::Wake(task)),
            Event::Walk => self.step_here(alloc, Event::Walk),
            Event::Stop => self.step_here(alloc, Event::Stop),
            _ => self.step_other(alloc, event),
        }
    }

    /// Steps by a call. Where it ran, the count of stays hears of it.
    #[inline(always)]
    fn call(&mut self, alloc: Global, task: TaskId, func: SymId) -> Result<(), ReplayFault>
        requires numbered { self.old.explained.core.number < 1000000 }
        requires counted { self.old.stays.calls < 1000000 }
        ensures { OnOk result ((run : Run) → IsRecorded M.rules run self.old → IsRecorded M.rules (plus run (Event.Call task func)) self.new) }
    {
        let reply = self.explained.step(alloc, Event::Call(task, func))?;
        if let What::Ran(level) = &reply.what {
            self.stays.call(task, func, *level);
        }
        self.replies.push(reply)?;
        Ok(())
    }

    /// Steps by a return. Where it is accepted, the count of stays hears of it.
    #[inline(always)]
    fn ret(&mut self, alloc: Global, task: TaskId) -> Result<(), ReplayFault>
        requires { self.old.explained.core.number < 1000000 }
        ensures { OnOk result ((run : Run) → IsRecorded M.rules run self.old → IsRecorded M.rules (plus run (Event.Ret task)) self.new) }
    {
        let left = last_function(self.explained.core(), task);
        let reply = self.explained.step(alloc, Event::Ret(task))?;
        if let Some(func) = left {
            if is_accepted(&reply.what) {
                self.stays.ret(task, func);
            }
        }
        self.replies.push(reply)?;
        Ok(())
    }

    /// Steps by an event of a kind that isn't known where this is compiled.
    #[inline(never)]
    fn step_other(&mut self, alloc: Global, event: &Event) -> Result<(), ReplayFault>
        requires numbered { self.old.explained.core.number < 1000000 }
        requires unmoved { (what : What) → moves event.now what ≡ false }
        ensures { OnOk result ((run : Run) → IsRecorded M.rules run self.old → IsRecorded M.rules (plus run event.now) self.new) }
    {
        self.step_here(alloc, *event)
    }

    /// Steps by an event that moves no stack.
    #[inline(always)]
    fn step_here(&mut self, alloc: Global, event: Event) -> Result<(), ReplayFault>
        requires numbered { self.old.explained.core.number < 1000000 }
        requires unmoved { (what : What) → moves event what ≡ false }
        ensures { OnOk result ((run : Run) → IsRecorded M.rules run self.old → IsRecorded M.rules (plus run event) self.new) }
    {
        let reply = self.explained.step(alloc, event)?;
        self.replies.push(reply)?;
        Ok(())
    }

    /// What the run came to, with the last event after it.
    pub(super) fn finish(self, alloc: Global) -> Result<Outcome, ReplayFault>
        ensures { IfOk result (λ found. (run : Run) → IsRecorded M.rules run self → IsOutcome M.rules run found) }
    {
        let Self {
            explained,
            replies,
            stays,
        } = self;
        Ok(Outcome {
            replies,
            legs: explained.into_ends(alloc)?,
            stays: stays.stays(),
            mixed: stays.mixed(),
        })
    }
}

/// The function of a task's last frame; None without one.
#[inline(always)]
fn last_function<M: Consistency>(core: &Core<M>, task: TaskId) -> Option<SymId>
    ensures { (run : Run) → StandsIn M.rules run (state_in core.now) → result ≡ top_of (stack M.rules (leg_of M.rules run) task.0) }
{
    let view = core.task(task)?;
    let frame = view.frames.last()?;
    Some(frame.func)
}

/// Whether a return that did this was accepted.
#[inline(always)]
fn is_accepted(what: &What) -> bool
    ensures { (task : TaskId) → result ≡ moves (Event.Ret task) what.now }
{
    !matches!(what, What::Refused(_))
}
