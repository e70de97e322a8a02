//! The events of a run: each is weighed, and taken as it was answered.
ghost use Rattle.std.specs.Prelude.{◌≡◌, [], ◌≤◌, ◌<◌, ◌↔◌, true, false, None, Some, Err, IfOk, IsErr, OnErr, OnOk, IsTrue};
ghost use Rattle.lp_transition.specs.declared.engine.step.Halt.TheVariants.{NoMemory, JournalFull};
ghost use Rattle.lp_definitions.specs.Events.{is_scan};
ghost use Rattle.lp_transition.specs.Scan.{is_scan_kind, scan_event, verdicts_of};
ghost use Rattle.lp_machine.specs.Steps.{IsStep};
ghost use Rattle.lp_transition.specs.Blames.{AreBlamesAfter};
ghost use Rattle.lp_transition.specs.LastScan.{IsLastScanAfter};
ghost use Rattle.lp_machine.specs.Table.{state_in};
ghost use Rattle.lp_transition.specs.Weigh.{HasBlamesAfter, IsWeighed, is_switched, may_allocate, refusal_in};
ghost use Rattle.lp_machine.specs.Machine.{refusal_of, answer, next};

use super::Core;
use super::step::{Halt, Step};
use crate::{Event, MOST_EVENTS, Refusal, Reply, What};
use lp_model::{CheckKind, Consistency, Verdict};
use lp_stack::Mode;
use std::alloc::{AllocError, Global};

impl<M: Consistency> Core<M> {
    /// One event: answers and takes it. Where it fails the engine is as it was: NoMemory where an
    /// allocation failed, which may be at scans, and at own checks where they switch a group, and
    /// JournalFull where no event is left.
    #[inline(always)]
    pub fn step(&mut self, alloc: Global, event: Event) -> Result<Reply, Halt>
        ensures full { (result ≡ Err JournalFull) ↔ (1000000 ≤ self.old.number) }
        ensures memory { result ≡ Err NoMemory → IsTrue (may_allocate event (answer M.rules (state_in self.old) event).what) }
        ensures step { IfOk result (λ reply. IsStep M.rules (state_in self.old) event reply (state_in self.new)) }
        ensures blames { IfOk result (λ reply. HasBlamesAfter M.rules self.old event self.new) }
        ensures unchanged { OnErr result (self.new ≡ self.old) }
    {
        if event.is_scan() {
            return self.step_scan(alloc, event);
        }
        if self.events >= MOST_EVENTS {
            return Err(Halt::JournalFull);
        }
        Ok(self.step_plain(alloc, event)?)
    }

    /// An event that is no scan, of which one has to be left: answers and takes it, with no step in between. AllocError where an
    /// allocation failed, which there is only where an own check switches its group; the engine is then as it was. It is compiled
    /// where it is called, so that a kind of event that is known there pays for no other.
    #[inline(always)]
    pub fn step_plain(&mut self, alloc: Global, event: Event) -> Result<Reply, AllocError>
        requires room { self.old.number < 1000000 }
        requires plain { is_scan event ≡ false }
        ensures memory { IsErr result → IsTrue (may_allocate event (answer M.rules (state_in self.old) event).what) }
        ensures step { IfOk result (λ reply. IsStep M.rules (state_in self.old) event reply (state_in self.new)) }
        ensures blames { OnOk result (AreBlamesAfter M.rules self.old event [] self.new) }
        ensures last_scan { OnOk result (IsLastScanAfter M.rules self.old event self.new) }
        ensures unchanged { OnErr result (self.new ≡ self.old) }
    {
        if let Some(why) = self.refusal(event) {
            self.take_refused(event, why);
            return Ok(refused(why));
        }
        let reply = self.answer_accepted(alloc, event)?;
        self.take_accepted(event, is_switched(&reply.what));
        Ok(reply)
    }

    /// Out of line, so that no other event pays for what scans need.
    #[inline(never)]
    fn step_scan(&mut self, alloc: Global, event: Event) -> Result<Reply, Halt>
        ensures full { (result ≡ Err JournalFull) ↔ (1000000 ≤ self.old.number) }
        ensures memory { result ≡ Err NoMemory → IsTrue (may_allocate event (answer M.rules (state_in self.old) event).what) }
        ensures step { IfOk result (λ reply. IsStep M.rules (state_in self.old) event reply (state_in self.new)) }
        ensures blames { IfOk result (λ reply. HasBlamesAfter M.rules self.old event self.new) }
        ensures unchanged { OnErr result (self.new ≡ self.old) }
    {
        let step = self.weigh_changed(alloc, event)?;
        Ok(self.take(step))
    }

    /// A walk or a stop by what its checks found of the waiting tasks: answers and takes it. Where
    /// it fails the engine is as it was: NoMemory where an allocation failed, JournalFull where no
    /// event is left.
    pub fn commit_scan(
        &mut self,
        alloc: Global,
        kind: CheckKind,
        verdicts: &[Verdict],
    ) -> Result<Reply, Halt>
        requires scan { is_scan_kind kind ≡ true }
        requires found { verdicts.now ≡ verdicts_of M.rules kind (state_in self.old) }
        ensures full { (result ≡ Err JournalFull) ↔ (1000000 ≤ self.old.number) }
        ensures step { IfOk result (λ reply. IsStep M.rules (state_in self.old) (scan_event kind) reply (state_in self.new)) }
        ensures blames { IfOk result (λ reply. AreBlamesAfter M.rules self.old (scan_event kind) verdicts.now self.new) }
        ensures last_scan { IfOk result (λ reply. IsLastScanAfter M.rules self.old (scan_event kind) self.new) }
        ensures unchanged { OnErr result (self.new ≡ self.old) }
    {
        let scan = self.weigh_scan(alloc, kind, verdicts)?;
        Ok(self.take(scan))
    }

    /// Takes an event that was weighed on this engine, and answers it. Never allocates.
    pub fn take(&mut self, step: Step) -> Reply
        requires { IsWeighed M.rules self.old step }
        ensures reply { result ≡ step.reply }
        ensures step { IsStep M.rules (state_in self.old) step.event result (state_in self.new) }
        ensures blames { AreBlamesAfter M.rules self.old step.event step.verdicts self.new }
        ensures last_scan { IsLastScanAfter M.rules self.old step.event self.new }
    {
        let event = step.event();
        if event.is_scan() {
            self.take_scan(&step);
            return step.into_reply();
        }
        let reply = step.into_reply();
        match refusal_in(&reply.what) {
            Some(why) => self.take_refused(event, why),
            None => self.take_accepted(event, is_switched(&reply.what)),
        }
        reply
    }

    /// The answer to an accepted event that is no scan. The reply to a call names the level before it is taken: a call never
    /// switches its task.
    #[inline(always)]
    pub(super) fn answer_accepted(&self, alloc: Global, event: Event) -> Result<Reply, AllocError>
        requires room { self.now.number < 1000000 }
        requires accepted { refusal_of M.rules (state_in self.now) event ≡ None }
        requires scan { is_scan event ≡ false }
        ensures memory { IsErr result → IsTrue (may_allocate event (answer M.rules (state_in self.now) event).what) }
        ensures answer { IfOk result (λ reply. reply ≡ answer M.rules (state_in self.now) event) }
    {
        match event {
            Event::Call(task, func) => Ok(self.answer_call(task, func)),
            Event::Ret(task) => Ok(self.answer_done(event, task)),
            Event::Sleep(task) => Ok(self.answer_done(event, task)),
            Event::Wake(task) => Ok(self.answer_done(event, task)),
            Event::Enter(task) => Ok(self.answer_done(event, task)),
            Event::Exit(task) => self.answer_own_check(alloc, CheckKind::KernelExit, task),
            Event::Idle(task) => self.answer_own_check(alloc, CheckKind::IdlePoint, task),
            Event::Resched(task) => self.answer_own_check(alloc, CheckKind::Resched, task),
            Event::Fork(parent, _, _) => Ok(self.answer_done(event, parent)),
            Event::Die(task) => Ok(self.answer_die(task)),
            Event::Enable | Event::Disable | Event::Reverse => Ok(self.answer_control(event)),
            Event::Walk | Event::Stop => unreachable!(),
        }
    }

    /// It takes a number too: else the numbers of a run's events would depend on its replies.
    #[inline(always)]
    fn take_refused(&mut self, event: Event, why: Refusal)
        requires room { self.old.number < 1000000 }
        requires refused { refusal_of M.rules (state_in self.old) event ≡ Some why }
        ensures state { state_in self.new ≡ next M.rules (state_in self.old) event }
        ensures blames { AreBlamesAfter M.rules self.old event [] self.new }
        ensures last_scan { IsLastScanAfter M.rules self.old event self.new }
    {
        self.events += 1;
    }

    /// What was weighed is handed in, so that nothing here can fail once the engine has begun to change.
    #[inline(always)]
    fn take_accepted(&mut self, event: Event, switching: bool)
        requires room { self.old.number < 1000000 }
        requires accepted { refusal_of M.rules (state_in self.old) event ≡ None }
        requires scan { is_scan event ≡ false }
        requires switching { switching ≡ is_switched (answer M.rules (state_in self.old) event).what }
        ensures state { state_in self.new ≡ next M.rules (state_in self.old) event }
        ensures blames { AreBlamesAfter M.rules self.old event [] self.new }
        ensures last_scan { IsLastScanAfter M.rules self.old event self.new }
    {
        // For the proof alone, which knows what every value keeps once a field is read.
        let _ = &self.tasks;
        match event {
            Event::Call(task, func) => self.take_call(task, func),
            Event::Ret(task) => self.take_ret(task),
            Event::Sleep(task) => self.take_move(event, task, Mode::Asleep),
            Event::Wake(task) => self.take_move(event, task, Mode::Kernel),
            Event::Enter(task) => self.take_move(event, task, Mode::Kernel),
            Event::Exit(task) => self.take_own_check(CheckKind::KernelExit, task, switching),
            Event::Idle(task) => self.take_own_check(CheckKind::IdlePoint, task, switching),
            Event::Resched(task) => self.take_own_check(CheckKind::Resched, task, switching),
            Event::Fork(parent, child, how) => self.take_fork(parent, child, how),
            Event::Die(task) => self.take_die(task),
            Event::Enable | Event::Disable | Event::Reverse => self.take_control(event),
            Event::Walk | Event::Stop => unreachable!(),
        }
    }
}

/// The answer to an event that was accepted and switched no group.
#[inline(always)]
pub(super) fn done() -> Reply
    ensures { result ≡ record { what = What.Done; completed = false } }
{
    Reply {
        what: What::Done,
        completed: false,
    }
}

/// The answer to a refused event.
#[inline(always)]
pub(super) fn refused(why: Refusal) -> Reply
    ensures { result ≡ record { what = What.Refused why; completed = false } }
{
    Reply {
        what: What::Refused(why),
        completed: false,
    }
}

/// Whether the event switched groups.
pub(super) fn is_switched(what: &What) -> bool
    ensures { result ≡ is_switched what.now }
{
    matches!(what, What::Switched(_))
}

/// Why the event was refused; None where it was accepted.
fn refusal_in(what: &What) -> Option<Refusal>
    ensures { result ≡ refusal_in what.now }
{
    match what {
        What::Refused(why) => Some(*why),
        _ => None,
    }
}
