//! An event is made ready, which allocates all that it needs, and then taken, which never allocates.
ghost use Rattle.std.specs.Prelude.{◌≡◌, ◌≤◌, ◌<◌, ◌↔◌, true, Err, IfOk, IfErr, OnErr, OnOk, length, vec_len, vec_capacity};
ghost use Rattle.lp_transition.specs.Scan.{is_scan_kind, scan_event, verdicts_among, verdicts_of};
ghost use Rattle.lp_transition.specs.Blames.{is_open};
ghost use Rattle.lp_machine.specs.Table.{state_in};
ghost use Rattle.lp_transition.specs.Weigh.{IsWeighed};
ghost use Rattle.lp_transition.specs.declared.engine.step.Halt.TheVariants.{JournalFull};
ghost use Rattle.lp_log.specs.declared.seat.TurnedBy.TheVariants.{NoMemory};
ghost use Rattle.lp_log.specs.Journals.{reply_to, and_entry};
ghost use Rattle.lp_log.specs.Logs.{IsReady, AreSame};

use super::Log;
use crate::Entry;
use crate::seat::TurnedBy;
use lp_model::{CheckKind, Consistency, Verdict};
use lp_transition::{Event, Halt, Reply, Step};
use std::alloc::{AllocError, Global};
use std::marker::Model;

/// An event that was weighed, with the answer that its entry will have. Nothing has happened yet.
///
/// Contracts see the event as it was weighed.
#[derive(Drop)]
pub struct Ready {
    step: Step,
    answer: Reply,
}

impl Model for Ready {
    ghost use Rattle.std.specs.Prelude.{◌≡◌};
    ghost use Rattle.lp_transition.specs.Weigh.{Weighed};

    ghost Value = { Weighed };

    ghost view = { λ r. r.step };

    ghost invariant = { λ r. r.answer ≡ r.step.reply };
}

impl Ready {
    /// The event as it was weighed.
    pub fn step(&self) -> &Step
        ensures { result.now ≡ self.now }
    {
        &self.step
    }
}

impl<M: Consistency> Log<M> {
    /// An event, weighed on the engine; a walk or a stop after a look at the groups alone that a scan
    /// of its kind may judge otherwise than the last one. NoMemory where an allocation failed, JournalFull where no event is
    /// left.
    pub fn weigh(&self, alloc: Global, event: Event) -> Result<Step, Halt>
        ensures full { (result ≡ Err JournalFull) ↔ (1000000 ≤ length self.now.journal.entries) }
        ensures weighed { IfOk result (λ step. IsWeighed M.rules self.now.core step) }
        ensures event { IfOk result (λ step. step.event ≡ event) }
    {
        self.core.weigh_changed(alloc, event)
    }

    /// A walk or a stop, weighed by what its checks found of the waiting tasks; errors as `weigh` has them.
    pub fn weigh_scan(
        &self,
        alloc: Global,
        kind: CheckKind,
        verdicts: &[Verdict],
    ) -> Result<Step, Halt>
        requires scan { is_scan_kind kind ≡ true }
        requires found { verdicts.now ≡ verdicts_of M.rules kind (state_in self.now.core) }
        ensures full { (result ≡ Err JournalFull) ↔ (1000000 ≤ length self.now.journal.entries) }
        ensures weighed { IfOk result (λ step. IsWeighed M.rules self.now.core step) }
        ensures event { IfOk result (λ step. step.event ≡ scan_event kind) }
    {
        self.core.weigh_scan(alloc, kind, verdicts)
    }

    /// A walk or a stop, weighed by what its checks found of the waiting tasks whose groups have no standing blame; errors
    /// as `weigh` has them.
    pub fn weigh_open(
        &self,
        alloc: Global,
        kind: CheckKind,
        verdicts: &[Verdict],
    ) -> Result<Step, Halt>
        requires scan { is_scan_kind kind ≡ true }
        requires found { verdicts.now ≡ verdicts_among M.rules kind (state_in self.now.core) (is_open self.now.core) }
        ensures full { (result ≡ Err JournalFull) ↔ (1000000 ≤ length self.now.journal.entries) }
        ensures weighed { IfOk result (λ step. IsWeighed M.rules self.now.core step) }
        ensures event { IfOk result (λ step. step.event ≡ scan_event kind) }
    {
        self.core.weigh_open(alloc, kind, verdicts)
    }

    /// Allocates all that the entry of an event needs: what fails here, for memory alone, has changed nothing, and `commit`
    /// can't fail.
    pub fn ready(&mut self, alloc: Global, step: Step) -> Result<Ready, AllocError>
        ensures step { IfOk result (λ ready. ready ≡ step) }
        ensures room { OnOk result (0 < self.new.room) }
        ensures same { AreSame self.old self.new }
    {
        match self.reserved(alloc, step.reply()) {
            Ok(answer) => Ok(Ready { step, answer }),
            Err(error) => {
                drop(step);
                Err(error)
            }
        }
    }

    /// Memory for one entry more, and the answer that it will have.
    fn reserved(&mut self, alloc: Global, reply: &Reply) -> Result<Reply, AllocError>
        ensures answer { IfOk result (λ answer. answer ≡ reply.now) }
        ensures room { OnOk result (0 < self.new.room) }
        ensures same { AreSame self.old self.new }
    {
        self.entries.reserve(1)?;
        reply.copy(alloc)
    }

    /// Allocates all that an event needs whose entry is added to a list of the sender's too; beside it the answer for that
    /// list.
    pub(super) fn ready_with(
        &mut self,
        alloc: Global,
        step: Step,
        sent: &mut Vec<Entry>,
    ) -> Result<(Ready, Reply), TurnedBy>
        requires { IsWeighed M.rules self.old.core step }
        ensures ready { IfOk result (λ both. IsReady M.rules self.new both.0) }
        ensures step { IfOk result (λ both. both.0 ≡ step) }
        ensures answer { IfOk result (λ both. both.1 ≡ step.reply) }
        ensures room { OnOk result (vec_len sent.new < vec_capacity sent.new) }
        ensures same { (sent.new.items ≡ sent.old.items) × AreSame self.old self.new }
        ensures memory { IfErr result (λ cause. cause ≡ NoMemory) }
    {
        match self.reserved_with(alloc, step.reply(), sent) {
            Ok((answer, other)) => Ok((Ready { step, answer }, other)),
            Err(_) => {
                drop(step);
                Err(TurnedBy::NoMemory)
            }
        }
    }

    /// Memory for one entry more here and in a list of the sender's, and the answer that each of the two will have.
    fn reserved_with(
        &mut self,
        alloc: Global,
        reply: &Reply,
        sent: &mut Vec<Entry>,
    ) -> Result<(Reply, Reply), AllocError>
        ensures answers { IfOk result (λ both. (both.0 ≡ reply.now) × (both.1 ≡ reply.now)) }
        ensures room { OnOk result ((0 < self.new.room) × (vec_len sent.new < vec_capacity sent.new)) }
        ensures same { (sent.new.items ≡ sent.old.items) × AreSame self.old self.new }
    {
        self.room_with(sent)?;
        let answer = reply.copy(alloc)?;
        let other = reply.copy(alloc)?;
        Ok((answer, other))
    }

    /// Memory for one entry more here and in a list of the sender's.
    pub(super) fn room_with(&mut self, sent: &mut Vec<Entry>) -> Result<(), AllocError>
        ensures room { OnOk result ((0 < self.new.room) × (vec_len sent.new < vec_capacity sent.new)) }
        ensures same { (sent.new.items ≡ sent.old.items) × AreSame self.old self.new }
    {
        self.entries.reserve(1)?;
        sent.reserve(1)?;
        Ok(())
    }

    /// Takes an event that was made ready, and adds it to the journal with the answer. Never allocates.
    pub fn commit(&mut self, ready: Ready) -> Reply
        requires { IsReady M.rules self.old ready }
        ensures reply { result ≡ ready.reply }
        ensures defined { result ≡ reply_to M.rules self.old.journal ready.event }
        ensures journal { self.new.journal ≡ and_entry self.old.journal ready.event result }
    {
        let Ready { step, answer } = ready;
        let number = self.entries.len() as u32 + 1;
        let entry = Entry::new(number, step.event(), answer);
        self.entries.push_reserved(entry);
        self.core.take(step)
    }
}
