//! An event of the control between its weighing and its place in the journal.
ghost use Rattle.std.specs.Prelude.{◌≡◌, ◌≢◌, ◌≤◌, ◌<◌, ◌↔◌, ◌∷◌, ◌++◌, [], None, IfOk, IfErr, IfSome, OnOk, length, vec_len, vec_capacity};
ghost use Rattle.lp_definitions.specs.declared.event.Event.TheVariants.{Walk};
ghost use Rattle.lp_log.specs.declared.seat.TurnedBy.TheVariants.{NotYours, JournalFull as Full};
ghost use Rattle.lp_log.specs.Journals.{IsReplayed, next_entry, reply_to, and_entry};
ghost use Rattle.lp_log.specs.Logs.{AreSame, IsReady};
ghost use Rattle.lp_log.specs.Seats.{owner};

use super::commanded::is_owned;
use super::{Log, Ready};
use crate::Entry;
use crate::seat::{Control, ControlAnswer, Turned, TurnedBy};
use lp_model::Consistency;
use lp_scan::{Judged, ScanGate};
use lp_transition::{Event, Reply, Step};
use std::alloc::Global;
use std::marker::Model;
use std::thread::Threads;

/// An event that is sent from the control: weighed, with memory for its entry in the journal and at the control. Nothing
/// has happened yet.
///
/// Contracts see the control and the event as it was weighed.
#[derive(Drop)]
pub struct Commanding {
    entries: Vec<Entry>,
    ready: Ready,
    answer: Reply,
}

impl Model for Commanding {
    ghost use Rattle.std.specs.Prelude.{◌≡◌, ◌<◌, vec_len, vec_capacity};
    ghost use Rattle.lp_log.specs.Logs.{OutgoingControl};

    ghost Value = { OutgoingControl };

    ghost view = { λ c. record { control = c.entries.items; step = c.ready } };

    ghost invariant = { λ c. (c.answer ≡ c.ready.reply) × (vec_len c.entries < vec_capacity c.entries) };
}

impl Commanding {
    /// The event as it was weighed.
    pub fn step(&self) -> &Step
        ensures { result.now ≡ self.now.step }
    {
        self.ready.step()
    }

    /// Gives the event up, and hands the control back.
    pub fn turn_back(self, cause: TurnedBy) -> Turned<Control>
        ensures part { result.part ≡ self.control }
        ensures cause { result.cause ≡ cause }
    {
        let Self {
            entries,
            ready: _,
            answer: _,
        } = self;
        Turned {
            part: Control { entries },
            cause,
        }
    }
}

impl<M: Consistency + Sync> Log<M> {
    /// Makes an event ready that is sent from the control; walks and stops look at the tasks as `command` says. After it
    /// `send_command` can't fail, as long as nothing else was sent. Waits for the workers.
    ///
    /// Turned back for a task's event, else where no event is left, else where an allocation failed.
    pub fn prepare_command<R: Threads + Sync, G: ScanGate + Sync>(
        &mut self,
        rt: &R,
        alloc: Global,
        workers: usize,
        gate: &G,
        judged: Option<&Judged<M>>,
        control: Control,
        event: Event,
    ) -> Result<Commanding, Turned<Control>>
        requires some { 0 < workers }
        requires few { workers ≤ 64 }
        requires walk { IfSome judged (λ _. event ≡ Walk) }
        ensures yours { OnOk result (owner event ≡ None) }
        ensures ready { IfOk result (λ commanding. IsReady M.rules self.new commanding.step) }
        ensures event { IfOk result (λ commanding. commanding.step.event ≡ event) }
        ensures control { IfOk result (λ commanding. commanding.control ≡ control) }
        ensures same { AreSame self.old self.new }
        ensures replayed { IsReplayed M.rules self.old.journal }
        ensures left { OnOk result (length self.old.journal.entries < 1000000) }
        ensures turned { IfErr result (λ turned. turned.part ≡ control) }
        ensures not_yours { IfErr result (λ turned. (turned.cause ≡ NotYours) ↔ (owner event ≢ None)) }
        ensures full { IfErr result (λ turned. (turned.cause ≡ Full) ↔ ((owner event ≡ None) × (1000000 ≤ length self.old.journal.entries))) }
    {
        // For the proof alone, which knows what every value keeps once a field is read.
        let _ = &self.core;
        let Control { mut entries } = control;
        match self.prepare_order(rt, alloc, workers, gate, judged, &mut entries, event) {
            Ok((ready, answer)) => Ok(Commanding {
                entries,
                ready,
                answer,
            }),
            Err(cause) => Err(Turned {
                part: Control { entries },
                cause,
            }),
        }
    }

    /// Makes an event ready that is sent by the control whose entries are these.
    fn prepare_order<R: Threads + Sync, G: ScanGate + Sync>(
        &mut self,
        rt: &R,
        alloc: Global,
        workers: usize,
        gate: &G,
        judged: Option<&Judged<M>>,
        sent: &mut Vec<Entry>,
        event: Event,
    ) -> Result<(Ready, Reply), TurnedBy>
        requires some { 0 < workers }
        requires few { workers ≤ 64 }
        requires walk { IfSome judged (λ _. event ≡ Walk) }
        ensures yours { OnOk result (owner event ≡ None) }
        ensures ready { IfOk result (λ both. IsReady M.rules self.new both.0) }
        ensures event { IfOk result (λ both. both.0.event ≡ event) }
        ensures answer { IfOk result (λ both. both.1 ≡ both.0.reply) }
        ensures room { OnOk result (vec_len sent.new < vec_capacity sent.new) }
        ensures same { (sent.new.items ≡ sent.old.items) × AreSame self.old self.new }
        ensures left { OnOk result (length self.old.journal.entries < 1000000) }
        ensures not_yours { IfErr result (λ cause. (cause ≡ NotYours) ↔ (owner event ≢ None)) }
        ensures full { IfErr result (λ cause. (cause ≡ Full) ↔ ((owner event ≡ None) × (1000000 ≤ length self.old.journal.entries))) }
    {
        if is_owned(event) {
            return Err(TurnedBy::NotYours);
        }
        match self.weigh_shared(rt, alloc, workers, gate, judged, event) {
            Ok(step) => self.ready_with(alloc, step, sent),
            Err(halt) => Err(TurnedBy::from(halt)),
        }
    }

    /// Takes an event that was made ready, with the entry in the journal and at the control. Never allocates.
    pub fn send_command(&mut self, commanding: Commanding) -> ControlAnswer
        requires { IsReady M.rules self.old commanding.step }
        ensures reply { result.reply ≡ reply_to M.rules self.old.journal commanding.step.event }
        ensures journal { self.new.journal ≡ and_entry self.old.journal commanding.step.event result.reply }
        ensures control { result.control ≡ commanding.control ++ next_entry self.old.journal.entries commanding.step.event result.reply ∷ [] }
    {
        let Commanding {
            mut entries,
            ready,
            answer,
        } = commanding;
        let reply = self.commit_into(ready, answer, &mut entries);
        ControlAnswer {
            control: Control { entries },
            reply,
        }
    }
}
