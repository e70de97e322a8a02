//! An event of a seat between its weighing and its place in the journal: where a board stands beside the log, it is
//! published there, when nothing can fail any more.
ghost use Rattle.std.specs.Prelude.{◌≡◌, ◌≢◌, ◌≤◌, ◌<◌, ◌↔◌, Some, IfOk, IfErr, OnOk, length, vec_len, vec_capacity};
ghost use Rattle.lp_log.specs.declared.seat.TurnedBy.TheVariants.{NotYours, JournalFull as Full};
ghost use Rattle.lp_log.specs.Journals.{IsReplayed, next_entry, reply_to, and_entry};
ghost use Rattle.lp_log.specs.Logs.{AreSame, IsReady};
ghost use Rattle.lp_log.specs.Seats.{owner, and_sent, child_seat};

use super::sent::{child_seat, is_own};
use super::{Log, Ready};
use crate::Entry;
use crate::seat::{Seat, SeatAnswer, Turned, TurnedBy};
use lp_model::Consistency;
use lp_stack::TaskId;
use lp_transition::{Event, Reply, Step};
use std::alloc::Global;
use std::marker::Model;

/// An event that is sent from a seat: weighed, with memory for its entry in the journal and at the seat. Nothing has
/// happened yet.
///
/// Contracts see the seat and the event as it was weighed.
#[derive(Drop)]
pub struct Sending {
    task: TaskId,
    entries: Vec<Entry>,
    ready: Ready,
    answer: Reply,
}

impl Model for Sending {
    ghost use Rattle.std.specs.Prelude.{◌≡◌, ◌<◌, vec_len, vec_capacity};
    ghost use Rattle.lp_log.specs.Logs.{Outgoing};

    ghost Value = { Outgoing };

    ghost view = { λ s. record { seat = record { task = s.task.0; entries = s.entries.items }; step = s.ready } };

    ghost invariant = { λ s. (s.answer ≡ s.ready.reply) × (vec_len s.entries < vec_capacity s.entries) };
}

impl Sending {
    /// The event as it was weighed.
    pub fn step(&self) -> &Step
        ensures { result.now ≡ self.now.step }
    {
        self.ready.step()
    }

    /// Gives the event up, and hands the seat back.
    pub fn turn_back(self, cause: TurnedBy) -> Turned<Seat>
        ensures part { result.part ≡ self.seat }
        ensures cause { result.cause ≡ cause }
    {
        let Self {
            task,
            entries,
            ready: _,
            answer: _,
        } = self;
        Turned {
            part: Seat { task, entries },
            cause,
        }
    }
}

impl<M: Consistency> Log<M> {
    /// Makes an event ready that is sent from a seat: after it `send` can't fail, as long as nothing else was sent.
    ///
    /// Turned back for an event that isn't the task's, else where no event is left, else where an allocation failed.
    pub fn prepare(
        &mut self,
        alloc: Global,
        seat: Seat,
        event: Event,
    ) -> Result<Sending, Turned<Seat>>
        ensures yours { OnOk result (owner event ≡ Some seat.task) }
        ensures ready { IfOk result (λ sending. IsReady M.rules self.new sending.step) }
        ensures event { IfOk result (λ sending. sending.step.event ≡ event) }
        ensures seat { IfOk result (λ sending. sending.seat ≡ seat) }
        ensures same { AreSame self.old self.new }
        ensures replayed { IsReplayed M.rules self.old.journal }
        ensures left { OnOk result (length self.old.journal.entries < 1000000) }
        ensures turned { IfErr result (λ turned. turned.part ≡ seat) }
        ensures not_yours { IfErr result (λ turned. (turned.cause ≡ NotYours) ↔ (owner event ≢ Some seat.task)) }
        ensures full { IfErr result (λ turned. (turned.cause ≡ Full) ↔ ((owner event ≡ Some seat.task) × (1000000 ≤ length self.old.journal.entries))) }
    {
        // For the proof alone, which knows what every value keeps once a field is read.
        let _ = &self.core;
        let Seat { task, mut entries } = seat;
        match self.prepare_from(alloc, task, &mut entries, event) {
            Ok((ready, answer)) => Ok(Sending {
                task,
                entries,
                ready,
                answer,
            }),
            Err(cause) => Err(Turned {
                part: Seat { task, entries },
                cause,
            }),
        }
    }

    /// Makes an event ready that is sent by a task whose entries are these.
    fn prepare_from(
        &mut self,
        alloc: Global,
        task: TaskId,
        sent: &mut Vec<Entry>,
        event: Event,
    ) -> Result<(Ready, Reply), TurnedBy>
        ensures yours { OnOk result (owner event ≡ Some task.0) }
        ensures ready { IfOk result (λ both. IsReady M.rules self.new both.0) }
        ensures event { IfOk result (λ both. both.0.event ≡ event) }
        ensures answer { IfOk result (λ both. both.1 ≡ both.0.reply) }
        ensures room { OnOk result (vec_len sent.new < vec_capacity sent.new) }
        ensures same { (sent.new.items ≡ sent.old.items) × AreSame self.old self.new }
        ensures left { OnOk result (length self.old.journal.entries < 1000000) }
        ensures not_yours { IfErr result (λ cause. (cause ≡ NotYours) ↔ (owner event ≢ Some task.0)) }
        ensures full { IfErr result (λ cause. (cause ≡ Full) ↔ ((owner event ≡ Some task.0) × (1000000 ≤ length self.old.journal.entries))) }
    {
        if !is_own(event, task) {
            return Err(TurnedBy::NotYours);
        }
        match self.weigh(alloc, event) {
            Ok(step) => self.ready_with(alloc, step, sent),
            Err(halt) => Err(TurnedBy::from(halt)),
        }
    }

    /// Takes an event that was made ready, with the entry in the journal and at the seat, and the seat of the child where a
    /// fork was accepted. Never allocates.
    pub fn send(&mut self, alloc: Global, sending: Sending) -> SeatAnswer
        requires { IsReady M.rules self.old sending.step }
        ensures reply { result.reply ≡ reply_to M.rules self.old.journal sending.step.event }
        ensures journal { self.new.journal ≡ and_entry self.old.journal sending.step.event result.reply }
        ensures seat { result.seat ≡ and_sent sending.seat (next_entry self.old.journal.entries sending.step.event result.reply) }
        ensures child { result.child ≡ child_seat sending.step.event result.reply.what }
    {
        let Sending {
            task,
            mut entries,
            ready,
            answer,
        } = sending;
        let event = ready.step().event();
        let reply = self.commit_into(ready, answer, &mut entries);
        let child = child_seat(alloc, event, &reply.what);
        SeatAnswer {
            seat: Seat { task, entries },
            reply,
            child,
        }
    }
}
