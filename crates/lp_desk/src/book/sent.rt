//! Events that are sent to a book from seats and from the control.
ghost use Rattle.std.specs.Prelude.{◌≡◌, ◌≢◌, ◌≤◌, ◌<◌, ◌↔◌, ◌∷◌, ◌++◌, [], None, Some, IfErr, IfOk, IfSome, OnErr, OnOk, length};
ghost use Rattle.lp_definitions.specs.declared.event.Event.TheVariants.{Walk};
ghost use Rattle.lp_log.specs.declared.seat.TurnedBy.TheVariants.{NotYours, JournalFull as Full};
ghost use mathlib.Core.List.{IsPrefix};
ghost use Rattle.lp_log.specs.Journals.{and_entry, events_in, next_entry};
ghost use Rattle.lp_log.specs.Logs.{AreSame};
ghost use Rattle.lp_log.specs.Seats.{and_sent, child_seat, owner};
ghost use Rattle.lp_desk.specs.Books.{IsSent};

use super::{Book, publish};
use lp_board::{DeskName, Told};
use lp_log::{Control, Seat, Turned, TurnedBy};
use lp_model::Consistency;
use lp_scan::{Judged, ScanGate};
use lp_transition::{Event, Reply};
use std::alloc::Global;
use std::sync::Wait;
use std::thread::Threads;

/// The answer to an event that was sent from a seat.
#[derive(Drop)]
pub struct Submitted<N: DeskName> {
    /// The seat, with the entry.
    pub seat: Seat,
    /// The answer.
    pub reply: Reply,
    /// All events that are published, the last of which is this.
    pub told: Told<N>,
    /// The seat of the child, where a fork was accepted.
    pub child: Option<Seat>,
}

/// The answer to an event that was sent from the control.
#[derive(Drop)]
pub struct Commanded<N: DeskName> {
    /// The control, with the entry.
    pub control: Control,
    /// The answer.
    pub reply: Reply,
    /// All events that are published, the last of which is this.
    pub told: Told<N>,
}

impl<M: Consistency, N: DeskName> Book<M, N> {
    /// Takes an event that is sent from a seat, and publishes it. The seat comes back with the entry, and with the seat of
    /// the child where a fork was accepted. Waits for readers that are inside a read.
    ///
    /// Turned back, with the engine, the journal and the board as they were, for an event that isn't the task's, else
    /// where no event is left, else where an allocation failed.
    pub fn submit<R: Wait>(
        &mut self,
        rt: &R,
        alloc: Global,
        seat: Seat,
        event: Event,
    ) -> Result<Submitted<N>, Turned<Seat>>
        ensures yours { OnOk result (owner event ≡ Some seat.task) }
        ensures sent { IfOk result (λ done. IsSent N.desk M.rules self.old.journal event done.reply done.told) }
        ensures journal { IfOk result (λ done. self.new.journal ≡ and_entry self.old.journal event done.reply) }
        ensures seat { IfOk result (λ done. done.seat ≡ and_sent seat (next_entry self.old.journal.entries event done.reply)) }
        ensures child { IfOk result (λ done. done.child ≡ child_seat event done.reply.what) }
        ensures left { OnOk result (length self.old.journal.entries < 1000000) }
        ensures turned { IfErr result (λ turned. turned.part ≡ seat) }
        ensures unchanged { OnErr result (AreSame self.old self.new) }
        ensures not_yours { IfErr result (λ turned. (turned.cause ≡ NotYours) ↔ (owner event ≢ Some seat.task)) }
        ensures full { IfErr result (λ turned. (turned.cause ≡ Full) ↔ ((owner event ≡ Some seat.task) × (1000000 ≤ length self.old.journal.entries))) }
    {
        let sending = self.log.prepare(alloc, seat, event)?;
        if publish(rt, alloc, &self.log, &mut self.board, sending.step()).is_err() {
            return Err(sending.turn_back(TurnedBy::NoMemory));
        }
        let lp_log::SeatAnswer { seat, reply, child } = self.log.send(alloc, sending);
        Ok(Submitted {
            seat,
            reply,
            told: self.board.tell(),
            child,
        })
    }

    /// As `submit`, for who was told of events: this one stands in the journal after all of these.
    ///
    /// There is one branch more in which an event is turned back, as for want of memory, and it is never taken: what was
    /// told was published here; but no contract says so.
    pub fn submit_after<R: Wait>(
        &mut self,
        rt: &R,
        alloc: Global,
        after: &Told<N>,
        seat: Seat,
        event: Event,
    ) -> Result<Submitted<N>, Turned<Seat>>
        ensures after { OnOk result (IsPrefix after.now (events_in self.old.journal.entries)) }
        ensures yours { OnOk result (owner event ≡ Some seat.task) }
        ensures sent { IfOk result (λ done. IsSent N.desk M.rules self.old.journal event done.reply done.told) }
        ensures journal { IfOk result (λ done. self.new.journal ≡ and_entry self.old.journal event done.reply) }
        ensures seat { IfOk result (λ done. done.seat ≡ and_sent seat (next_entry self.old.journal.entries event done.reply)) }
        ensures child { IfOk result (λ done. done.child ≡ child_seat event done.reply.what) }
        ensures left { OnOk result (length self.old.journal.entries < 1000000) }
        ensures turned { IfErr result (λ turned. turned.part ≡ seat) }
        ensures unchanged { OnErr result (AreSame self.old self.new) }
        ensures not_yours { IfErr result (λ turned. (turned.cause ≡ NotYours) ↔ (owner event ≢ Some seat.task)) }
        ensures full { IfErr result (λ turned. (turned.cause ≡ Full) ↔ ((owner event ≡ Some seat.task) × (1000000 ≤ length self.old.journal.entries))) }
    {
        if self.tell().begins_with(after) {
            return self.submit(rt, alloc, seat, event);
        }
        match self.log.prepare(alloc, seat, event) {
            Ok(sending) => Err(sending.turn_back(TurnedBy::NoMemory)),
            Err(turned) => Err(turned),
        }
    }
}

impl<M: Consistency + Sync, N: DeskName> Book<M, N> {
    /// Takes an event that is sent from the control, and publishes it; walks and stops look at the tasks as `Log::command`
    /// says. Waits for the workers and for readers that are inside a read.
    ///
    /// Turned back, with the engine, the journal and the board as they were, for a task's event, else where no event is
    /// left, else where an allocation failed.
    pub fn command<R: Threads + Wait + Sync, G: ScanGate + Sync>(
        &mut self,
        rt: &R,
        alloc: Global,
        workers: usize,
        gate: &G,
        judged: Option<&Judged<M>>,
        control: Control,
        event: Event,
    ) -> Result<Commanded<N>, Turned<Control>>
        requires some { 0 < workers }
        requires few { workers ≤ 64 }
        requires walk { IfSome judged (λ _. event ≡ Walk) }
        ensures yours { OnOk result (owner event ≡ None) }
        ensures sent { IfOk result (λ done. IsSent N.desk M.rules self.old.journal event done.reply done.told) }
        ensures journal { IfOk result (λ done. self.new.journal ≡ and_entry self.old.journal event done.reply) }
        ensures control { IfOk result (λ done. done.control ≡ control ++ next_entry self.old.journal.entries event done.reply ∷ []) }
        ensures left { OnOk result (length self.old.journal.entries < 1000000) }
        ensures turned { IfErr result (λ turned. turned.part ≡ control) }
        ensures unchanged { OnErr result (AreSame self.old self.new) }
        ensures not_yours { IfErr result (λ turned. (turned.cause ≡ NotYours) ↔ (owner event ≢ None)) }
        ensures full { IfErr result (λ turned. (turned.cause ≡ Full) ↔ ((owner event ≡ None) × (1000000 ≤ length self.old.journal.entries))) }
    {
        let log = &mut self.log;
        let commanding = log.prepare_command(rt, alloc, workers, gate, judged, control, event)?;
        if publish(rt, alloc, &self.log, &mut self.board, commanding.step()).is_err() {
            return Err(commanding.turn_back(TurnedBy::NoMemory));
        }
        let lp_log::ControlAnswer { control, reply } = self.log.send_command(commanding);
        Ok(Commanded {
            control,
            reply,
            told: self.board.tell(),
        })
    }
    /// As `command`, for who was told of events: this one stands in the journal after all of these.
    ///
    /// There is one branch more in which an event is turned back, as in `submit_after`, and it is never taken.
    pub fn command_after<R: Threads + Wait + Sync, G: ScanGate + Sync>(
        &mut self,
        rt: &R,
        alloc: Global,
        after: &Told<N>,
        workers: usize,
        gate: &G,
        judged: Option<&Judged<M>>,
        control: Control,
        event: Event,
    ) -> Result<Commanded<N>, Turned<Control>>
        requires some { 0 < workers }
        requires few { workers ≤ 64 }
        requires walk { IfSome judged (λ _. event ≡ Walk) }
        ensures after { OnOk result (IsPrefix after.now (events_in self.old.journal.entries)) }
        ensures yours { OnOk result (owner event ≡ None) }
        ensures sent { IfOk result (λ done. IsSent N.desk M.rules self.old.journal event done.reply done.told) }
        ensures journal { IfOk result (λ done. self.new.journal ≡ and_entry self.old.journal event done.reply) }
        ensures control { IfOk result (λ done. done.control ≡ control ++ next_entry self.old.journal.entries event done.reply ∷ []) }
        ensures left { OnOk result (length self.old.journal.entries < 1000000) }
        ensures turned { IfErr result (λ turned. turned.part ≡ control) }
        ensures unchanged { OnErr result (AreSame self.old self.new) }
        ensures not_yours { IfErr result (λ turned. (turned.cause ≡ NotYours) ↔ (owner event ≢ None)) }
        ensures full { IfErr result (λ turned. (turned.cause ≡ Full) ↔ ((owner event ≡ None) × (1000000 ≤ length self.old.journal.entries))) }
    {
        if self.tell().begins_with(after) {
            return self.command(rt, alloc, workers, gate, judged, control, event);
        }
        let log = &mut self.log;
        match log.prepare_command(rt, alloc, workers, gate, judged, control, event) {
            Ok(commanding) => Err(commanding.turn_back(TurnedBy::NoMemory)),
            Err(turned) => Err(turned),
        }
    }
}
