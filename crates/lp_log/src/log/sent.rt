//! Events that are sent from seats and from the control.
ghost use Rattle.std.specs.Prelude.{◌≡◌, ◌≢◌, ◌+◌, ◌≤◌, ◌<◌, ◌↔◌, [], ◌∷◌, ◌++◌, true, Some, None, Err, IfOk, IfErr, IfSome, IfNone, IsTrue, OnErr, OnOk, length, vec_len, vec_capacity};
ghost use Rattle.lp_log.specs.declared.seat.TurnedBy.TheVariants.{NotYours, JournalFull as Full};
ghost use Rattle.lp_log.specs.Journals.{IsReplayed, next_entry, reply_to, and_entry};
ghost use Rattle.lp_log.specs.Logs.{AreSame, IsReady};
ghost use Rattle.lp_log.specs.Seats.{owner, and_sent, child_seat};
ghost use Rattle.lp_log.specs.inside.Quiet.{is_quiet_now};
ghost use Rattle.lp_machine.specs.Table.{state_in};

use super::{Log, Ready};
use crate::Entry;
use crate::seat::{Seat, SeatAnswer, Turned};
use lp_model::Consistency;
use lp_stack::TaskId;
use lp_transition::{Event, Reply, What};
use std::alloc::Global;

impl<M: Consistency> Log<M> {
    /// Takes an event that is sent from a seat. The seat comes back with the entry, and with the seat of the child
    /// where a fork was accepted.
    ///
    /// Turned back, with the engine and the journal as they were, for an event that isn't the task's, else where no
    /// event is left, else where an allocation failed.
    pub fn submit(
        &mut self,
        alloc: Global,
        seat: Seat,
        event: Event,
    ) -> Result<SeatAnswer, Turned<Seat>>
        ensures yours { OnOk result (owner event ≡ Some seat.task) }
        ensures reply { IfOk result (λ done. done.reply ≡ reply_to M.rules self.old.journal event) }
        ensures journal { IfOk result (λ done. self.new.journal ≡ and_entry self.old.journal event done.reply) }
        ensures seat { IfOk result (λ done. done.seat ≡ and_sent seat (next_entry self.old.journal.entries event done.reply)) }
        ensures child { IfOk result (λ done. done.child ≡ child_seat event done.reply.what) }
        ensures replayed { IsReplayed M.rules self.old.journal }
        ensures left { OnOk result (length self.old.journal.entries < 1000000) }
        ensures turned { IfErr result (λ turned. turned.part ≡ seat) }
        ensures unchanged { OnErr result (AreSame self.old self.new) }
        ensures not_yours { IfErr result (λ turned. (turned.cause ≡ NotYours) ↔ (owner event ≢ Some seat.task)) }
        ensures full { IfErr result (λ turned. (turned.cause ≡ Full) ↔ ((owner event ≡ Some seat.task) × (1000000 ≤ length self.old.journal.entries))) }
    {
        if is_own(event, seat.task) && self.is_quiet_now(event) {
            return self.submit_quiet(alloc, seat, event);
        }
        match self.prepare(alloc, seat, event) {
            Ok(sending) => Ok(self.send(alloc, sending)),
            Err(turned) => Err(turned),
        }
    }

    /// Takes an event of the seat's task that switches nobody, without a step between.
    fn submit_quiet(
        &mut self,
        alloc: Global,
        mut seat: Seat,
        event: Event,
    ) -> Result<SeatAnswer, Turned<Seat>>
        requires own { owner event ≡ Some seat.task }
        requires quiet { is_quiet_now (state_in self.old.core) event ≡ true }
        ensures reply { IfOk result (λ done. done.reply ≡ reply_to M.rules self.old.journal event) }
        ensures journal { IfOk result (λ done. self.new.journal ≡ and_entry self.old.journal event done.reply) }
        ensures seat { IfOk result (λ done. done.seat ≡ and_sent seat (next_entry self.old.journal.entries event done.reply)) }
        ensures child { IfOk result (λ done. done.child ≡ child_seat event done.reply.what) }
        ensures replayed { IsReplayed M.rules self.old.journal }
        ensures left { OnOk result (length self.old.journal.entries < 1000000) }
        ensures turned { IfErr result (λ turned. turned.part ≡ seat) }
        ensures unchanged { OnErr result (AreSame self.old self.new) }
        ensures yours { IfErr result (λ turned. turned.cause ≢ NotYours) }
        ensures full { IfErr result (λ turned. (turned.cause ≡ Full) ↔ (1000000 ≤ length self.old.journal.entries)) }
    {
        // For the proof alone, which knows what every value keeps once a field is read.
        let _ = &self.core;
        match self.step_into(alloc, event, &mut seat.entries) {
            Ok(reply) => {
                let child = child_seat(alloc, event, &reply.what);
                Ok(SeatAnswer { seat, reply, child })
            }
            Err(cause) => Err(Turned { part: seat, cause }),
        }
    }

    /// Takes an event that was made ready, and adds its entry to a list of the sender's too. Never allocates.
    pub(super) fn commit_into(
        &mut self,
        ready: Ready,
        answer: Reply,
        sent: &mut Vec<Entry>,
    ) -> Reply
        requires ready { IsReady M.rules self.old ready }
        requires answer { answer ≡ ready.reply }
        requires room { vec_len sent.old < vec_capacity sent.old }
        ensures reply { result ≡ reply_to M.rules self.old.journal ready.event }
        ensures journal { self.new.journal ≡ and_entry self.old.journal ready.event result }
        ensures sent { sent.new.items ≡ sent.old.items ++ next_entry self.old.journal.entries ready.event result ∷ [] }
    {
        let number = self.next_number();
        let event = ready.step().event();
        let reply = self.commit(ready);
        sent.push_reserved(Entry::new(number, event, answer));
        reply
    }

    /// The number of the next event.
    pub(super) fn next_number(&self) -> u32
        requires { self.now.core.number < 1000000 }
        ensures { result ≡ length self.now.journal.entries + 1 }
    {
        self.entries.len() as u32 + 1
    }
}

/// Whether it is an event of the task.
pub(super) fn is_own(event: Event, task: TaskId) -> bool
    ensures { IsTrue result ↔ (owner event ≡ Some task.0) }
{
    match event {
        Event::Call(of, _) | Event::Fork(of, _, _) => of == task,
        Event::Ret(of) | Event::Sleep(of) | Event::Wake(of) | Event::Enter(of) => of == task,
        Event::Exit(of) | Event::Idle(of) | Event::Resched(of) | Event::Die(of) => of == task,
        Event::Walk | Event::Stop | Event::Enable | Event::Disable | Event::Reverse => false,
    }
}

/// The seat of the child, where a fork was accepted.
pub(super) fn child_seat(alloc: Global, event: Event, what: &What) -> Option<Seat>
    ensures { result ≡ child_seat event what.now }
{
    match (event, what) {
        (Event::Fork(_, _, _), What::Refused(_)) => None,
        (Event::Fork(_, child, _), _) => Some(Seat::new(alloc, child)),
        _ => None,
    }
}
