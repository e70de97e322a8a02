//! One lock round a book.
ghost use Rattle.std.specs.Prelude.{◌≡◌, ◌≢◌, ◌↔◌, ◌<◌, ◌≤◌, ◌∷◌, ◌++◌, [], IfOk, IfErr, IfSome, OnOk, Some, None};
ghost use Rattle.lp_definitions.specs.declared.event.Event.TheVariants.{Walk};
ghost use Rattle.lp_log.specs.declared.seat.TurnedBy.TheVariants.{NotYours};
ghost use mathlib.Core.List.{IsPrefix};
ghost use Rattle.lp_log.specs.Journals.{Written, events_in, next_entry};
ghost use Rattle.lp_log.specs.Seats.{and_sent, child_seat, owner};
ghost use Rattle.lp_desk.specs.Books.{IsSent, first_journal};

use crate::held::Held;
use crate::{Book, Commanded, Submitted};
use lp_board::{DeskName, Told};
use lp_log::{Control, Seat, Turned, TurnedBy};
use lp_model::Consistency;
use lp_scan::{Judged, ScanGate, judge};
use lp_transition::Event;
use std::alloc::Global;
use std::sync::{Mutex, Wait};
use std::thread::Threads;

/// A book under a lock, with the number of workers of its walks and stops and the gate that they pass.
pub struct Desk<M: Consistency, N: DeskName, G: ScanGate + Drop, R: Wait + Drop> {
    held: Mutex<Held<M, N, R>>,
    model: M,
    workers: usize,
    gate: G,
    ghost some: { 0 < workers },
    ghost few: { workers ≤ 64 },
}

/// By hand, so that the proof of who owns one lets go of it in one step, not field by field.
impl<M: Consistency, N: DeskName, G: ScanGate + Drop, R: Wait + Drop> Drop for Desk<M, N, G, R> {
    fn drop(self) {
        let Desk {
            held: _,
            model: _,
            workers: _,
            gate: _,
        } = self;
    }
}

impl<M: Consistency, N: DeskName, G: ScanGate + Drop, R: Wait + Drop> Desk<M, N, G, R> {
    /// A desk round a book that has taken no event, and is given up by this runtime.
    pub(crate) fn new(rt: R, book: Book<M, N>, workers: usize, gate: G) -> Desk<M, N, G, R>
        requires fresh { book.journal ≡ first_journal N.desk }
        requires some { 0 < workers }
        requires few { workers ≤ 64 }
    {
        let model = book.log().core().model();
        Desk {
            held: Mutex::new(Held { book, rt }),
            model,
            workers,
            gate,
        }
    }

    /// Gives the lock up. Nobody waits for it: whoever has the desk by value is alone with it.
    pub(crate) fn into_book(self) -> Book<M, N> {
        let Desk {
            held,
            model: _,
            workers: _,
            gate: _,
        } = self;
        held.into_inner().into_book()
    }

    /// Takes an event that is sent from a seat, in any thread, and publishes it. Waits for the lock, and for readers of the
    /// board that are inside a read.
    ///
    /// Turned back, with nothing having happened, for an event that isn't the task's, else where no event is left,
    /// else where an allocation failed.
    pub fn submit<T: Wait>(
        &self,
        rt: &T,
        alloc: Global,
        seat: Seat,
        event: Event,
    ) -> Result<Submitted<N>, Turned<Seat>>
        ensures yours { OnOk result (owner event ≡ Some seat.task) }
        ensures sent { IfOk result (λ done. (before : Written) × IsSent N.desk M.rules before event done.reply done.told × (done.seat ≡ and_sent seat (next_entry before.entries event done.reply))) }
        ensures child { IfOk result (λ done. done.child ≡ child_seat event done.reply.what) }
        ensures turned { IfErr result (λ turned. turned.part ≡ seat) }
        ensures not_yours { IfErr result (λ turned. (turned.cause ≡ NotYours) ↔ (owner event ≢ Some seat.task)) }
    {
        self.held.lock(rt).book.submit(rt, alloc, seat, event)
    }

    /// As `submit`, for who was told of events, by this call or another: this one stands in the journal after all of
    /// these. See `Book::submit_after`.
    pub fn submit_after<T: Wait>(
        &self,
        rt: &T,
        alloc: Global,
        after: &Told<N>,
        seat: Seat,
        event: Event,
    ) -> Result<Submitted<N>, Turned<Seat>>
        ensures yours { OnOk result (owner event ≡ Some seat.task) }
        ensures sent { IfOk result (λ done. (before : Written) × IsSent N.desk M.rules before event done.reply done.told × IsPrefix after.now (events_in before.entries) × (done.seat ≡ and_sent seat (next_entry before.entries event done.reply))) }
        ensures child { IfOk result (λ done. done.child ≡ child_seat event done.reply.what) }
        ensures turned { IfErr result (λ turned. turned.part ≡ seat) }
        ensures not_yours { IfErr result (λ turned. (turned.cause ≡ NotYours) ↔ (owner event ≢ Some seat.task)) }
    {
        let mut held = self.held.lock(rt);
        held.book.submit_after(rt, alloc, after, seat, event)
    }
}

impl<M: Consistency + Sync, N: DeskName, G: ScanGate + Sync + Drop, R: Wait + Drop> Desk<
    M,
    N,
    G,
    R,
> {
    /// Takes an event that is sent from the control, in any thread. A walk is judged over copies of the waiting tasks
    /// whose groups have no standing blame, by the desk's workers, while the tasks run on: the lock is taken once for the
    /// copies and once for the walk. A stop looks at the tasks under the lock. What was taken is published. Waits for the
    /// lock, for the workers, and for readers of the board that are inside a read.
    ///
    /// Turned back, with nothing having happened, for a task's event, else where no event is left, else where an
    /// allocation failed.
    pub fn command<T: Threads + Wait + Sync>(
        &self,
        rt: &T,
        alloc: Global,
        control: Control,
        event: Event,
    ) -> Result<Commanded<N>, Turned<Control>>
        ensures yours { OnOk result (owner event ≡ None) }
        ensures sent { IfOk result (λ done. (before : Written) × IsSent N.desk M.rules before event done.reply done.told × (done.control ≡ control ++ next_entry before.entries event done.reply ∷ [])) }
        ensures turned { IfErr result (λ turned. turned.part ≡ control) }
        ensures not_yours { IfErr result (λ turned. (turned.cause ≡ NotYours) ↔ (owner event ≢ None)) }
    {
        match self.judged(rt, alloc, event) {
            Ok(judged) => self.take(rt, alloc, judged.as_ref(), control, event),
            Err(cause) => Err(Turned {
                part: control,
                cause,
            }),
        }
    }

    /// As `command`, for who was told of events, by this call or another: this one stands in the journal after all of
    /// these. See `Book::command_after`.
    pub fn command_after<T: Threads + Wait + Sync>(
        &self,
        rt: &T,
        alloc: Global,
        after: &Told<N>,
        control: Control,
        event: Event,
    ) -> Result<Commanded<N>, Turned<Control>>
        ensures yours { OnOk result (owner event ≡ None) }
        ensures sent { IfOk result (λ done. (before : Written) × IsSent N.desk M.rules before event done.reply done.told × IsPrefix after.now (events_in before.entries) × (done.control ≡ control ++ next_entry before.entries event done.reply ∷ [])) }
        ensures turned { IfErr result (λ turned. turned.part ≡ control) }
        ensures not_yours { IfErr result (λ turned. (turned.cause ≡ NotYours) ↔ (owner event ≢ None)) }
    {
        match self.judged(rt, alloc, event) {
            Ok(judged) => self.take_after(rt, alloc, after, judged.as_ref(), control, event),
            Err(cause) => Err(Turned {
                part: control,
                cause,
            }),
        }
    }

    /// What a walk finds of copies of the waiting tasks; None where the event is no walk that looks at tasks. The lock is
    /// free while the workers judge: held, it would stop every task for as long as the walk takes.
    fn judged<T: Threads + Wait + Sync>(
        &self,
        rt: &T,
        alloc: Global,
        event: Event,
    ) -> Result<Option<Judged<M>>, TurnedBy>
        ensures walk { IfOk result (λ judged. IfSome judged (λ _. event ≡ Walk)) }
        ensures yours { IfErr result (λ cause. (event ≡ Walk) × (cause ≢ NotYours)) }
    {
        let batch = self.held.lock(rt).book.log().batch_for(alloc, event)?;
        let Some(batch) = batch else {
            return Ok(None);
        };
        match judge(rt, alloc, self.workers, &self.gate, self.model, batch) {
            Ok(judged) => Ok(Some(judged)),
            Err(_) => Err(TurnedBy::NoMemory),
        }
    }

    /// Takes an event under the lock; a walk by what was judged before, if it was.
    fn take<T: Threads + Wait + Sync>(
        &self,
        rt: &T,
        alloc: Global,
        judged: Option<&Judged<M>>,
        control: Control,
        event: Event,
    ) -> Result<Commanded<N>, Turned<Control>>
        requires walk { IfSome judged (λ _. event ≡ Walk) }
        ensures yours { OnOk result (owner event ≡ None) }
        ensures sent { IfOk result (λ done. (before : Written) × IsSent N.desk M.rules before event done.reply done.told × (done.control ≡ control ++ next_entry before.entries event done.reply ∷ [])) }
        ensures turned { IfErr result (λ turned. turned.part ≡ control) }
        ensures not_yours { IfErr result (λ turned. (turned.cause ≡ NotYours) ↔ (owner event ≢ None)) }
    {
        let workers = self.workers;
        let gate = &self.gate;
        let mut held = self.held.lock(rt);
        match held
            .book
            .command(rt, alloc, workers, gate, judged, control, event)
        {
            Ok(done) => Ok(done),
            Err(turned) => Err(turned),
        }
    }
    /// The same, after all events that one was told of.
    fn take_after<T: Threads + Wait + Sync>(
        &self,
        rt: &T,
        alloc: Global,
        after: &Told<N>,
        judged: Option<&Judged<M>>,
        control: Control,
        event: Event,
    ) -> Result<Commanded<N>, Turned<Control>>
        requires walk { IfSome judged (λ _. event ≡ Walk) }
        ensures yours { OnOk result (owner event ≡ None) }
        ensures sent { IfOk result (λ done. (before : Written) × IsSent N.desk M.rules before event done.reply done.told × IsPrefix after.now (events_in before.entries) × (done.control ≡ control ++ next_entry before.entries event done.reply ∷ [])) }
        ensures turned { IfErr result (λ turned. turned.part ≡ control) }
        ensures not_yours { IfErr result (λ turned. (turned.cause ≡ NotYours) ↔ (owner event ≢ None)) }
    {
        let workers = self.workers;
        let gate = &self.gate;
        let mut held = self.held.lock(rt);
        match held
            .book
            .command_after(rt, alloc, after, workers, gate, judged, control, event)
        {
            Ok(done) => Ok(done),
            Err(turned) => Err(turned),
        }
    }
}
