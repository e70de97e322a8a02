//! One lock round an owned book.
ghost use Rattle.std.specs.Prelude.{◌≡◌, ◌≢◌, ◌⊎◌, ◌↔◌, ◌<◌, ◌≤◌, IfErr, IfOk, IfSome, None, OnOk, Some, length};
ghost use Rattle.lp_definitions.specs.declared.event.Event.TheVariants.{Walk};
ghost use Rattle.lp_log.specs.declared.seat.TurnedBy.TheVariants.{NotYours, JournalFull as Full, NoMemory};
ghost use Rattle.lp_log.specs.Audits.{IsClosed, given_out};
ghost use Rattle.lp_log.specs.Journals.{IsReplayed, Written, events_in};
ghost use Rattle.lp_log.specs.Seats.{child_seat, owner};
ghost use Rattle.lp_desk.specs.Books.{IsOf};
ghost use Rattle.lp_owned.specs.Owned.{AreAllIn, AreParts, IsCommandedAs, IsSentAs};

use crate::book::{OwnedBook, OwnedCommanded, OwnedSubmitted};
use crate::closing::SeatMissing;
use crate::held::Held;
use crate::seat::{OwnedControl, OwnedSeat};
use crate::turned::TurnedBack;
use lp_board::{DeskName, Told};
use lp_desk::Closed;
use lp_log::TurnedBy;
use lp_model::Consistency;
use lp_parts::Place;
use lp_scan::{Batch, Judged, ScanGate, judge};
use lp_transition::Event;
use std::alloc::Global;
use std::sync::{Mutex, Wait};
use std::thread::Threads;

/// An owned book under a lock, with the number of workers of its walks and stops and the gate that they pass.
///
/// As `lp_desk::Desk`, but the seats and the control own their parts of the journal. So what a call says of the journal it
/// says of the one that is there, whoever else sends meanwhile: nobody but a seat's owner can add to its task's part.
pub struct OwnedDesk<M: Consistency, N: DeskName + Place, G: ScanGate + Drop, R: Wait + Drop> {
    held: Mutex<Held<M, N, R>>,
    model: M,
    workers: usize,
    gate: G,
    ghost some: { 0 < workers },
    ghost few: { workers ≤ 64 },
}

/// By hand, so that the proof of who owns one lets go of it in one step, not field by field.
impl<M: Consistency, N: DeskName + Place, G: ScanGate + Drop, R: Wait + Drop> Drop
    for OwnedDesk<M, N, G, R> {
    fn drop(self) {
        let OwnedDesk {
            held: _,
            model: _,
            workers: _,
            gate: _,
        } = self;
    }
}

impl<M: Consistency, N: DeskName + Place, G: ScanGate + Drop, R: Wait + Drop> OwnedDesk<
    M,
    N,
    G,
    R,
> {
    /// A desk round a book, which is given up by this runtime.
    pub(crate) fn new(
        rt: R,
        book: OwnedBook<M, N>,
        workers: usize,
        gate: G,
    ) -> OwnedDesk<M, N, G, R>
        requires some { 0 < workers }
        requires few { workers ≤ 64 }
    {
        let model = book.model();
        OwnedDesk {
            held: Mutex::new(Held { book, rt }),
            model,
            workers,
            gate,
        }
    }

    /// Takes an event that is sent from a seat, in any thread, and publishes it. Waits for the lock, and for readers of the
    /// board that are inside a read.
    ///
    /// The seat's list is its task's part of the journal, before and after, whoever else sent meanwhile. Turned back, with
    /// nothing having happened, for an event that isn't the task's, else where no event is left, else where an allocation
    /// failed.
    pub fn submit<T: Wait>(
        &self,
        rt: &T,
        alloc: Global,
        seat: OwnedSeat<N>,
        event: Event,
    ) -> Result<OwnedSubmitted<N>, TurnedBack<OwnedSeat<N>, N>>
        ensures yours { OnOk result (owner event ≡ Some seat.task) }
        ensures sent { IfOk result (λ done. (before : Written) × IsSentAs N.desk M.rules before event done.reply done.told seat done.seat) }
        ensures child { IfOk result (λ done. done.child ≡ child_seat event done.reply.what) }
        ensures turned { IfErr result (λ turned. turned.part ≡ seat) }
        ensures not_yours { IfErr result (λ turned. (turned.cause ≡ NotYours) ↔ (owner event ≢ Some seat.task)) }
        ensures full { IfErr result (λ turned. (turned.cause ≡ Full) ↔ ((owner event ≡ Some seat.task) × (1000000 ≤ length turned.told))) }
    {
        let mut held = self.held.lock(rt);
        match held.book.submit(rt, alloc, seat, event) {
            Ok(done) => Ok(done),
            Err(turned) => Err(held.book.turned_back(turned)),
        }
    }

    /// Gives the desk and its board up, with all parts of the journal. Waits for readers that are inside a read. Never
    /// allocates.
    ///
    /// No difference can be found, and no stranger: see `OwnedBook::close`. Nor is a seat missing where the seats of the
    /// tasks that the desk began with are handed in, and with each seat those of the children that its entries brought.
    pub fn close<T: Wait>(
        self,
        rt: &T,
        seats: Vec<OwnedSeat<N>>,
        control: OwnedControl<N>,
    ) -> Result<Closed<N>, SeatMissing<N>>
        ensures named { IfOk result (λ closed. IsOf N.desk M.rules closed.journal) }
        ensures replayed { IfOk result (λ closed. IsReplayed M.rules closed.journal) }
        ensures told { IfOk result (λ closed. closed.told ≡ events_in closed.journal.entries) }
        ensures closed { IfOk result (λ closed. IsClosed closed.journal seats.items control) }
        ensures kept { IfErr result (λ missing. IsOf N.desk M.rules missing.journal × IsReplayed M.rules missing.journal) }
        ensures untold { IfErr result (λ missing. missing.told ≡ events_in missing.journal.entries) }
        ensures parts { IfErr result (λ missing. AreParts missing.journal seats.items control) }
        ensures counted { IfErr result (λ missing. (missing.have ≡ length seats.items) × (missing.want ≡ given_out missing.journal) × (missing.have ≢ missing.want)) }
        ensures all_in { IfErr result (λ missing. AreAllIn N.desk.boots seats.items → ⊥) }
    {
        self.into_book().close(rt, seats, control)
    }

    /// Gives the lock up. Nobody waits for it: whoever has the desk by value is alone with it.
    fn into_book(self) -> OwnedBook<M, N> {
        let OwnedDesk {
            held,
            model: _,
            workers: _,
            gate: _,
        } = self;
        held.into_inner().into_book()
    }
}

impl<
    M: Consistency + Sync,
    N: DeskName + Place,
    G: ScanGate + Sync + Drop,
    R: Wait + Drop,
> OwnedDesk<M, N, G, R> {
    /// Takes an event that is sent from the control, in any thread. A walk is judged over copies of the waiting tasks
    /// whose groups have no standing blame, by the desk's workers, while the tasks run on: the lock is taken once for the
    /// copies and once for the walk. A stop looks at the tasks under the lock. What was taken is published. Waits for the
    /// lock, for the workers, and for readers of the board that are inside a read.
    ///
    /// The control's list is the journal's part of scans and control events, before and after. Turned back, with nothing
    /// having happened, for a task's event, else where no event is left, else where an allocation failed.
    pub fn command<T: Threads + Wait + Sync>(
        &self,
        rt: &T,
        alloc: Global,
        control: OwnedControl<N>,
        event: Event,
    ) -> Result<OwnedCommanded<N>, TurnedBack<OwnedControl<N>, N>>
        ensures yours { OnOk result (owner event ≡ None) }
        ensures sent { IfOk result (λ done. (before : Written) × IsCommandedAs N.desk M.rules before event done.reply done.told control done.control) }
        ensures turned { IfErr result (λ turned. turned.part ≡ control) }
        ensures not_yours { IfErr result (λ turned. (turned.cause ≡ NotYours) ↔ (owner event ≢ None)) }
        ensures full { IfErr result (λ turned. turned.cause ≡ Full → 1000000 ≤ length turned.told) }
    {
        match self.judged(rt, alloc, event) {
            Ok(judged) => self.take(rt, alloc, judged.as_ref(), control, event),
            Err((cause, told)) => Err(TurnedBack {
                part: control,
                cause,
                told,
            }),
        }
    }

    /// What a walk finds of copies of the waiting tasks; None where the event is no walk that looks at tasks. The lock is
    /// free while the workers judge: held, it would stop every task for as long as the walk takes.
    fn judged<T: Threads + Wait + Sync>(
        &self,
        rt: &T,
        alloc: Global,
        event: Event,
    ) -> Result<Option<Judged<M>>, (TurnedBy, Told<N>)>
        ensures walk { IfOk result (λ judged. IfSome judged (λ _. event ≡ Walk)) }
        ensures yours { IfErr result (λ refused. (event ≡ Walk) × (refused.0 ≢ NotYours)) }
        ensures full { IfErr result (λ refused. refused.0 ≡ Full → 1000000 ≤ length refused.1) }
    {
        let Some(batch) = self.copies(rt, alloc, event)? else {
            return Ok(None);
        };
        match judge(rt, alloc, self.workers, &self.gate, self.model, batch) {
            Ok(judged) => Ok(Some(judged)),
            Err(_) => Err((TurnedBy::NoMemory, self.held.lock(rt).book.tell())),
        }
    }

    /// Copies of the tasks that a walk looks at, made under the lock.
    fn copies<T: Wait>(
        &self,
        rt: &T,
        alloc: Global,
        event: Event,
    ) -> Result<Option<Batch>, (TurnedBy, Told<N>)>
        ensures walk { IfOk result (λ batch. IfSome batch (λ _. event ≡ Walk)) }
        ensures yours { IfErr result (λ refused. (event ≡ Walk) × (refused.0 ≢ NotYours)) }
        ensures full { IfErr result (λ refused. refused.0 ≡ Full → 1000000 ≤ length refused.1) }
    {
        let held = self.held.lock(rt);
        match held.book.batch_for(alloc, event) {
            Ok(batch) => Ok(batch),
            Err(cause) => Err((cause, held.book.tell())),
        }
    }

    /// Takes an event under the lock; a walk by what was judged before, if it was.
    fn take<T: Threads + Wait + Sync>(
        &self,
        rt: &T,
        alloc: Global,
        judged: Option<&Judged<M>>,
        control: OwnedControl<N>,
        event: Event,
    ) -> Result<OwnedCommanded<N>, TurnedBack<OwnedControl<N>, N>>
        requires walk { IfSome judged (λ _. event ≡ Walk) }
        ensures yours { OnOk result (owner event ≡ None) }
        ensures sent { IfOk result (λ done. (before : Written) × IsCommandedAs N.desk M.rules before event done.reply done.told control done.control) }
        ensures turned { IfErr result (λ turned. turned.part ≡ control) }
        ensures not_yours { IfErr result (λ turned. (turned.cause ≡ NotYours) ↔ (owner event ≢ None)) }
        ensures full { IfErr result (λ turned. turned.cause ≡ Full → 1000000 ≤ length turned.told) }
    {
        let workers = self.workers;
        let gate = &self.gate;
        let mut lock = self.held.lock(rt);
        match lock
            .book
            .command(rt, alloc, workers, gate, judged, control, event)
        {
            Ok(commanded) => Ok(commanded),
            Err(turned) => Err(lock.book.turned_back(turned)),
        }
    }
}
