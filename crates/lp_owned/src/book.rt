//! A book with the keeper of its journal's parts.
ghost use Rattle.std.specs.Prelude.{◌≡◌, ◌≢◌, ◌≤◌, ◌<◌, ◌↔◌, ◌∷◌, ◌++◌, [], List, None, Some, ℕ, true, IfErr, IfOk, IfSome, MatchOption, OnErr, OnOk, length};
ghost use Rattle.lp_transition.specs.Boot.{boot_refusal};
ghost use Rattle.lp_definitions.specs.declared.event.Event.TheVariants.{Walk};
ghost use Rattle.lp_log.specs.declared.seat.TurnedBy.TheVariants.{NotYours, JournalFull as Full};
ghost use Rattle.lp_log.specs.Audits.{control_part, part_of, was_used};
ghost use Rattle.lp_log.specs.Entries.{Entry};
ghost use Rattle.lp_log.specs.Journals.{IsReplayed, and_entry, events_in, next_entry};
ghost use Rattle.lp_log.specs.Logs.{AreSame};
ghost use Rattle.lp_log.specs.Seats.{and_sent, child_seat, owner};
ghost use Rattle.lp_desk.specs.Books.{IsOf, IsSent, first_journal};
ghost use Rattle.lp_parts.specs.Parts.{Among, part_for};
ghost use Rattle.lp_owned.specs.Owned.{key_of};

use crate::seat::{ByOwner, OwnedControl, OwnedSeat};
use crate::turned::TurnedBack;
use lp_board::{DeskName, Told};
use lp_desk::{Book, Closed, Commanded, Submitted};
use lp_log::{Entry, Seat, Turned, TurnedBy};
use lp_model::Consistency;
use lp_parts::{Keeper, Place};
use lp_scan::{Batch, Judged, ScanGate};
use lp_transition::{Event, Reply};
use std::alloc::Global;
use std::marker::Model;
use std::sync::Wait;
use std::thread::Threads;

/// A book whose seats own their parts of the journal. It isn't `Drop`: end it by `shut`.
///
/// Contracts see the log.
pub struct OwnedBook<M: Consistency, N: DeskName + Place> {
    pub(crate) book: Book<M, N>,
    pub(crate) keeper: Keeper<Entry, ByOwner, N>,
}

impl<M: Consistency, N: DeskName + Place> Model for OwnedBook<M, N> {
    ghost use Rattle.lp_log.specs.Logs.{Logged};
    ghost use Rattle.lp_owned.specs.Owned.{IsKept};

    ghost Value = { Logged };

    ghost view = { λ b. b.book };

    ghost invariant = { λ b. IsKept N.DeskName.desk b.book.journal b.keeper };
}

impl<M: Consistency, N: DeskName + Place> OwnedBook<M, N> {
    /// A book that has taken no event, with a keeper whose parts are its tasks' and the control's.
    pub(crate) fn over(book: Book<M, N>, keeper: Keeper<Entry, ByOwner, N>) -> OwnedBook<M, N>
        requires fresh { book.journal ≡ first_journal N.desk }
        requires boots { boot_refusal N.desk.boots ≡ None }
        requires all { keeper.all ≡ [] }
        requires out { (t : ℕ) → Among (Some t) keeper.out → was_used (first_journal N.desk) t ≡ true }
        ensures { result ≡ book }
    {
        OwnedBook { book, keeper }
    }

    /// The model.
    pub(crate) fn model(&self) -> M {
        self.book.log().core().model()
    }

    /// All that is published, for a reader to learn. Never allocates.
    pub fn tell(&self) -> Told<N>
        ensures { result ≡ events_in self.now.journal.entries }
    {
        self.book.tell()
    }

    /// As `Log::batch_for`: what a walk is to be judged over before the book takes it.
    pub fn batch_for(&self, alloc: Global, event: Event) -> Result<Option<Batch>, TurnedBy>
        ensures walk { IfOk result (λ batch. IfSome batch (λ _. event ≡ Walk)) }
        ensures yours { IfErr result (λ cause. (event ≡ Walk) × (cause ≢ NotYours)) }
        ensures full { IfErr result (λ cause. (cause ≡ Full) ↔ (1000000 ≤ length self.now.journal.entries)) }
    {
        self.book.log().batch_for(alloc, event)
    }

    /// What was turned back, with all that is published.
    pub(crate) fn turned_back<P: Drop>(&self, turned: Turned<P>) -> TurnedBack<P, N>
        ensures part { result.part ≡ turned.part }
        ensures cause { result.cause ≡ turned.cause }
        ensures told { result.told ≡ events_in self.now.journal.entries }
    {
        let Turned { part, cause } = turned;
        TurnedBack {
            part,
            cause,
            told: self.tell(),
        }
    }

    /// Gives the board and the engine up, without the parts. Waits for readers that are inside a read. Never allocates.
    pub fn shut<R: Wait>(self, rt: &R) -> Closed<N>
        ensures value { result.journal ≡ self.journal }
        ensures told { result.told ≡ events_in result.journal.entries }
        ensures named { IsOf N.desk M.rules result.journal }
        ensures replayed { IsReplayed M.rules result.journal }
    {
        let OwnedBook { book, keeper } = self;
        drop(keeper);
        book.shut(rt)
    }
}

/// The answer to an event that was sent from a seat that owns its part.
#[derive(Drop)]
pub struct OwnedSubmitted<N: DeskName + Place> {
    /// The seat, with the entry.
    pub seat: OwnedSeat<N>,
    /// The answer.
    pub reply: Reply,
    /// All events that are published, the last of which is this.
    pub told: Told<N>,
    /// The seat of the child, where a fork was accepted.
    pub child: Option<OwnedSeat<N>>,
}

impl<M: Consistency, N: DeskName + Place> OwnedBook<M, N> {
    /// Takes an event that is sent from a seat, as `Book::submit` does. The journal's part of the seat's task is the seat's
    /// list, before and after.
    pub fn submit<R: Wait>(
        &mut self,
        rt: &R,
        alloc: Global,
        seat: OwnedSeat<N>,
        event: Event,
    ) -> Result<OwnedSubmitted<N>, Turned<OwnedSeat<N>>>
        ensures before { OnOk result (seat.entries ≡ part_of seat.task self.old.journal.entries) }
        ensures after { IfOk result (λ done. done.seat.entries ≡ part_of seat.task self.new.journal.entries) }
        ensures yours { OnOk result (owner event ≡ Some seat.task) }
        ensures sent { IfOk result (λ done. IsSent N.desk M.rules self.old.journal event done.reply done.told) }
        ensures journal { IfOk result (λ done. self.new.journal ≡ and_entry self.old.journal event done.reply) }
        ensures seat { IfOk result (λ done. done.seat ≡ and_sent seat (next_entry self.old.journal.entries event done.reply)) }
        ensures child { IfOk result (λ done. done.child ≡ child_seat event done.reply.what) }
        ensures left { OnOk result (length self.old.journal.entries < 1000000) }
        ensures turned { IfErr result (λ turned. turned.part ≡ seat) }
        ensures unchanged { OnErr result (AreSame self.old self.new) }
        ensures not_yours { IfErr result (λ turned. (turned.cause ≡ NotYours) ↔ (owner event ≢ Some seat.task)) }
        ensures full { IfErr result (λ turned. (turned.cause ≡ Full) ↔ ((owner event ≡ Some seat.task) × (1000000 ≤ length self.old.journal.entries))) }
    {
        let OwnedBook { book, keeper } = self;
        let OwnedSeat { seat, part } = seat;
        let _stands = book.log().core();
        match book.submit(rt, alloc, seat, event) {
            Ok(
                Submitted {
                    seat,
                    reply,
                    told,
                    child,
                },
            ) => {
                let part = keeper.add(rt, part, last_entry(&seat));
                let child = seated(rt, keeper, child);
                Ok(OwnedSubmitted {
                    seat: OwnedSeat { seat, part },
                    reply,
                    told,
                    child,
                })
            }
            Err(turned) => {
                let Turned { part: seat, cause } = turned;
                Err(Turned {
                    part: OwnedSeat { seat, part },
                    cause,
                })
            }
        }
    }
}

/// The answer to an event that was sent from the control that owns its part.
#[derive(Drop)]
pub struct OwnedCommanded<N: DeskName + Place> {
    /// The control, with the entry.
    pub control: OwnedControl<N>,
    /// The answer.
    pub reply: Reply,
    /// All events that are published, the last of which is this.
    pub told: Told<N>,
}

impl<M: Consistency + Sync, N: DeskName + Place> OwnedBook<M, N> {
    /// Takes an event that is sent from the control, as `Book::command` does. The journal's part of scans and control events
    /// is the control's list, before and after.
    pub fn command<R: Threads + Wait + Sync, G: ScanGate + Sync>(
        &mut self,
        rt: &R,
        alloc: Global,
        workers: usize,
        gate: &G,
        judged: Option<&Judged<M>>,
        control: OwnedControl<N>,
        event: Event,
    ) -> Result<OwnedCommanded<N>, Turned<OwnedControl<N>>>
        requires some { 0 < workers }
        requires few { workers ≤ 64 }
        requires walk { IfSome judged (λ _. event ≡ Walk) }
        ensures before { OnOk result (control ≡ control_part self.old.journal.entries) }
        ensures after { IfOk result (λ done. done.control ≡ control_part self.new.journal.entries) }
        ensures yours { OnOk result (owner event ≡ None) }
        ensures sent { IfOk result (λ done. IsSent N.desk M.rules self.old.journal event done.reply done.told) }
        ensures journal { IfOk result (λ done. self.new.journal ≡ and_entry self.old.journal event done.reply) }
        ensures control { IfOk result (λ done. done.control ≡ control ++ next_entry self.old.journal.entries event done.reply ∷ []) }
        ensures left { OnOk result (length self.old.journal.entries < 1000000) }
        ensures turned { IfErr result (λ turned. turned.part ≡ control) }
        ensures unchanged { OnErr result (AreSame self.old self.new) }
        ensures not_yours { IfErr result (λ turned. (turned.cause ≡ NotYours) ↔ (owner event ≢ None)) }
        ensures full { IfErr result (λ turned. (turned.cause ≡ Full) ↔ ((owner event ≡ None) × (1000000 ≤ length self.old.journal.entries))) }
    {
        let OwnedBook { book, keeper } = self;
        let OwnedControl { control, part } = control;
        let _stands = book.log().core();
        match book.command(rt, alloc, workers, gate, judged, control, event) {
            Ok(
                Commanded {
                    control,
                    reply,
                    told,
                },
            ) => {
                let part = keeper.add(rt, part, last_of(control.entries()));
                Ok(OwnedCommanded {
                    control: OwnedControl { control, part },
                    reply,
                    told,
                })
            }
            Err(turned) => {
                let Turned {
                    part: control,
                    cause,
                } = turned;
                Err(Turned {
                    part: OwnedControl { control, part },
                    cause,
                })
            }
        }
    }
}

/// The last of these entries.
fn last_of(entries: &[Entry]) -> &Entry
    requires { 0 < length entries.now }
    ensures { (before : List Entry) (entry : Entry) → entries.now ≡ before ++ entry ∷ [] → result.now ≡ entry }
{
    &entries[entries.len() - 1]
}

/// The entry that was sent last.
fn last_entry(seat: &Seat) -> &Entry
    requires { 0 < length seat.now.entries }
    ensures { (before : List Entry) (entry : Entry) → seat.now.entries ≡ before ++ entry ∷ [] → result.now ≡ entry }
{
    &seat.entries()[seat.entries().len() - 1]
}

/// The child's seat with its part, which nobody owns and which has nothing yet.
fn seated<N: DeskName + Place, R: Wait>(
    rt: &R,
    keeper: &mut Keeper<Entry, ByOwner, N>,
    child: Option<Seat>,
) -> Option<OwnedSeat<N>>
    requires free { IfSome child (λ seat. Among (Some seat.task) keeper.old.out → ⊥) }
    requires none { IfSome child (λ seat. part_for key_of (Some seat.task) keeper.old.all ≡ []) }
    requires new { IfSome child (λ seat. seat.entries ≡ []) }
    ensures same { result ≡ child }
    ensures all { keeper.new.all ≡ keeper.old.all }
    ensures out { MatchOption child (keeper.new.out ≡ keeper.old.out) (λ seat. keeper.new.out ≡ Some seat.task ∷ keeper.old.out) }
{
    match child {
        Some(seat) => {
            let part = keeper.give(rt, Some(seat.task().0));
            Some(OwnedSeat { seat, part })
        }
        None => None,
    }
}
