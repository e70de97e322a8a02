//! What lies under a desk's lock: a log, and the board that shows its events.
ghost use Rattle.std.specs.Prelude.{◌≡◌, ◌⊎◌, ◌≤◌, ◌↔◌, [], true, All, Err, IfErr, IfOk, OnErr, length, map};
ghost use Rattle.lp_transition.specs.Scan.{is_scan_kind, scan_event, verdicts_of};
ghost use Rattle.lp_machine.specs.Table.{state_in};
ghost use Rattle.lp_transition.specs.Weigh.{IsWeighed};
ghost use Rattle.lp_transition.specs.declared.engine.boot.BootFault.TheVariants as boot_fault;
ghost use Rattle.lp_transition.specs.declared.engine.step.Halt.TheVariants.{JournalFull, NoMemory};
ghost use Rattle.lp_definitions.specs.declared.event.Event.TheVariants.{Walk};
ghost use Rattle.lp_board.specs.Blanks.{name_of};
ghost use Rattle.lp_board.specs.declared.launch.LaunchFault.TheVariants.{Boot, NoBoard};
ghost use Rattle.lp_log.specs.Journals.{IsReplayed, and_entry, events_in, reply_to};
ghost use Rattle.lp_log.specs.Logs.{AreSame};
ghost use Rattle.lp_log.specs.Seats.{new_seat};
ghost use Rattle.lp_desk.specs.Books.{IsOf, first_journal};

mod publish;
mod sent;

use crate::Closed;
use lp_board::{Blank, BoardReader, DeskName, LaunchFault, Parts, Publisher, Told};
use lp_log::{Control, Log, Opened, Seat};
use lp_model::{CheckKind, Consistency, Verdict};
use lp_scan::Judged;
use lp_transition::{Event, Halt, Reply, Step};
use publish::publish;
pub use sent::{Commanded, Submitted};
use std::alloc::Global;
use std::marker::Model;
use std::sync::Wait;

/// A log and the board that shows its events: what is published is the journal, whole. It isn't `Drop`: end it by `shut`.
///
/// Contracts see the log.
pub struct Book<M: Consistency, N: DeskName> {
    log: Log<M>,
    board: Publisher<N>,
}

impl<M: Consistency, N: DeskName> Model for Book<M, N> {
    ghost use Rattle.lp_log.specs.Logs.{Logged};
    ghost use Rattle.lp_desk.specs.Books.{IsShown};

    ghost Value = { Logged };

    ghost view = { λ b. b.log };

    ghost invariant = { λ b. IsShown N.desk M.rules b.log.journal b.board };
}

/// A book at its start, all that may send to it, and all that may read its board. The book isn't `Drop`: end it by
/// `Book::shut`.
pub struct OpenedBook<M: Consistency, N: DeskName> {
    /// The book.
    pub book: Book<M, N>,
    /// The seats of its tasks, in their order.
    pub seats: Vec<Seat>,
    /// The control.
    pub control: Control,
    /// The readers of its board.
    pub readers: Vec<BoardReader<N>>,
}

impl<M: Consistency, N: DeskName> Book<M, N> {
    /// A book with an empty journal, a seat for each of the blank's tasks, in their order, the control, and the readers of
    /// the board.
    ///
    /// A refusal gives all up: T3 where an allocation failed, T5 where a reader couldn't be had.
    pub fn open<R: Wait>(
        rt: &R,
        alloc: Global,
        blank: Blank<M>,
    ) -> Result<OpenedBook<M, N>, LaunchFault>
        requires { name_of M.rules blank ≡ N.desk }
        ensures started { IfOk result (λ opened. opened.book.journal ≡ first_journal N.desk) }
        ensures seats { IfOk result (λ opened. opened.seats.items ≡ map (λ boot. new_seat boot.0.0) N.desk.boots) }
        ensures control { IfOk result (λ opened. opened.control ≡ []) }
        ensures readers { IfOk result (λ opened. All (λ b. b ≡ record { seen = []; known = [] }) opened.readers.items) }
        ensures count { IfOk result (λ opened. length opened.readers.items ≡ blank.readers) }
        ensures refused { IfErr result (λ fault. (fault ≡ Boot boot_fault.NoMemory) ⊎ (fault ≡ NoBoard)) }
    {
        let parts = blank.open::<N, R>(rt, alloc)?;
        let Parts {
            core,
            patches,
            boots,
            board,
            readers,
        } = parts;
        match Log::over(alloc, core, patches, boots) {
            Ok(opened) => {
                let Opened {
                    log,
                    seats,
                    control,
                } = opened;
                Ok(OpenedBook {
                    book: Book { log, board },
                    seats,
                    control,
                    readers,
                })
            }
            Err(refused) => {
                drop(readers);
                drop(board.shut(rt));
                Err(LaunchFault::from(refused))
            }
        }
    }

    /// The log, borrowed.
    pub fn log(&self) -> &Log<M>
        ensures value { result.now ≡ self.now }
        ensures named { IsOf N.desk M.rules self.now.journal }
    {
        &self.log
    }

    /// All that is published, for a reader to learn. Never allocates.
    pub fn tell(&self) -> Told<N>
        ensures { result ≡ events_in self.now.journal.entries }
    {
        self.board.tell()
    }

    /// Gives the board and the engine up, and hands out the journal, with all that was ever published. Waits for readers
    /// that are inside a read. Never allocates.
    pub fn shut<R: Wait>(self, rt: &R) -> Closed<N>
        ensures value { result.journal ≡ self.journal }
        ensures told { result.told ≡ events_in result.journal.entries }
        ensures named { IsOf N.desk M.rules result.journal }
        ensures replayed { IsReplayed M.rules result.journal }
    {
        let Self { log, board } = self;
        let told = board.shut(rt);
        let journal = log.into_journal();
        Closed { journal, told }
    }

    /// Takes one event: it is answered, written down and published at once. Where it fails the engine, the journal and
    /// the board are as they were: NoMemory where an allocation failed, JournalFull where no event is left. Waits for
    /// readers that are inside a read.
    pub fn apply<R: Wait>(&mut self, rt: &R, alloc: Global, event: Event) -> Result<Reply, Halt>
        ensures full { (result ≡ Err JournalFull) ↔ (1000000 ≤ length self.old.journal.entries) }
        ensures reply { IfOk result (λ given. given ≡ reply_to M.rules self.old.journal event) }
        ensures journal { IfOk result (λ given. self.new.journal ≡ and_entry self.old.journal event given) }
        ensures unchanged { OnErr result (AreSame self.old self.new) }
    {
        let step = self.log.weigh(alloc, event)?;
        self.take(rt, alloc, step)
    }

    /// Takes a walk or a stop by what its checks found of the waiting tasks; else as `apply`.
    pub fn apply_scan<R: Wait>(
        &mut self,
        rt: &R,
        alloc: Global,
        kind: CheckKind,
        verdicts: &[Verdict],
    ) -> Result<Reply, Halt>
        requires scan { is_scan_kind kind ≡ true }
        requires found { verdicts.now ≡ verdicts_of M.rules kind (state_in self.old.core) }
        ensures full { (result ≡ Err JournalFull) ↔ (1000000 ≤ length self.old.journal.entries) }
        ensures reply { IfOk result (λ given. given ≡ reply_to M.rules self.old.journal (scan_event kind)) }
        ensures journal { IfOk result (λ given. self.new.journal ≡ and_entry self.old.journal (scan_event kind) given) }
        ensures unchanged { OnErr result (AreSame self.old self.new) }
    {
        let step = self.log.weigh_scan(alloc, kind, verdicts)?;
        self.take(rt, alloc, step)
    }

    /// Takes a walk by what was judged before, as `Log::apply_judged` does; else as `apply`.
    pub fn apply_judged<R: Wait>(
        &mut self,
        rt: &R,
        alloc: Global,
        judged: &Judged<M>,
    ) -> Result<Reply, Halt>
        ensures full { (result ≡ Err JournalFull) ↔ (1000000 ≤ length self.old.journal.entries) }
        ensures reply { IfOk result (λ given. given ≡ reply_to M.rules self.old.journal Walk) }
        ensures journal { IfOk result (λ given. self.new.journal ≡ and_entry self.old.journal Walk given) }
        ensures unchanged { OnErr result (AreSame self.old self.new) }
    {
        let step = self.log.weigh_judged(alloc, judged)?;
        self.take(rt, alloc, step)
    }

    /// Takes an event that was weighed, and publishes it; NoMemory where an allocation failed.
    fn take<R: Wait>(&mut self, rt: &R, alloc: Global, step: Step) -> Result<Reply, Halt>
        requires { IsWeighed M.rules self.old.core step }
        ensures memory { IfErr result (λ halt. halt ≡ NoMemory) }
        ensures reply { IfOk result (λ given. given ≡ reply_to M.rules self.old.journal step.event) }
        ensures journal { IfOk result (λ given. self.new.journal ≡ and_entry self.old.journal step.event given) }
        ensures unchanged { OnErr result (AreSame self.old self.new) }
    {
        let ready = self.log.ready(alloc, step)?;
        publish(rt, alloc, &self.log, &mut self.board, ready.step())?;
        Ok(self.log.commit(ready))
    }
}
