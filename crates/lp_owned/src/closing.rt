//! The close of an owned book, with all parts of its journal.
ghost use Rattle.std.specs.Prelude.{◌≡◌, ◌≢◌, ◌≤◌, ◌<◌, All, IfErr, IfOk, None, Some, ℕ, length};
ghost use Rattle.lp_log.specs.Audits.{AllBelong, IsClosed, given_out, seats_of};
ghost use Rattle.lp_log.specs.Journals.{IsReplayed, events_in};
ghost use Rattle.lp_desk.specs.Books.{IsOf};
ghost use Rattle.lp_parts.specs.Parts.{Among, part_for};
ghost use Rattle.lp_owned.specs.Owned.{AreAllIn, AreParts, key_of};

use crate::book::OwnedBook;
use crate::seat::{ByOwner, OwnedControl, OwnedSeat};
use lp_board::{AllTold, DeskName};
use lp_desk::Closed;
use lp_log::{Entry, Journal};
use lp_model::Consistency;
use lp_parts::{Keeper, Place};
use std::sync::Wait;

/// What is handed back where a seat that was given out isn't handed in. The seats that were handed in had their parts of this
/// journal and no more, so nothing is lost with them.
#[derive(Drop)]
pub struct SeatMissing<N: DeskName> {
    /// The journal.
    pub journal: Journal,
    /// All events that were ever published, which are the journal's.
    pub told: AllTold<N>,
    /// How many seats were handed in.
    pub have: usize,
    /// How many seats were given out.
    pub want: usize,
}

impl<M: Consistency, N: DeskName + Place> OwnedBook<M, N> {
    /// Gives the board and the engine up, with all parts of the journal. Waits for readers that are inside a read. Never
    /// allocates.
    ///
    /// Each seat and the control own their parts, so what they hold is what the journal has of them: no difference can be
    /// found, and no stranger. Where a seat is missing, which is found by counting, the journal is handed back.
    pub fn close<R: Wait>(
        self,
        rt: &R,
        seats: Vec<OwnedSeat<N>>,
        control: OwnedControl<N>,
    ) -> Result<Closed<N>, SeatMissing<N>>
        ensures named { IfOk result (λ closed. IsOf N.desk M.rules closed.journal) }
        ensures replayed { IfOk result (λ closed. IsReplayed M.rules closed.journal) }
        ensures told { IfOk result (λ closed. closed.told ≡ events_in closed.journal.entries) }
        ensures closed { IfOk result (λ closed. IsClosed closed.journal seats.items control) }
        ensures same { IfOk result (λ closed. closed.journal ≡ self.journal) }
        ensures kept { IfErr result (λ missing. IsOf N.desk M.rules missing.journal × IsReplayed M.rules missing.journal) }
        ensures untold { IfErr result (λ missing. missing.told ≡ events_in missing.journal.entries) }
        ensures parts { IfErr result (λ missing. AreParts missing.journal seats.items control) }
        ensures counted { IfErr result (λ missing. (missing.have ≡ length seats.items) × (missing.want ≡ given_out missing.journal) × (missing.have ≢ missing.want)) }
        ensures all_in { IfErr result (λ missing. AreAllIn N.desk.boots seats.items → ⊥) }
    {
        let have = seats.len();
        let OwnedBook { book, mut keeper } = self;
        take_all_back(rt, &mut keeper, seats);
        control_back(rt, &mut keeper, control);
        let Closed { journal, told } = book.shut(rt);
        let want = journal.given_out();
        if have == want {
            Ok(Closed { journal, told })
        } else {
            Err(SeatMissing {
                journal,
                told,
                have,
                want,
            })
        }
    }
}

/// Takes the control's part back.
fn control_back<N: DeskName + Place, R: Wait>(
    rt: &R,
    keeper: &mut Keeper<Entry, ByOwner, N>,
    control: OwnedControl<N>,
)
    ensures { control ≡ part_for key_of None keeper.old.all }
{
    let OwnedControl { control, part } = control;
    drop(control);
    keeper.take_back(rt, part);
}

/// Takes the seats' parts back: each is its task's part, and no task comes twice.
fn take_all_back<N: DeskName + Place, R: Wait>(
    rt: &R,
    keeper: &mut Keeper<Entry, ByOwner, N>,
    seats: Vec<OwnedSeat<N>>,
)
    ensures all { keeper.new.all ≡ keeper.old.all }
    ensures parts { All (λ seat. seat.entries ≡ part_for key_of (Some seat.task) keeper.old.all) seats.items }
    ensures few { (t : ℕ) → seats_of seats.items t ≤ 1 }
    ensures among { (t : ℕ) → 0 < seats_of seats.items t → Among (Some t) keeper.old.out }
{
    for seat in seats {
        let OwnedSeat { seat, part } = seat;
        drop(seat);
        keeper.take_back(rt, part);
    }
}
