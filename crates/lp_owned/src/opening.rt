//! An owned book at its start.
ghost use Rattle.std.specs.Prelude.{◌≡◌, ◌⊎◌, ◌<◌, [], All, IfErr, IfOk, None, Some, ℕ, length, map};
ghost use Rattle.lp_transition.specs.declared.engine.boot.BootFault.TheVariants as boot_fault;
ghost use Rattle.lp_board.specs.Blanks.{name_of};
ghost use Rattle.lp_board.specs.declared.launch.LaunchFault.TheVariants.{Boot, NoBoard};
ghost use Rattle.lp_log.specs.Audits.{seats_of};
ghost use Rattle.lp_log.specs.Seats.{new_seat};
ghost use Rattle.lp_desk.specs.Books.{first_journal};
ghost use Rattle.lp_parts.specs.Parts.{Among};
ghost use Rattle.lp_owned.specs.Owned.{EachNew};

use crate::blank::OwnedBlank;
use crate::book::OwnedBook;
use crate::seat::{ByOwner, OwnedControl, OwnedSeat};
use lp_board::{BoardReader, DeskName, LaunchFault};
use lp_desk::{Book, OpenedBook};
use lp_log::{Control, Entry, Seat};
use lp_model::Consistency;
use lp_parts::{Keeper, Place};
use std::alloc::{AllocError, Global};
use std::sync::Wait;

/// An owned book at its start, all that may send to it, and all that may read its board. The book isn't `Drop`: end it
/// by `OwnedBook::shut`.
pub struct OwnedOpened<M: Consistency, N: DeskName + Place> {
    /// The book.
    pub book: OwnedBook<M, N>,
    /// The seats of its tasks, in their order.
    pub seats: Vec<OwnedSeat<N>>,
    /// The control.
    pub control: OwnedControl<N>,
    /// The readers of its board.
    pub readers: Vec<BoardReader<N>>,
}

impl<M: Consistency, N: DeskName + Place> OwnedBook<M, N> {
    /// As `Book::open`: a book with an empty journal, a seat for each of the blank's tasks, in their order, and the control,
    /// each with its part of the journal, which has nothing; and the readers of the board.
    ///
    /// A refusal gives all up: T3 where an allocation failed, T5 where a reader couldn't be had.
    pub fn open<R: Wait>(
        rt: &R,
        alloc: Global,
        blank: OwnedBlank<M>,
    ) -> Result<OwnedOpened<M, N>, LaunchFault>
        requires name { name_of M.rules blank.start ≡ N.desk }
        requires table { blank.table ≡ N.table }
        ensures started { IfOk result (λ opened. opened.book.journal ≡ first_journal N.desk) }
        ensures seats { IfOk result (λ opened. opened.seats.items ≡ map (λ boot. new_seat boot.0.0) N.desk.boots) }
        ensures control { IfOk result (λ opened. opened.control ≡ []) }
        ensures readers { IfOk result (λ opened. All (λ b. b ≡ record { seen = []; known = [] }) opened.readers.items) }
        ensures count { IfOk result (λ opened. length opened.readers.items ≡ blank.start.readers) }
        ensures refused { IfErr result (λ fault. (fault ≡ Boot boot_fault.NoMemory) ⊎ (fault ≡ NoBoard)) }
    {
        let (blank, parts) = blank.into_parts();
        match Book::<M, N>::open(rt, alloc, blank) {
            Ok(
                OpenedBook {
                    book,
                    seats,
                    control,
                    readers,
                },
            ) => {
                let mut keeper: Keeper<Entry, ByOwner, N> = parts.open();
                match seat_all(rt, alloc, &mut keeper, seats) {
                    Ok(seats) => {
                        let control = with_part(rt, &mut keeper, control);
                        Ok(OwnedOpened {
                            book: OwnedBook::over(book, keeper),
                            seats,
                            control,
                            readers,
                        })
                    }
                    Err(error) => {
                        drop(readers);
                        drop(control);
                        drop(book.shut(rt));
                        Err(LaunchFault::from(error))
                    }
                }
            }
            Err(fault) => Err(fault),
        }
    }
}

/// The control with its part.
fn with_part<N: DeskName + Place, R: Wait>(
    rt: &R,
    keeper: &mut Keeper<Entry, ByOwner, N>,
    control: Control,
) -> OwnedControl<N>
    requires free { Among None keeper.old.out → ⊥ }
    requires none { (keeper.old.all ≡ []) × (control ≡ []) }
    ensures same { result ≡ control }
    ensures all { keeper.new.all ≡ [] }
    ensures out { (t : ℕ) → Among (Some t) keeper.new.out → Among (Some t) keeper.old.out }
{
    let part = keeper.give(rt, None);
    OwnedControl { control, part }
}

/// The seats, each with its part.
fn seat_all<N: DeskName + Place, R: Wait>(
    rt: &R,
    alloc: Global,
    keeper: &mut Keeper<Entry, ByOwner, N>,
    seats: Vec<Seat>,
) -> Result<Vec<OwnedSeat<N>>, AllocError>
    requires empty { (keeper.old.all ≡ []) × (keeper.old.out ≡ []) }
    requires new { EachNew seats.items }
    ensures same { IfOk result (λ owned. owned.items ≡ seats.items) }
    ensures all { IfOk result (λ owned. keeper.new.all ≡ []) }
    ensures out { IfOk result (λ owned. (t : ℕ) → Among (Some t) keeper.new.out → 0 < seats_of seats.items t) }
    ensures control { IfOk result (λ owned. Among None keeper.new.out → ⊥) }
{
    let mut owned = Vec::with_capacity(alloc, seats.len())?;
    for seat in seats {
        let part = keeper.give(rt, Some(seat.task().0));
        owned.push(OwnedSeat { seat, part })?;
    }
    Ok(owned)
}
