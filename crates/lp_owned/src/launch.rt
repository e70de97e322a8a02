//! The start of an owned desk.
ghost use Rattle.std.specs.Prelude.{◌≡◌, ◌⊎◌, ◌↔◌, [], All, Err, IfErr, IfOk, length, map};
ghost use Rattle.lp_transition.specs.declared.engine.boot.BootFault.TheVariants as boot_fault;
ghost use Rattle.lp_board.specs.Blanks.{IsCrew, name_of};
ghost use Rattle.lp_board.specs.declared.launch.LaunchFault.TheVariants.{BadCrew, Boot, NoBoard};
ghost use Rattle.lp_log.specs.Seats.{new_seat};

use crate::blank::OwnedBlank;
use crate::book::OwnedBook;
use crate::desk::OwnedDesk;
use crate::opening::OwnedOpened;
use crate::seat::{OwnedControl, OwnedSeat};
use lp_board::{BoardReader, DeskName, LaunchFault, MOST_CREW};
use lp_model::Consistency;
use lp_parts::Place;
use lp_scan::ScanGate;
use std::alloc::Global;
use std::sync::Wait;

/// An owned desk at its start, all that may send to it, and all that may read its board.
#[derive(Drop)]
pub struct OwnedLaunched<M: Consistency, N: DeskName + Place, G: ScanGate + Drop, R: Wait + Drop> {
    /// The desk.
    pub desk: OwnedDesk<M, N, G, R>,
    /// The seats of its tasks, in their order.
    pub seats: Vec<OwnedSeat<N>>,
    /// The control.
    pub control: OwnedControl<N>,
    /// The readers of its board.
    pub readers: Vec<BoardReader<N>>,
}

impl<M: Consistency, N: DeskName + Place, G: ScanGate + Drop, R: Wait + Drop> OwnedDesk<
    M,
    N,
    G,
    R,
> {
    /// As `lp_desk::Desk::launch`. Every part begins with nothing, and each owns what the journal has of it: so the
    /// journal is empty.
    ///
    /// Refused for a number of workers outside 1 to 64, else T3 where an allocation failed, T5 where a reader couldn't be
    /// had. A refusal gives the blank up.
    pub fn launch(
        rt: R,
        alloc: Global,
        blank: OwnedBlank<M>,
        workers: usize,
        gate: G,
    ) -> Result<OwnedLaunched<M, N, G, R>, LaunchFault>
        requires name { name_of M.rules blank.start ≡ N.desk }
        requires table { blank.table ≡ N.table }
        ensures crew { (result ≡ Err BadCrew) ↔ (IsCrew workers → ⊥) }
        ensures refused { IsCrew workers → IfErr result (λ fault. (fault ≡ Boot boot_fault.NoMemory) ⊎ (fault ≡ NoBoard)) }
        ensures seats { IfOk result (λ launched. launched.seats.items ≡ map (λ boot. new_seat boot.0.0) N.desk.boots) }
        ensures control { IfOk result (λ launched. launched.control ≡ []) }
        ensures readers { IfOk result (λ launched. All (λ b. b ≡ record { seen = []; known = [] }) launched.readers.items) }
        ensures count { IfOk result (λ launched. length launched.readers.items ≡ blank.start.readers) }
    {
        if workers == 0 || workers > MOST_CREW {
            drop(blank);
            return Err(LaunchFault::BadCrew);
        }
        let opened = OwnedBook::<M, N>::open(&rt, alloc, blank)?;
        let OwnedOpened {
            book,
            seats,
            control,
            readers,
        } = opened;
        Ok(OwnedLaunched {
            desk: OwnedDesk::new(rt, book, workers, gate),
            seats,
            control,
            readers,
        })
    }
}
