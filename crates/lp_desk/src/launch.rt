//! The start of a desk.
ghost use Rattle.std.specs.Prelude.{◌≡◌, ◌⊎◌, ◌↔◌, [], All, Err, IfErr, IfOk, length, map};
ghost use Rattle.lp_transition.specs.declared.engine.boot.BootFault.TheVariants as boot_fault;
ghost use Rattle.lp_board.specs.Blanks.{IsCrew, name_of};
ghost use Rattle.lp_board.specs.declared.launch.LaunchFault.TheVariants.{BadCrew, Boot, NoBoard};
ghost use Rattle.lp_log.specs.Seats.{new_seat};

use crate::{Book, Desk, OpenedBook};
use lp_board::{Blank, BoardReader, DeskName, LaunchFault, MOST_CREW};
use lp_log::{Control, Seat};
use lp_model::Consistency;
use lp_scan::ScanGate;
use std::alloc::Global;
use std::sync::Wait;

/// A desk at its start, all that may send to it, and all that may read its board.
#[derive(Drop)]
pub struct Launched<M: Consistency, N: DeskName, G: ScanGate + Drop, R: Wait + Drop> {
    /// The desk.
    pub desk: Desk<M, N, G, R>,
    /// The seats of its tasks, in their order.
    pub seats: Vec<Seat>,
    /// The control.
    pub control: Control,
    /// The readers of its board.
    pub readers: Vec<BoardReader<N>>,
}

impl<M: Consistency, N: DeskName, G: ScanGate + Drop, R: Wait + Drop> Desk<M, N, G, R> {
    /// A desk with an empty journal, a seat for each of the blank's tasks, in their order, the control, and the readers of
    /// its board. Its walks and stops look at the tasks by so many workers, each of which passes the gate. The desk keeps
    /// the runtime, to give the board up where nobody closes it.
    ///
    /// Refused for a number of workers outside 1 to 64, else T3 where an allocation failed, T5 where a reader couldn't be
    /// had. A refusal gives the blank up.
    pub fn launch(
        rt: R,
        alloc: Global,
        blank: Blank<M>,
        workers: usize,
        gate: G,
    ) -> Result<Launched<M, N, G, R>, LaunchFault>
        requires { name_of M.rules blank ≡ N.desk }
        ensures crew { (result ≡ Err BadCrew) ↔ (IsCrew workers → ⊥) }
        ensures refused { IsCrew workers → IfErr result (λ fault. (fault ≡ Boot boot_fault.NoMemory) ⊎ (fault ≡ NoBoard)) }
        ensures seats { IfOk result (λ launched. launched.seats.items ≡ map (λ boot. new_seat boot.0.0) N.desk.boots) }
        ensures control { IfOk result (λ launched. launched.control ≡ []) }
        ensures readers { IfOk result (λ launched. All (λ b. b ≡ record { seen = []; known = [] }) launched.readers.items) }
        ensures count { IfOk result (λ launched. length launched.readers.items ≡ blank.readers) }
    {
        if workers == 0 || workers > MOST_CREW {
            drop(blank);
            return Err(LaunchFault::BadCrew);
        }
        let opened = Book::<M, N>::open(&rt, alloc, blank)?;
        let OpenedBook {
            book,
            seats,
            control,
            readers,
        } = opened;
        Ok(Launched {
            desk: Desk::new(rt, book, workers, gate),
            seats,
            control,
            readers,
        })
    }
}
