//! The close of a desk.
ghost use Rattle.std.specs.Prelude.{◌≡◌, IfOk, IfErr};
ghost use Rattle.lp_log.specs.Audits.{AllBelong, IsClosed, IsFirstCause};
ghost use Rattle.lp_log.specs.Journals.{IsReplayed, events_in};
ghost use Rattle.lp_desk.specs.Books.{IsOf};

use crate::Desk;
use lp_board::{AllTold, DeskName};
use lp_log::{CloseCause, Control, Journal, Seat};
use lp_model::Consistency;
use lp_scan::ScanGate;
use std::alloc::Global;
use std::sync::Wait;

/// What a desk leaves.
#[derive(Drop)]
pub struct Closed<N: DeskName> {
    /// The journal.
    pub journal: Journal,
    /// All events that were ever published, which are the journal's.
    pub told: AllTold<N>,
}

/// What is handed back where what was sent isn't what the journal says, so that the audit can be made again with other
/// seats.
#[derive(Drop)]
pub struct Unclosed<N: DeskName> {
    /// The journal.
    pub journal: Journal,
    /// All events that were ever published, which are the journal's.
    pub told: AllTold<N>,
    /// The seats that were handed in.
    pub seats: Vec<Seat>,
    /// The control that was handed in.
    pub control: Control,
    /// Why.
    pub cause: CloseCause,
}

impl<M: Consistency, N: DeskName, G: ScanGate + Drop, R: Wait + Drop> Desk<M, N, G, R> {
    /// Gives the desk and its board up, which waits for readers that are inside a read, and audits what was sent: see `Journal::audit`. Where a cause fits, the journal, the seats and
    /// the control are handed back with the first.
    pub fn close<T: Wait>(
        self,
        rt: &T,
        alloc: Global,
        seats: Vec<Seat>,
        control: Control,
    ) -> Result<Closed<N>, Unclosed<N>>
        ensures named { IfOk result (λ closed. IsOf N.desk M.rules closed.journal) }
        ensures replayed { IfOk result (λ closed. IsReplayed M.rules closed.journal) }
        ensures told { IfOk result (λ closed. closed.told ≡ events_in closed.journal.entries) }
        ensures closed { IfOk result (λ closed. IsClosed closed.journal seats.items control) }
        ensures belong { IfOk result (λ closed. AllBelong closed.journal.entries seats.items) }
        ensures handed { IfErr result (λ unclosed. (unclosed.seats.items ≡ seats.items) × (unclosed.control ≡ control)) }
        ensures kept { IfErr result (λ unclosed. IsOf N.desk M.rules unclosed.journal × IsReplayed M.rules unclosed.journal) }
        ensures untold { IfErr result (λ unclosed. unclosed.told ≡ events_in unclosed.journal.entries) }
        ensures cause { IfErr result (λ unclosed. IsFirstCause unclosed.journal seats.items control unclosed.cause) }
    {
        let closed = self.into_book().shut(rt);
        match closed.journal.audit(alloc, seats.as_slice(), &control) {
            Ok(()) => Ok(closed),
            Err(cause) => {
                let Closed { journal, told } = closed;
                Err(Unclosed {
                    journal,
                    told,
                    seats,
                    control,
                    cause,
                })
            }
        }
    }
}
