//! The audit: whether what was sent from the seats and from the control is what the journal says.
ghost use Rattle.std.specs.Prelude.{◌≡◌, IfErr, OnOk};

mod differences;
mod follow;
mod strangers;

use crate::{Control, Journal, Seat};
use lp_stack::TaskId;
use std::alloc::{AllocError, Global};
use thiserror::Error;

/// Why a desk isn't closed. The first that fits is given.
#[derive(Clone, Copy, Debug, PartialEq, Eq, Error)]
pub enum CloseCause {
    /// D4: a seat, or an event of the journal, of a task that never was; or a second seat of one task.
    #[error("D4: a seat or an event of task {task}, which never was, or a second seat of it")]
    Stranger {
        /// The least such task.
        task: TaskId,
    },
    /// D2: a seat that was given out is missing.
    #[error("D2: {have} tasks have a seat, and {want} were given out")]
    Missing {
        /// How many tasks have a seat.
        have: usize,
        /// How many seats were given out.
        want: usize,
    },
    /// D3: the entries of a seat aren't its task's part of the journal; or those of the control aren't its own part.
    #[error("D3: what was sent for task {task} isn't its part of the journal, from place {place} on")]
    Differs {
        /// The least such task, or 0 for the control, which comes last.
        task: TaskId,
        /// The first place, from 0, at which the two differ.
        place: usize,
    },
    /// An allocation failed.
    #[error("E13: out of memory")]
    NoMemory,
}

impl From<AllocError> for CloseCause {
    ghost use Rattle.lp_log.specs.declared.audit.CloseCause.TheVariants.{NoMemory};

    ghost from_gives = { λ _ cause. cause ≡ NoMemory };

    fn from(_error: AllocError) -> CloseCause {
        CloseCause::NoMemory
    }
}

impl Journal {
    ghost use Rattle.lp_log.specs.Audits.{AllBelong, IsClosed, IsFirstCause, NoStranger, given_out};

    /// Whether the seats and the control are those that were given out, and their entries are the parts of the journal:
    /// each seat's the entries of its task, and the control's those of scans and control events.
    ///
    /// Else the first cause that fits: a stranger, of whom the least is named; a seat that is missing; the first
    /// difference of the least task, or of the control; and NoMemory wherever an allocation failed.
    ///
    /// One table by task number has each seat's place, and one pass over the journal moves each seat's cursor along its
    /// own list: a search for each seat would cost the journal's length times the seats.
    pub fn audit(&self, alloc: Global, seats: &[Seat], control: &Control) -> Result<(), CloseCause>
        ensures closed { OnOk result (IsClosed self.now seats.now control.now) }
        ensures belong { OnOk result (AllBelong self.now.entries seats.now) }
        ensures cause { IfErr result (λ cause. IsFirstCause self.now seats.now control.now cause) }
    {
        match strangers::least_stranger(alloc, self, seats)? {
            Some(task) => Err(CloseCause::Stranger { task: TaskId(task) }),
            None => self.audit_known(alloc, seats, control),
        }
    }

    /// How many seats were given out: one for each task that was there from the start, and for each that a fork brought.
    pub fn given_out(&self) -> usize
        ensures { result ≡ given_out self.now }
    {
        strangers::given_out(self)
    }

    /// The audit where there is no stranger.
    fn audit_known(
        &self,
        alloc: Global,
        seats: &[Seat],
        control: &Control,
    ) -> Result<(), CloseCause>
        requires { NoStranger self.now seats.now control.now }
        ensures closed { OnOk result (IsClosed self.now seats.now control.now) }
        ensures belong { OnOk result (AllBelong self.now.entries seats.now) }
        ensures cause { IfErr result (λ cause. IsFirstCause self.now seats.now control.now cause) }
    {
        let want = self.given_out();
        let have = seats.len();
        if have != want {
            return Err(CloseCause::Missing { have, want });
        }
        let cursors = follow::followed(alloc, self.entries(), seats)?;
        if let Some((task, place)) = differences::least_difference(seats, cursors.as_slice()) {
            return Err(CloseCause::Differs {
                task: TaskId(task),
                place,
            });
        }
        match differences::control_difference(self.entries(), control.entries()) {
            Some(place) => Err(CloseCause::Differs {
                task: TaskId(0),
                place,
            }),
            None => Ok(()),
        }
    }
}
