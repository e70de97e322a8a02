//! Seats, from which the events of one task each are sent, and the control, from which all others are.
ghost use Rattle.std.specs.Prelude.{◌≡◌, [], map, IfOk};

use crate::Entry;
use lp_stack::{Class, TaskId};
use lp_transition::Reply;
use std::alloc::{AllocError, Global};
use std::marker::Model;
use thiserror::Error;

/// The right to send the events of a task, with the entries of those that were sent.
///
/// Only a log makes seats: one for each task with which it is opened, and one for the child of each accepted fork. So who
/// has a seat was given it, and at the close each of them can be asked for.
#[derive(Drop)]
pub struct Seat {
    pub(crate) task: TaskId,
    pub(crate) entries: Vec<Entry>,
}

impl Model for Seat {
    ghost use Rattle.lp_log.specs.Seats.{Seated};

    ghost Value = { Seated };

    ghost view = { λ s. record { task = s.task.0; entries = s.entries.items } };
}

impl Seat {
    ghost use Rattle.lp_log.specs.Seats.{new_seat};

    /// A seat from which nothing was sent.
    pub(crate) fn new(alloc: Global, task: TaskId) -> Seat
        ensures { result ≡ new_seat task.0 }
    {
        Seat {
            task,
            entries: Vec::new(alloc),
        }
    }

    /// A seat for each of these tasks, in their order, from which nothing was sent; AllocError where an allocation
    /// failed.
    pub(crate) fn all(alloc: Global, boots: &[(TaskId, Class)]) -> Result<Vec<Seat>, AllocError>
        ensures { IfOk result (λ seats. seats.items ≡ map (λ boot. new_seat boot.0.0) boots.now) }
    {
        let mut seats = Vec::with_capacity(alloc, boots.len())?;
        for (task, _) in boots {
            seats.push(Seat::new(alloc, *task))?;
        }
        Ok(seats)
    }

    /// The task.
    pub fn task(&self) -> TaskId
        ensures { result.0 ≡ self.now.task }
    {
        self.task
    }

    /// The entries of the events that were sent, in their order.
    pub fn entries(&self) -> &[Entry]
        ensures { result.now ≡ self.now.entries }
    {
        self.entries.as_slice()
    }
}

/// The right to send control events, walks and stops, with the entries of those that were sent. A log makes one, as it is
/// opened.
///
/// Contracts see the entries.
#[derive(Drop)]
pub struct Control {
    pub(crate) entries: Vec<Entry>,
}

impl Model for Control {
    ghost use Rattle.std.specs.Prelude.{List};
    ghost use Rattle.lp_log.specs.Entries.{Entry};

    ghost Value = { List Entry };

    ghost view = { λ c. c.entries.items };
}

impl Control {
    /// A control from which nothing was sent.
    pub(crate) fn new(alloc: Global) -> Control
        ensures { result ≡ [] }
    {
        Control {
            entries: Vec::new(alloc),
        }
    }

    /// The entries of the events that were sent, in their order.
    pub fn entries(&self) -> &[Entry]
        ensures { result.now ≡ self.now }
    {
        self.entries.as_slice()
    }
}

/// The answer to an event that was sent from a seat.
#[derive(Drop)]
pub struct SeatAnswer {
    /// The seat, with the entry.
    pub seat: Seat,
    /// The answer.
    pub reply: Reply,
    /// The seat of the child, where a fork was accepted.
    pub child: Option<Seat>,
}

/// The answer to an event that was sent from the control.
#[derive(Drop)]
pub struct ControlAnswer {
    /// The control, with the entry.
    pub control: Control,
    /// The answer.
    pub reply: Reply,
}

/// What was handed in, given back: nothing has happened.
#[derive(Drop)]
pub struct Turned<P: Drop> {
    /// The seat or the control.
    pub part: P,
    /// Why nothing has happened.
    pub cause: TurnedBy,
}

/// Why an event that was sent wasn't taken. The first that fits is given.
#[derive(Clone, Copy, Debug, PartialEq, Eq, Error)]
pub enum TurnedBy {
    /// D1: it isn't an event of the seat's task; or it is a task's event, and was sent from the control.
    #[error("D1: the event isn't the seat's task's, or is a task's that was sent from the control")]
    NotYours,
    /// E14: 1,000,000 events are numbered.
    #[error("E14: 1,000,000 events are numbered")]
    JournalFull,
    /// E13: an allocation failed.
    #[error("E13: out of memory")]
    NoMemory,
}
