//! Seats that own their part of the journal.
ghost use Rattle.std.specs.Prelude.{◌≡◌};

use lp_log::{Control, Entry, Seat};
use lp_parts::{Keying, Part, Place};
use lp_stack::TaskId;
use std::marker::Model;

/// An entry is its task's, or the control's.
pub struct ByOwner;

impl Keying<Entry> for ByOwner {
    ghost use Rattle.lp_owned.specs.Owned.{key_of};

    ghost key = { key_of };
}

/// A seat whose list is its task's part of the journal.
///
/// Contracts see the seat.
#[derive(Drop)]
pub struct OwnedSeat<N: Place> {
    pub(crate) seat: Seat,
    pub(crate) part: Part<Entry, N>,
}

impl<N: Place> Model for OwnedSeat<N> {
    ghost use Rattle.std.specs.Prelude.{◌≡◌, Some};
    ghost use Rattle.lp_log.specs.Seats.{Seated};

    ghost Value = { Seated };

    ghost view = { λ s. s.seat };

    ghost invariant = { λ s. (s.part.of ≡ Some s.seat.task) × (s.part.sent ≡ s.seat.entries) };
}

impl<N: Place> OwnedSeat<N> {
    /// Its task.
    pub fn task(&self) -> TaskId
        ensures { result.0 ≡ self.now.task }
    {
        self.seat.task()
    }

    /// The entries of the events that were sent, in their order.
    pub fn entries(&self) -> &[Entry]
        ensures { result.now ≡ self.now.entries }
    {
        self.seat.entries()
    }
}

/// The control, whose list is the journal's part of scans and control events.
///
/// Contracts see the entries.
#[derive(Drop)]
pub struct OwnedControl<N: Place> {
    pub(crate) control: Control,
    pub(crate) part: Part<Entry, N>,
}

impl<N: Place> Model for OwnedControl<N> {
    ghost use Rattle.std.specs.Prelude.{◌≡◌, List, None};
    ghost use Rattle.lp_log.specs.Entries.{Entry};

    ghost Value = { List Entry };

    ghost view = { λ c. c.control };

    ghost invariant = { λ c. (c.part.of ≡ None) × (c.part.sent ≡ c.control) };
}

impl<N: Place> OwnedControl<N> {
    /// The entries of the events that were sent, in their order.
    pub fn entries(&self) -> &[Entry]
        ensures { result.now ≡ self.now }
    {
        self.control.entries()
    }
}
