//! Where the entries of a seat differ from its task's part.
ghost use Rattle.std.specs.Prelude.{◌≡◌, ◌<◌, ◌↔◌, ◌++◌, ◌∷◌, [], List, length, IsTrue, IfSome, MatchOption};
ghost use Rattle.lp_log.specs.Entries.{Entry};
ghost use Rattle.lp_log.specs.Audits.{control_part, part_of, DifferAt};
ghost use Rattle.lp_log.specs.inside.Cursors.{AllFollow, Follows, IsLeastDifference};
ghost use Rattle.lp_log.specs.Seats.{Seated};

use super::follow::followed_control;
use crate::cursor::Cursor;
use crate::{Entry, Seat};

/// The least task whose entries aren't its part, with the first place at which they differ; None where there is none.
pub(super) fn least_difference(seats: &[Seat], cursors: &[Cursor]) -> Option<(u16, usize)>
    requires { length cursors.now ≡ length seats.now }
    ensures { (entries : List Entry) → AllFollow entries seats.now cursors.now → IsLeastDifference entries seats.now result }
{
    let mut least: Option<(u16, usize)> = None;
    for (place, seat) in seats.iter().enumerate() {
        least = with_seat(least, seat, cursors[place]);
    }
    least
}

/// The least difference after a look at one seat more.
fn with_seat(least: Option<(u16, usize)>, seat: &Seat, cursor: Cursor) -> Option<(u16, usize)>
    ensures { (entries : List Entry) (before : List Seated) → Follows seat.now.entries (part_of seat.now.task entries) cursor → IsLeastDifference entries before least → IsLeastDifference entries (before ++ seat.now ∷ []) result }
{
    if !cursor.differs(seat.entries()) {
        return least;
    }
    let task = seat.task().0;
    if !is_below(task, least) {
        return least;
    }
    Some((task, cursor.at))
}

/// Whether a task is less than that of the least difference so far.
fn is_below(task: u16, least: Option<(u16, usize)>) -> bool
    ensures { IsTrue result ↔ IfSome least (λ found. task < found.0) }
{
    match least {
        Some((least, _)) => task < least,
        None => true,
    }
}

/// The first place at which the entries of the control aren't its part; None where there is none.
pub(super) fn control_difference(entries: &[Entry], control: &[Entry]) -> Option<usize>
    ensures { MatchOption result (control.now ≡ control_part entries.now) (λ place. DifferAt control.now (control_part entries.now) place) }
{
    let cursor = followed_control(entries, control);
    if cursor.differs(control) {
        Some(cursor.at)
    } else {
        None
    }
}
