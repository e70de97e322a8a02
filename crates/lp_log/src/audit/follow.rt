//! One pass over the journal, with a cursor for each seat.
ghost use Rattle.std.specs.Prelude.{◌≡◌, ◌∷◌, ◌++◌, [], List, ℕ, None, false, length, replicate, IfOk};
ghost use Rattle.lp_log.specs.Entries.{Entry};
ghost use Rattle.lp_log.specs.Audits.{control_part};
ghost use Rattle.lp_log.specs.inside.Cursors.{AllFollow, AreDistinct, ArePlaces, Follows, cursor_at, place_at, place_of};
ghost use Rattle.lp_log.specs.Seats.{owner};

use crate::cursor::Cursor;
use crate::sender::owner;
use crate::{Entry, Seat};
use lp_numbers::NUMBERS;
use std::alloc::{AllocError, Global};

/// How far the entries of each seat follow its task's part.
pub(super) fn followed(
    alloc: Global,
    entries: &[Entry],
    seats: &[Seat],
) -> Result<Vec<Cursor>, AllocError>
    requires { AreDistinct seats.now }
    ensures { IfOk result (λ cursors. AllFollow entries.now seats.now cursors.items) }
{
    let places = places(alloc, seats)?;
    let mut cursors = starts(alloc, seats.len())?;
    for entry in entries {
        follow(cursors.as_mut_slice(), seats, places.as_slice(), entry);
    }
    Ok(cursors)
}

/// The next entry of the journal, which one of the cursors follows.
fn follow(cursors: &mut [Cursor], seats: &[Seat], places: &[Option<usize>], entry: &Entry)
    requires places { ArePlaces seats.now (length seats.now) places.now }
    requires count { length cursors.old ≡ length seats.now }
    ensures { (before : List Entry) → AllFollow before seats.now cursors.old → AllFollow (before ++ entry.now ∷ []) seats.now cursors.new }
{
    if let Some(place) = place_of(places, entry) {
        let cursor = cursors[place];
        cursors[place] = cursor.after(seats[place].entries(), entry);
    }
}

/// How far the entries of the control follow its part.
pub(super) fn followed_control(entries: &[Entry], control: &[Entry]) -> Cursor
    ensures { Follows control.now (control_part entries.now) result }
{
    let mut cursor = Cursor::start();
    for entry in entries {
        if owner(entry.event()).is_none() {
            cursor = cursor.after(control, entry);
        }
    }
    cursor
}

/// For each task number the place of its seat.
fn places(alloc: Global, seats: &[Seat]) -> Result<Vec<Option<usize>>, AllocError>
    requires { AreDistinct seats.now }
    ensures { IfOk result (λ places. ArePlaces seats.now (length seats.now) places.items) }
{
    let mut places = no_places(alloc)?;
    for (place, seat) in seats.iter().enumerate() {
        places[usize::from(seat.task().0)] = Some(place);
    }
    Ok(places)
}

/// The place of the seat of the task whose event the entry has, if there is one.
fn place_of(places: &[Option<usize>], entry: &Entry) -> Option<usize>
    requires { length places.now ≡ 65536 }
    ensures { result ≡ place_of places.now (owner entry.now.event) }
{
    match owner(entry.event()) {
        Some(task) => places[usize::from(task)],
        None => None,
    }
}

/// As many cursors as are asked for, before the first entry.
fn starts(alloc: Global, count: usize) -> Result<Vec<Cursor>, AllocError>
    ensures { IfOk result (λ cursors. cursors.items ≡ replicate count (cursor_at 0 false)) }
{
    vec![in alloc; Cursor { at: 0, off: false }; count]
}

/// For each task number none.
fn no_places(alloc: Global) -> Result<Vec<Option<usize>>, AllocError>
    ensures wide { IfOk result (λ places. length places.items ≡ 65536) }
    ensures none { IfOk result (λ places. (task : ℕ) → place_at places.items task ≡ None) }
{
    let mut places = Vec::with_capacity(alloc, NUMBERS)?;
    for _task in 0..NUMBERS {
        places.push(None)?;
    }
    Ok(places)
}
