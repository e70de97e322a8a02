//! Events through a desk whose seats own their parts of the journal.
ghost use Rattle.std.specs.Prelude.{◌≡◌};
ghost use Rattle.lp_board.specs.Blanks.{name_of};

use crate::cost::events::{BOOTS, COUNT, event, patches};
use lp_models::Hybrid;
use lp_owned::{
    Consistency, DeskName, OpenGate, OwnedBlank, OwnedDesk, OwnedLaunched, OwnedSeat, Place,
};
use std::alloc::Global;
use std::marker::Brand;
use std::sync::Wait;

/// From a seat, while nobody reads or sends anything else; None where an event wasn't taken.
pub fn owned<T: Wait>(rt: &T, alloc: Global) -> Option<()> {
    let blank = OwnedBlank::new(alloc, Hybrid, patches(alloc)?, &BOOTS, 1).ok()?;
    through::<T, Hybrid, Brand>(rt, alloc, blank)
}

fn through<T: Wait, M: Consistency, N: DeskName + Place>(
    rt: &T,
    alloc: Global,
    blank: OwnedBlank<M>,
) -> Option<()>
    requires desk { name_of M.rules blank.start ≡ N.desk }
    requires table { blank.table ≡ N.table }
{
    let launched = OwnedDesk::<M, N, OpenGate, &T>::launch(rt, alloc, blank, 1, OpenGate).ok()?;
    let OwnedLaunched {
        desk,
        mut seats,
        readers,
        ..
    } = launched;
    drop(readers);
    fed(rt, alloc, &desk, &mut seats)
}

/// Sends all events.
fn fed<T: Wait, M: Consistency, N: DeskName + Place>(
    rt: &T,
    alloc: Global,
    desk: &OwnedDesk<M, N, OpenGate, &T>,
    seats: &mut Vec<OwnedSeat<N>>,
) -> Option<()> {
    let mut seat = seats.pop()?;
    for place in 0..COUNT {
        seat = desk.submit(rt, alloc, seat, event(place)).ok()?.seat;
    }
    Some(())
}
