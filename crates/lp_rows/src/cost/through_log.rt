//! Events by an engine alone, and through a log.

use crate::cost::events::{BOOTS, COUNT, event, patches};
use lp_log::{Log, Opened, Seat};
use lp_models::Hybrid;
use lp_transition::Core;
use std::alloc::Global;

/// By an engine alone; None where one wasn't taken.
pub fn core(alloc: Global) -> Option<()> {
    let mut core = Core::boot(alloc, Hybrid, patches(alloc)?, &BOOTS).ok()?;
    stepped(alloc, &mut core)
}

fn stepped(alloc: Global, core: &mut Core<Hybrid>) -> Option<()> {
    for place in 0..COUNT {
        core.step(alloc, event(place)).ok()?;
    }
    Some(())
}

/// Through a log, from a seat; None where one wasn't taken.
pub fn log(alloc: Global) -> Option<()> {
    let opened = Log::open(alloc, Hybrid, patches(alloc)?, &BOOTS).ok()?;
    let Opened {
        mut log,
        mut seats,
        ..
    } = opened;
    fed(alloc, &mut log, &mut seats)
}

fn fed(alloc: Global, log: &mut Log<Hybrid>, seats: &mut Vec<Seat>) -> Option<()> {
    let mut seat = seats.pop()?;
    for place in 0..COUNT {
        seat = log.submit(alloc, seat, event(place)).ok()?.seat;
    }
    Some(())
}
