//! Events through a desk, whose readers read all along.
ghost use Rattle.std.specs.Prelude.{◌≡◌};
ghost use Rattle.lp_board.specs.Blanks.{name_of};

use crate::cost::events::{BOOTS, TASK, count_beside, event, patches};
use lp_board::{Blank, BoardReader, DeskName};
use lp_desk::{Desk, Launched, OpenGate};
use lp_log::Seat;
use lp_model::Consistency;
use lp_models::Hybrid;
use std::alloc::Global;
use std::marker::Brand;
use std::sync::Wait;
use std::sync::atomic::{AtomicU64, Ordering};
use std::thread::{self, Threads};

/// A reader gives up after so many reads.
const MOST_READS: u64 = 1_000_000_000;

/// How many reads so many readers had while the events were sent, each in a thread of its own; None where an event wasn't
/// taken. A board has one reader at least, which with 0 doesn't read.
pub fn desk<T: Threads + Wait + Sync>(rt: &T, alloc: Global, readers: usize) -> Option<u64> {
    let blank = Blank::new(alloc, Hybrid, patches(alloc)?, &BOOTS, readers.max(1)).ok()?;
    through::<T, Hybrid, Brand>(rt, alloc, blank, readers)
}

fn through<T: Threads + Wait + Sync, M: Consistency + Send + Sync, N: DeskName + Send + Sync>(
    rt: &T,
    alloc: Global,
    blank: Blank<M>,
    reading: usize,
) -> Option<u64>
    requires { name_of M.rules blank ≡ N.desk }
{
    let launched = Desk::<M, N, OpenGate, &T>::launch(rt, alloc, blank, 1, OpenGate).ok()?;
    let Launched {
        desk,
        mut seats,
        mut readers,
        ..
    } = launched;
    readers.truncate(reading);
    read_while_fed(rt, alloc, &desk, &mut seats, readers, count_beside(reading))
}

/// Sends so many events from a seat, while the readers read.
fn read_while_fed<
    T: Threads + Wait + Sync,
    M: Consistency + Send + Sync,
    N: DeskName + Send + Sync,
>(
    rt: &T,
    alloc: Global,
    desk: &Desk<M, N, OpenGate, &T>,
    seats: &mut Vec<Seat>,
    readers: Vec<BoardReader<N>>,
    count: u32,
) -> Option<u64> {
    let reads = AtomicU64::new(0);
    let counted = &reads;
    let fed = thread::scope(thread::scope_env(), rt, |scope| {
        for mut reader in readers {
            let looking = move || {
                counted.fetch_add(looks(&mut reader, count), Ordering::Relaxed);
            };
            if scope.spawn(looking).is_err() {
                return None;
            }
        }
        fed(rt, alloc, desk, seats, count)
    });
    fed?;
    Some(reads.load(Ordering::Relaxed))
}

/// Reads until all events are seen, and counts the reads.
fn looks<N: DeskName>(reader: &mut BoardReader<N>, count: u32) -> u64 {
    for read in 0..MOST_READS {
        if reader.seen() >= u64::from(count) || reader.state_of(TASK).is_none() {
            return read;
        }
    }
    MOST_READS
}

/// Sends so many events.
fn fed<T: Wait, M: Consistency, N: DeskName>(
    rt: &T,
    alloc: Global,
    desk: &Desk<M, N, OpenGate, &T>,
    seats: &mut Vec<Seat>,
    count: u32,
) -> Option<()> {
    let mut seat = seats.pop()?;
    for place in 0..count {
        seat = desk.submit(rt, alloc, seat, event(place)).ok()?.seat;
    }
    Some(())
}
