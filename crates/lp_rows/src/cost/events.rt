//! The events that are timed: a task enters the kernel and leaves it, again and again.

use lp_patch::PatchStack;
use lp_stack::{Class, TaskId};
use lp_trace::{Trace, stack};
use lp_transition::Event;
use std::alloc::Global;

/// How many events are sent.
pub const COUNT: u32 = 1_000_000;

/// How many are sent while so many readers read. Each event waits for the readers that are inside a read, and of many more readers
/// than processors some stand still there until they have their turn again: beside 64 an event took a tenth of a second on four
/// processors.
pub fn count_beside(readers: usize) -> u32 {
    match readers {
        0..=8 => COUNT,
        _ => COUNT / 10_000,
    }
}

pub const TASK: TaskId = TaskId(1);

pub const BOOTS: [(TaskId, Class); 1] = [(TASK, Class::Normal)];

/// The event at a place.
pub fn event(place: u32) -> Event {
    if place % 2 == 0 {
        Event::Enter(TASK)
    } else {
        Event::Exit(TASK)
    }
}

/// A stack of one patch of one function.
pub fn patches(alloc: Global) -> Option<PatchStack> {
    let trace = Trace::read(alloc, b"lptrace 1\nsym a\npatch a\n").ok()?;
    stack(alloc, &trace).ok()
}
