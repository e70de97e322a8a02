//! The limits: 100 frames a task, and 1,000,000 events.
use super::*;
use lp_model::ForkKind;
use lp_stack::View;

/// Whether a view has this many frames, and the last of them this serial.
fn is_deep(view: &View<'_>, frames: usize, serial: u32) -> bool {
    match view.frames.last() {
        Some(last) => view.frames.len() == frames && last.serial == serial,
        None => false,
    }
}

/// Whether task 1 lives in a copy of the engine, and has 100 frames, the last of serial 104.
fn has_100_frames(stands: &Opening) -> bool {
    match stands.task(ONE) {
        Some(view) => is_deep(&view, 100, 104),
        None => false,
    }
}

const CALLS: [Event; 101] = [Event::Call(ONE, B); 101];

const AGAIN: [Event; 2] = [Event::Ret(ONE), Event::Call(ONE, B)];

/// Task 1 enters the kernel, calls `b` 101 times, returns and calls it once more.
fn call_deeply(alloc: Global, core: &mut Core<Hybrid>) -> bool {
    give(alloc, core, &[Event::Enter(ONE)])
        && give(alloc, core, &CALLS)
        && give(alloc, core, &AGAIN)
}

/// Whether it has 100 frames.
fn is_100_deep(alloc: Global, core: &Core<Hybrid>) -> bool {
    match core.standing(alloc) {
        Ok(stands) => has_100_frames(&stands),
        Err(_) => false,
    }
}

/// Whether an engine of task 1 does after this.
fn calls_100_deep(alloc: Global) -> bool {
    match start(alloc, Hybrid, &ALONE) {
        Some(mut core) => call_deeply(alloc, &mut core) && is_100_deep(alloc, &core),
        None => false,
    }
}

/// What an engine says to these events is a row of lp_rows.
#[test]
fn a_task_has_at_most_100_frames(rt: HostRuntime) {
    assert!(rt; calls_100_deep(rt.alloc()));
}

const ENTER_AND_EXIT: [Event; 2] = [Event::Enter(ONE), Event::Exit(ONE)];

/// Task 1 enters the kernel and leaves it, 500,000 times.
fn give_a_million(alloc: Global, core: &mut Core<Hybrid>) -> bool {
    for _ in 0..500_000 {
        if !give(alloc, core, &ENTER_AND_EXIT) {
            return false;
        }
    }
    true
}

/// Whether an engine has no room for an event.
fn is_full(alloc: Global, core: &mut Core<Hybrid>, event: Event) -> bool {
    core.step(alloc, event).err() == Some(Halt::JournalFull)
}

/// Whether an engine has no room for an event after a million.
fn is_filled(alloc: Global, core: &mut Core<Hybrid>) -> bool {
    give_a_million(alloc, core)
        && is_full(alloc, core, Event::Enter(ONE))
        && core.events() == 1_000_000
}

/// Whether an engine of task 1 has none.
fn fills_up(alloc: Global) -> bool {
    match start(alloc, Hybrid, &ALONE) {
        Some(mut core) => is_filled(alloc, &mut core),
        None => false,
    }
}

#[test]
fn a_million_events_are_numbered(rt: HostRuntime) {
    assert!(rt; fills_up(rt.alloc()));
}

/// An event of each kind.
const EACH_KIND: [Event; 15] = [
    Event::Call(ONE, A),
    Event::Ret(ONE),
    Event::Sleep(ONE),
    Event::Wake(ONE),
    Event::Enter(ONE),
    Event::Exit(ONE),
    Event::Idle(ONE),
    Event::Resched(ONE),
    Event::Fork(ONE, TWO, ForkKind::Own),
    Event::Die(ONE),
    Event::Walk,
    Event::Stop,
    Event::Enable,
    Event::Disable,
    Event::Reverse,
];

/// Whether an engine of no task refuses an event, 1,000,000 times.
fn refuses_a_million(alloc: Global, core: &mut Core<Hybrid>) -> bool {
    for _ in 0..1_000_000 {
        if reply_to(alloc, core, Event::Enter(ONE)) != Some(Said::Refused(1)) {
            return false;
        }
    }
    true
}

/// Whether an engine has no room for an event of any kind, and stays as it is.
fn is_full_for_all(alloc: Global, core: &mut Core<Hybrid>) -> bool {
    for event in &EACH_KIND {
        if !is_full(alloc, core, *event) {
            return false;
        }
    }
    core.events() == 1_000_000 && !core.in_transition()
}

/// Whether an engine of no task is full for all after a million that it refuses.
fn fills_up_by_refusals(alloc: Global) -> bool {
    match start(alloc, Hybrid, &[]) {
        Some(mut core) => refuses_a_million(alloc, &mut core) && is_full_for_all(alloc, &mut core),
        None => false,
    }
}

#[test]
fn refused_events_are_numbered_too(rt: HostRuntime) {
    assert!(rt; fills_up_by_refusals(rt.alloc()));
}
