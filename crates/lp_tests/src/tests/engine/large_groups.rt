//! How many tasks a scan looks at that leaves out what it knows.

use super::*;
use lp_models::AllAtOnce;

const HELD: [Event; 6] = [
    Event::Enter(ONE),
    Event::Enter(TWO),
    Event::Call(TWO, A),
    Event::Enter(THREE),
    Event::Call(THREE, A),
    Event::Enable,
];

/// Whether a stop looks at so many tasks, which is then taken.
fn stop_looks_at(alloc: Global, core: &mut Core<AllAtOnce>, count: usize) -> bool {
    match core.weigh_changed(alloc, Event::Stop) {
        Ok(step) => {
            let right = step.verdicts().len() == count;
            core.take(step);
            right
        }
        Err(_) => false,
    }
}

/// An event, and at how many tasks a stop looks after it.
type Look = (Event, usize);

/// The looks in a group of three. The first knows nothing. The frame of the second task holds the group back, whatever else is
/// on its stack, so nobody is looked at; once it is gone the third is refused, and at last all switch.
const IN_A_GROUP_OF_3: [Look; 5] = [
    (Event::Wake(ONE), 3),
    (Event::Call(TWO, A), 0),
    (Event::Ret(TWO), 0),
    (Event::Ret(TWO), 2),
    (Event::Ret(THREE), 3),
];

/// Likewise in one of a hundred.
const IN_A_GROUP_OF_100: [Look; 5] = [
    (Event::Wake(ONE), 100),
    (Event::Call(TWO, A), 0),
    (Event::Ret(TWO), 0),
    (Event::Ret(TWO), 2),
    (Event::Ret(THREE), 100),
];

/// Whether a stop looks at so many tasks after an event.
fn looks(alloc: Global, core: &mut Core<AllAtOnce>, look: &Look) -> bool {
    give(alloc, core, &[look.0]) && stop_looks_at(alloc, core, look.1)
}

/// Whether stops do.
fn all_look(alloc: Global, core: &mut Core<AllAtOnce>, rows: &[Look]) -> bool {
    for look in rows {
        if !looks(alloc, core, look) {
            return false;
        }
    }
    true
}

/// The same in a group of so many tasks, of which the second and the third are in a call of a function that changes.
fn look_in_a_group(alloc: Global, count: u16, rows: &[Look]) -> bool {
    match start_with(alloc, AllAtOnce, count) {
        Some(mut core) => give(alloc, &mut core, &HELD) && all_look(alloc, &mut core, rows),
        None => false,
    }
}

#[test]
fn a_group_is_asked_up_to_its_first_refusal(rt: HostRuntime) {
    assert!(rt; look_in_a_group(rt.alloc(), 3, &IN_A_GROUP_OF_3));
    assert!(rt; look_in_a_group(rt.alloc(), 100, &IN_A_GROUP_OF_100));
}
