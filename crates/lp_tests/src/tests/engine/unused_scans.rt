//! Scans of a kind that the model doesn't use.

use super::*;

/// Two tasks that wait come to sleep, of which the second is in a call.
const ASLEEP: [Event; 6] = [
    Event::Enter(ONE),
    Event::Sleep(ONE),
    Event::Enter(TWO),
    Event::Call(TWO, A),
    Event::Sleep(TWO),
    Event::Enable,
];

/// Whether a stop has no verdicts, and nothing comes of it.
fn stops_in_vain(alloc: Global, core: &Core<Hybrid>) -> bool {
    match core.weigh_changed(alloc, Event::Stop) {
        Ok(stop) => stop.verdicts().is_empty() && matches!(&stop.reply().what, What::Done),
        Err(_) => false,
    }
}

/// Whether one does where the second of two tasks is in a call.
fn stops_in_vain_in_a_call(alloc: Global) -> bool {
    match start(alloc, Hybrid, &BOTH) {
        Some(mut core) => give(alloc, &mut core, &ASLEEP) && stops_in_vain(alloc, &core),
        None => false,
    }
}

#[test]
fn a_scan_that_is_not_used_looks_at_nobody(rt: HostRuntime) {
    assert!(rt; stops_in_vain_in_a_call(rt.alloc()));
}
