//! Events that no text can say, which are refused.
use super::*;
use lp_model::ForkKind;

const NONE: TaskId = TaskId(0);

const EVENTS: [(Event, Said); 8] = [
    (Event::Enter(ONE), Said::Done),
    (Event::Call(ONE, SymId(3)), Said::Refused(2)),
    (Event::Call(ONE, SymId(65_535)), Said::Refused(2)),
    (Event::Call(ONE, C), Said::Ran(0)),
    (Event::Fork(ONE, NONE, ForkKind::Own), Said::Refused(3)),
    (Event::Fork(ONE, NONE, ForkKind::Share), Said::Refused(3)),
    (Event::Fork(ONE, TaskId(65_535), ForkKind::Own), Said::Done),
    (Event::Enter(NONE), Said::Refused(1)),
];

/// Whether an engine says to each of these events what stands beside it.
fn says(alloc: Global, core: &mut Core<Hybrid>, rows: &[(Event, Said)]) -> bool {
    for (event, said) in rows {
        if reply_to(alloc, core, *event) != Some(*said) {
            return false;
        }
    }
    true
}

/// Whether an engine of task 1 says to each of `EVENTS` what stands beside it.
fn says_to_each(alloc: Global) -> bool {
    match start(alloc, Hybrid, &ALONE) {
        Some(mut core) => says(alloc, &mut core, &EVENTS),
        None => false,
    }
}

#[test]
fn symbols_and_tasks_out_of_range_are_refused(rt: HostRuntime) {
    assert!(rt; says_to_each(rt.alloc()));
}
