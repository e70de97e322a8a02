//! A walk that is judged over copies of the tasks.
use super::scans::{ASLEEP, RETURNS, judged_now, opened, takes_all};
use super::*;
use lp_log::Log;
use lp_model::{Blame, Verdict};
use lp_scan::Judged;

/// The walk that finds task 1 held by its call.
const REFUSED: Verdict = Verdict {
    task: ONE,
    blame: Some(Blame::Frame(2)),
};

/// Whether what was judged of a log's tasks refuses task 1, which then returns and switches.
fn switches_after(alloc: Global, log: &mut Log<Hybrid>, judged: &Judged<Hybrid>) -> bool {
    takes_all(alloc, log, &RETURNS)
        && judged.verdicts() == [REFUSED].as_slice()
        && answer_in_short(log.apply_judged(alloc, judged)) == Said::SwitchedLast(1)
}

/// Whether task 1 switches at a walk that was judged while it slept in its call.
fn switches<R: Threads + Sync>(rt: &R, alloc: Global, log: &mut Log<Hybrid>) -> bool {
    if !takes_all(alloc, log, &ASLEEP) {
        return false;
    }
    match judged_now(rt, alloc, log) {
        Some(judged) => switches_after(alloc, log, &judged),
        None => false,
    }
}

/// Whether the last entry of a log has this number.
fn ends_at(log: &Log<Hybrid>, number: u32) -> bool {
    match log.entries() {
        [.., last] => last.number() == number,
        [] => false,
    }
}

fn switches_at_first<R: Threads + Sync>(rt: &R, alloc: Global) -> bool {
    match opened(alloc) {
        Some((mut log, _)) => switches(rt, alloc, &mut log) && ends_at(&log, 8),
        None => false,
    }
}

/// The task returns and sleeps again before the walk is taken, and so it is looked at anew and switches.
#[test]
fn a_copy_that_has_changed_is_not_used(rt: HostRuntime) {
    assert!(rt; switches_at_first(&rt, rt.alloc()));
}
