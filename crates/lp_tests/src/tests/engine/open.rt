//! Scans of the groups without a standing blame.
ghost use Rattle.std.specs.Prelude.{◌≡◌, true, IfOk};
ghost use Rattle.lp_transition.specs.Scan.{is_scan_kind, scan_event};
ghost use Rattle.lp_transition.specs.Weigh.{IsWeighed};

use super::*;
use lp_model::CheckKind;
use lp_transition::StandingBlame;

/// A task that waits and sleeps in a call.
const HELD: [Event; 4] = [
    Event::Enter(ONE),
    Event::Call(ONE, A),
    Event::Sleep(ONE),
    Event::Enable,
];

/// It returns from the call, in the kernel.
const RETURNS: [Event; 2] = [Event::Wake(ONE), Event::Ret(ONE)];

/// A scan, weighed after a look at the open groups alone.
fn open_scan<M: Consistency>(alloc: Global, core: &Core<M>, kind: CheckKind) -> Result<Step, Halt>
    requires { is_scan_kind kind ≡ true }
    ensures { IfOk result (λ step. IsWeighed M.rules core.now step) }
{
    let views = core.open_views(alloc)?;
    let found = scan_plain(alloc, core.model(), kind, &core.aim(), views.as_slice())?;
    core.weigh_open(alloc, kind, found.as_slice())
}

/// Whether so many views are open.
fn are_open(alloc: Global, core: &Core<Hybrid>, count: usize) -> bool {
    match core.open_views(alloc) {
        Ok(views) => views.len() == count,
        Err(_) => false,
    }
}

/// Whether the group of task 1 is known to be held by frame 2.
fn is_held(core: &Core<Hybrid>) -> bool {
    match core.standing_blame(GroupId(1)) {
        Some(StandingBlame { task, serial }) => task == ONE && serial == 2,
        None => false,
    }
}

/// Whether the group of task 1 is open.
fn is_open(alloc: Global, core: &Core<Hybrid>) -> bool {
    are_open(alloc, core, 1) && !is_held(core)
}

/// Whether a walk of the open groups, which is then taken, says that nobody switches.
fn walks_in_vain(alloc: Global, core: &mut Core<Hybrid>) -> bool {
    match open_scan(alloc, core, CheckKind::Walk) {
        Ok(scan) => taken(core, scan) == Said::Done,
        Err(_) => false,
    }
}

/// Whether the group is open up to a walk, and closed after it.
fn closes(alloc: Global, core: &mut Core<Hybrid>) -> bool {
    is_open(alloc, core)
        && walks_in_vain(alloc, core)
        && are_open(alloc, core, 0)
        && is_held(core)
        && walks_in_vain(alloc, core)
}

/// Whether the group is open after the return.
fn opens(alloc: Global, core: &mut Core<Hybrid>) -> bool {
    give(alloc, core, &RETURNS) && is_open(alloc, core)
}

/// Whether that of a task in a call is.
fn closes_for_a_call(alloc: Global) -> bool {
    match start(alloc, Hybrid, &ALONE) {
        Some(mut core) => {
            give(alloc, &mut core, &HELD) && closes(alloc, &mut core) && opens(alloc, &mut core)
        }
        None => false,
    }
}

#[test]
fn a_held_group_is_closed_until_its_frame_is_popped(rt: HostRuntime) {
    assert!(rt; closes_for_a_call(rt.alloc()));
}

/// It finds by itself that it is in the call.
const ASKS_ITSELF: [Event; 4] = [
    Event::Enter(ONE),
    Event::Call(ONE, A),
    Event::Enable,
    Event::Resched(ONE),
];

/// Whether the group is closed after it, and open again once the task has returned.
fn closes_by_itself(alloc: Global) -> bool {
    match start(alloc, Hybrid, &ALONE) {
        Some(mut core) => {
            give(alloc, &mut core, &ASKS_ITSELF)
                && are_open(alloc, &core, 0)
                && is_held(&core)
                && give(alloc, &mut core, &[Event::Ret(ONE)])
                && is_open(alloc, &core)
        }
        None => false,
    }
}

#[test]
fn an_own_check_that_finds_a_frame_closes_its_group(rt: HostRuntime) {
    assert!(rt; closes_by_itself(rt.alloc()));
}

/// A task that waits on a CPU.
const BUSY: [Event; 3] = [Event::Enter(ONE), Event::Call(ONE, C), Event::Enable];

/// Whether there is one open view after a walk.
fn stays_open(alloc: Global, core: &mut Core<Hybrid>) -> bool {
    walks_in_vain(alloc, core) && are_open(alloc, core, 1)
}

/// Whether there is after each of two walks, where a task is busy.
fn stays_open_for_a_busy_task(alloc: Global) -> bool {
    match start(alloc, Hybrid, &ALONE) {
        Some(mut core) => {
            give(alloc, &mut core, &BUSY)
                && stays_open(alloc, &mut core)
                && stays_open(alloc, &mut core)
        }
        None => false,
    }
}

#[test]
fn a_busy_task_leaves_its_group_open(rt: HostRuntime) {
    assert!(rt; stays_open_for_a_busy_task(rt.alloc()));
}
