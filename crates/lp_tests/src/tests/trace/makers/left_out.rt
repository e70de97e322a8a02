//! A walk of which the verdicts leave out a group that has changed since the last one.
ghost use Rattle.std.specs.Prelude.{◌≡◌, true, IfOk};
ghost use Rattle.lp_transition.specs.Scan.{is_scan_kind};
ghost use Rattle.lp_transition.specs.Weigh.{IsWeighed};

use super::*;

/// A walk finds a task held by a frame, and one on a CPU; then the first wakes up.
const HELD_AND_BUSY: &str =
    "lptrace 1\nsym a\nsym b\nsym c\npatch a\nboot 1 normal\nboot 2 normal\nenter 1\ncall 1 a\nsleep 1\nenter 2\nenable\nwalk\nwake 1\n";

/// A scan, weighed by the verdicts on those of whose groups no frame is known to keep them back.
fn open_scan<M: Consistency>(alloc: Global, core: &Core<M>, kind: CheckKind) -> Result<Step, Halt>
    requires { is_scan_kind kind ≡ true }
    ensures { IfOk result (λ step. IsWeighed M.rules core.now step) }
{
    let views = core.open_views(alloc)?;
    let found = scan_plain(alloc, core.model(), kind, &core.aim(), views.as_slice())?;
    core.weigh_open(alloc, kind, found.as_slice())
}

/// A maker notes such a walk. How many verdicts the walk has.
fn note(alloc: Global, core: &Core<Hybrid>, maker: &mut Maker) -> Result<usize, Halt> {
    let step = open_scan(alloc, core, CheckKind::Walk)?;
    maker.ready(alloc, core, &step)?;
    maker.note(core, &step);
    Ok(step.verdicts().len())
}

/// Whether a maker tells of both that each walk refused them.
fn tells_of_both(alloc: Global, maker: &Maker) -> bool {
    let held = [hold(1, 1, 2, 6, 8)];
    let is_busy = [busy(2, 2, 6), busy(2, 2, 8)];
    is_cert(
        maker.waiting(alloc, GroupId(1)),
        head(Claim::Waiting, 5, 1, 8),
        &held,
    ) && is_cert(
        maker.waiting(alloc, GroupId(2)),
        head(Claim::Waiting, 5, 2, 8),
        &is_busy,
    )
}

/// Whether it does after these events and a walk with one verdict.
fn tells_of_both_after(
    alloc: Global,
    core: &mut Core<Hybrid>,
    events: &[Event],
) -> Result<bool, Halt> {
    let mut maker = fed(alloc, core, events)?;
    Ok(note(alloc, core, &mut maker)? == 1 && tells_of_both(alloc, &maker))
}

/// Whether it does after the events of a trace.
fn tells_of_both_of(alloc: Global, trace: &Trace) -> bool {
    match boot(alloc, Hybrid, trace) {
        Some(mut core) => tells_of_both_after(alloc, &mut core, trace.events()) == Ok(true),
        None => false,
    }
}

/// Whether it does after such a walk.
fn both_are_told_of(alloc: Global) -> bool {
    match read(alloc, HELD_AND_BUSY) {
        Some(trace) => tells_of_both_of(alloc, &trace),
        None => false,
    }
}

#[test]
fn a_walk_that_leaves_out_a_changed_group_is_noted_whole(rt: HostRuntime) {
    assert!(rt; both_are_told_of(rt.alloc()));
}
