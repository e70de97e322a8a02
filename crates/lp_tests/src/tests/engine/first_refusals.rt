//! Scans that ask of each group no more than it takes to know its first member that they refuse.
ghost use Rattle.std.specs.Prelude.{◌≡◌, true, IfOk};
ghost use Rattle.lp_transition.specs.Scan.{is_scan_kind};
ghost use Rattle.lp_transition.specs.Weigh.{IsWeighed};

use super::*;
use lp_model::{Blame, CheckKind, ForkKind, Verdict};
use lp_models::AllAtOnce;
use lp_process::ProcessGroup;

/// Three members of a group that waits: two sleep, and the second is on a CPU.
const BUSY: [Event; 6] = [
    Event::Enter(ONE),
    Event::Fork(ONE, TWO, ForkKind::Share),
    Event::Fork(ONE, THREE, ForkKind::Share),
    Event::Sleep(ONE),
    Event::Sleep(THREE),
    Event::Enable,
];

/// The same, where all sleep, and the second is in a call.
const HELD: [Event; 8] = [
    Event::Enter(ONE),
    Event::Fork(ONE, TWO, ForkKind::Share),
    Event::Fork(ONE, THREE, ForkKind::Share),
    Event::Call(TWO, A),
    Event::Sleep(ONE),
    Event::Sleep(TWO),
    Event::Sleep(THREE),
    Event::Enable,
];

/// Something happens to the first member.
const TOUCHED: [Event; 2] = [Event::Wake(ONE), Event::Sleep(ONE)];

/// The second member sleeps.
const ASLEEP: [Event; 1] = [Event::Sleep(TWO)];

/// The second member dies.
const DEAD: [Event; 1] = [Event::Die(TWO)];

/// The second member returns.
const RETURNED: [Event; 3] = [Event::Wake(TWO), Event::Ret(TWO), Event::Sleep(TWO)];

/// It returns, and then it dies.
const RETURNED_AND_DEAD: [Event; 3] = [Event::Wake(TWO), Event::Ret(TWO), Event::Die(TWO)];

const ONE_ADMITTED: Verdict = Verdict {
    task: ONE,
    blame: None,
};

const TWO_ADMITTED: Verdict = Verdict {
    task: TWO,
    blame: None,
};

const THREE_ADMITTED: Verdict = Verdict {
    task: THREE,
    blame: None,
};

const TWO_BUSY: Verdict = Verdict {
    task: TWO,
    blame: Some(Blame::Busy),
};

/// The second member is refused for its call, which was the fourth event.
const TWO_HELD: Verdict = Verdict {
    task: TWO,
    blame: Some(Blame::Frame(4)),
};

/// All members, each admitted.
const ALL: [Verdict; 3] = [ONE_ADMITTED, TWO_ADMITTED, THREE_ADMITTED];

/// Those that are left where the second died.
const OTHERS: [Verdict; 2] = [ONE_ADMITTED, THREE_ADMITTED];

/// Events, the verdicts of the scan after them, and whether the group switches at it.
pub(super) type Row = (&'static [Event], &'static [Verdict], bool);

/// Before the first scan nothing is known of who is admitted, so it looks at every member.
const FIRST_BUSY: Row = (&BUSY, &[ONE_ADMITTED, TWO_BUSY, THREE_ADMITTED], false);

/// The first member is admitted again and the second refused, so the third isn't looked at.
const STILL_BUSY: Row = (&TOUCHED, &[ONE_ADMITTED, TWO_BUSY], false);

/// As before: nobody is known of.
const FIRST_HELD: Row = (&HELD, &[ONE_ADMITTED, TWO_HELD, THREE_ADMITTED], false);

/// The frame of the second member still holds the group back, whatever happens to the first: nobody is looked at.
const STILL_HELD: Row = (&TOUCHED, &[], false);

/// Nobody is refused any longer, and each member that switches is looked at.
pub(super) const SLEEPS: [Row; 3] = [FIRST_BUSY, STILL_BUSY, (&ASLEEP, &ALL, true)];

/// The same, where the only one who might have been refused is no longer a member.
const DIES: [Row; 2] = [FIRST_BUSY, (&DEAD, &OTHERS, true)];

/// The second member returns, and the group switches.
const RETURNS: [Row; 3] = [FIRST_HELD, STILL_HELD, (&RETURNED, &ALL, true)];

/// It returns and dies, and the group switches.
const RETURNS_AND_DIES: [Row; 2] = [FIRST_HELD, (&RETURNED_AND_DEAD, &OTHERS, true)];

/// The event of a scan.
fn scan_of(kind: CheckKind) -> Event {
    match kind {
        CheckKind::Stop => Event::Stop,
        _ => Event::Walk,
    }
}

/// A scan, weighed after a look at no more members than it takes.
pub(super) fn weighed<M: Consistency>(
    alloc: Global,
    core: &Core<M>,
    kind: CheckKind,
) -> Result<Step, Halt>
    ensures { IfOk result (λ step. IsWeighed M.rules core.now step) }
{
    core.weigh_changed(alloc, scan_of(kind))
}

/// Whether a scan that looks at every member says this.
fn says_whole<M: Consistency>(alloc: Global, core: &Core<M>, kind: CheckKind, said: Said) -> bool
    requires { is_scan_kind kind ≡ true }
{
    match weigh_whole(alloc, core, kind) {
        Ok(step) => in_short(step.reply()) == said,
        Err(_) => false,
    }
}

/// Whether a scan has these verdicts.
fn has_found(scan: &Step, kind: CheckKind, found: &[Verdict]) -> bool {
    scan.event() == scan_of(kind) && scan.verdicts() == found
}

/// Whether such a scan, which is then taken, has these verdicts, and says this.
fn says_in_part<M: Consistency>(
    alloc: Global,
    core: &mut Core<M>,
    kind: CheckKind,
    found: &[Verdict],
    said: Said,
) -> bool {
    match weighed(alloc, core, kind) {
        Ok(scan) => {
            let right = has_found(&scan, kind, found);
            taken(core, scan) == said && right
        }
        Err(_) => false,
    }
}

/// What a scan says at which this group switches, or none.
fn said_of(group: u16, switches: bool) -> Said {
    if switches {
        Said::SwitchedLast(group)
    } else {
        Said::Done
    }
}

/// Whether the scan of a row turns out so, and as one does that looks at every member.
fn scans<M: Consistency>(
    alloc: Global,
    core: &mut Core<M>,
    kind: CheckKind,
    found: &[Verdict],
    said: Said,
) -> bool
    requires { is_scan_kind kind ≡ true }
{
    says_whole(alloc, core, kind, said) && says_in_part(alloc, core, kind, found, said)
}

/// Whether each of these rows does, for the group of task 1.
fn turn_out<M: Consistency>(
    alloc: Global,
    core: &mut Core<M>,
    kind: CheckKind,
    group: u16,
    rows: &[Row],
) -> bool
    requires { is_scan_kind kind ≡ true }
{
    for (events, found, switches) in rows {
        let said = said_of(group, *switches);
        if !give(alloc, core, *events) || !scans(alloc, core, kind, *found, said) {
            return false;
        }
    }
    true
}

/// The same, from the start of an engine with task 1.
fn turn_out_from_start<M: Consistency>(
    alloc: Global,
    model: M,
    kind: CheckKind,
    group: u16,
    rows: &[Row],
) -> bool
    requires { is_scan_kind kind ≡ true }
{
    match start(alloc, model, &ALONE) {
        Some(mut core) => turn_out(alloc, &mut core, kind, group, rows),
        None => false,
    }
}

/// The same of a group that a frame holds back, where its task returns, and where it dies then.
fn held_turn_out<M: Consistency>(alloc: Global, model: M, kind: CheckKind, group: u16) -> bool
    requires { is_scan_kind kind ≡ true }
{
    turn_out_from_start(alloc, model, kind, group, &RETURNS)
        && turn_out_from_start(alloc, model, kind, group, &RETURNS_AND_DIES)
}

/// The same of a group with a member on a CPU, where it sleeps, and where it dies.
fn busy_turn_out(alloc: Global) -> bool {
    turn_out_from_start(alloc, ProcessGroup, CheckKind::Walk, 1, &SLEEPS)
        && turn_out_from_start(alloc, ProcessGroup, CheckKind::Walk, 1, &DIES)
}

#[test]
fn a_process_is_asked_up_to_its_first_refusal(rt: HostRuntime) {
    assert!(rt; busy_turn_out(rt.alloc()));
}

#[test]
fn a_process_is_not_asked_while_a_frame_holds_it_back(rt: HostRuntime) {
    assert!(rt; held_turn_out(rt.alloc(), ProcessGroup, CheckKind::Walk, 1));
}

#[test]
fn nobody_is_asked_while_a_frame_holds_all_back(rt: HostRuntime) {
    assert!(rt; held_turn_out(rt.alloc(), AllAtOnce, CheckKind::Stop, 0));
}

/// Of tasks that wait, three sleep in the kernel, two of them in a call.
const CALLED: [Event; 9] = [
    Event::Enter(ONE),
    Event::Sleep(ONE),
    Event::Enter(TWO),
    Event::Call(TWO, A),
    Event::Sleep(TWO),
    Event::Enter(THREE),
    Event::Call(THREE, A),
    Event::Sleep(THREE),
    Event::Enable,
];

/// The third returns as well.
const THREE_RETURNED: [Event; 3] = [Event::Wake(THREE), Event::Ret(THREE), Event::Sleep(THREE)];

/// Events, how many verdicts a stop of 70 tasks has after them, and what it says. None, while the frame of the second task is
/// there; once it isn't those up to the third, who is refused.
const STOPS: [(&[Event], usize, Said); 4] = [
    (&CALLED, 70, Said::Done),
    (&TOUCHED, 0, Said::Done),
    (&RETURNED, 3, Said::Done),
    (&THREE_RETURNED, 70, Said::SwitchedLast(0)),
];

/// Whether a stop that is so weighed and then taken has so many verdicts, and says this.
fn stops(alloc: Global, core: &mut Core<AllAtOnce>, count: usize, said: Said) -> bool {
    match weighed(alloc, core, CheckKind::Stop) {
        Ok(scan) => {
            let right = scan.verdicts().len() == count;
            taken(core, scan) == said && right
        }
        Err(_) => false,
    }
}

/// Whether each of these stops turns out so.
fn stops_turn_out(alloc: Global, core: &mut Core<AllAtOnce>) -> bool {
    for (events, count, said) in &STOPS {
        if !give(alloc, core, *events) || !stops(alloc, core, *count, *said) {
            return false;
        }
    }
    true
}

/// The same of the tasks 1 to 70, more than a group has whose members are gone over one by one.
fn stops_of_70_turn_out(alloc: Global) -> bool {
    match start_with(alloc, AllAtOnce, 70) {
        Some(mut core) => stops_turn_out(alloc, &mut core),
        None => false,
    }
}

#[test]
fn a_large_group_is_asked_up_to_its_first_refusal(rt: HostRuntime) {
    assert!(rt; stops_of_70_turn_out(rt.alloc()));
}
