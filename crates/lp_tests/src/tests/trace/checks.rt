//! What the checker answers to certificates that no text has: with numbers past every text, and
//! with the claim of the other call.
mod memory;

use super::*;
use lp_cert::{Cert, LineList};
use lp_checker::{CertFault, check_floor, check_waiting, laws};
use lp_process::ProcessGroup;
use lp_transition::{Halt, Opening};
use std::alloc::AllocError;

/// A line: its group, its task, a frame's serial and the events.
#[derive(Clone, Copy)]
enum Reason {
    Hold(u16, u16, u64, u64, u64),
    Busy(u16, u16, u64),
    Born(u16, u16, u64),
}

impl Reason {
    fn line(self) -> Line {
        match self {
            Reason::Hold(group, task, serial, from, to) => hold(group, task, serial, from, to),
            Reason::Busy(group, task, at) => busy(group, task, at),
            Reason::Born(group, parent, at) => born(group, parent, at),
        }
    }
}

/// A certificate, and what the checker answers to it: its leg, its group, the event up to which it
/// is, its lines, and the answer.
#[derive(Clone, Copy)]
struct Judged(u64, u16, u64, &'static [Reason], Result<(), CertFault>);

impl Judged {
    fn answer(&self) -> Result<(), CertFault> {
        let Judged(_, _, _, _, answer) = *self;
        answer
    }

    /// The certificate, with this claim.
    fn cert(&self, alloc: Global, claim: Claim) -> Result<Cert, AllocError> {
        let Judged(leg, group, upto, reasons, _) = *self;
        let mut lines = Vec::new(alloc);
        for reason in reasons {
            lines.push(reason.line())?;
        }
        Ok(Cert {
            claim,
            leg,
            group: GroupId(group),
            upto,
            lines: LineList::from_vec(lines),
        })
    }
}

/// The opening of an engine's leg, in a box.
fn standing<M: Consistency>(alloc: Global, core: &Core<M>) -> Result<Box<Opening>, AllocError> {
    Ok(Box::new(alloc, core.standing(alloc)?)?)
}

/// The opening of the leg that the last of these events opens.
fn opening_after<M: Consistency>(
    alloc: Global,
    core: &mut Core<M>,
    before: &[Event],
) -> Result<Box<Opening>, Halt> {
    for event in before {
        core.step(alloc, *event)?;
    }
    Ok(standing(alloc, core)?)
}

/// The same, of the engine of a trace.
fn opened<M: Consistency>(
    alloc: Global,
    model: M,
    trace: &Trace,
    before: &[Event],
) -> Option<Box<Opening>> {
    match boot(alloc, model, trace) {
        Some(mut core) => opening_after(alloc, &mut core, before).ok(),
        None => None,
    }
}

/// What the check of its claim answers to a certificate of a leg with these events.
fn answer_to<M: Consistency>(
    alloc: Global,
    model: M,
    opening: &Opening,
    after: &[Event],
    cert: &Cert,
) -> Result<(), CertFault> {
    match cert.claim {
        Claim::Waiting => check_waiting(alloc, model, opening, after, cert),
        Claim::Floor => check_floor(alloc, model, opening, after, cert),
    }
}

/// A task sleeps in a changed function during a walk, and switches when it leaves the kernel. The
/// fourth of the eight events opens the leg.
const SLEEPS: &str =
    "lptrace 1\nsym a\nsym b\nsym c\npatch a\nboot 1 normal\nenter 1\ncall 1 a\nsleep 1\nenable\nwalk\nwake 1\nret 1\nexit 1\n";

const HELD: Reason = Reason::Hold(1, 1, 2, 5, 5);

/// With numbers that no text can have. They are refused as floors and where a group is to wait.
const PAST_LIMITS: [Judged; 9] = [
    Judged(u64::MAX, 1, 7, &[HELD], Err(CertFault::NoLeg)),
    Judged(4, 1, u64::MAX, &[HELD], Err(CertFault::NoLeg)),
    Judged(4, 1, u64::MAX, &[], Err(CertFault::NoLeg)),
    Judged(u64::MAX, 1, u64::MAX, &[HELD], Err(CertFault::NoLeg)),
    Judged(
        4,
        1,
        7,
        &[Reason::Hold(1, 1, u64::MAX, 5, 5)],
        Err(CertFault::NoBlame(5)),
    ),
    Judged(
        4,
        1,
        7,
        &[Reason::Hold(1, 1, 2, u64::MAX, 5)],
        Err(CertFault::NoBlame(u64::MAX)),
    ),
    Judged(
        4,
        1,
        7,
        &[Reason::Hold(1, 1, 2, 5, u64::MAX)],
        Err(CertFault::NoBlame(5)),
    ),
    Judged(
        4,
        1,
        7,
        &[Reason::Busy(1, 1, u64::MAX)],
        Err(CertFault::NoBlame(u64::MAX)),
    ),
    Judged(
        4,
        1,
        7,
        &[Reason::Born(1, 1, u64::MAX)],
        Err(CertFault::BadBirth(u64::MAX)),
    ),
];

/// Whether a certificate of a leg with these events has its answer, with this claim.
fn is_judged(
    alloc: Global,
    opening: &Opening,
    after: &[Event],
    claim: Claim,
    judged: &Judged,
) -> bool {
    match judged.cert(alloc, claim) {
        Ok(cert) => answer_to(alloc, Hybrid, opening, after, &cert) == judged.answer(),
        Err(_) => false,
    }
}

/// Whether each of them has, with either claim.
fn are_judged(alloc: Global, opening: &Opening, after: &[Event]) -> bool {
    for judged in &PAST_LIMITS {
        if !is_judged(alloc, opening, after, Claim::Waiting, judged)
            || !is_judged(alloc, opening, after, Claim::Floor, judged)
        {
            return false;
        }
    }
    true
}

/// Whether they have in the leg that the fourth event of a trace opens.
fn are_judged_in(alloc: Global, trace: &Trace) -> bool {
    let events = trace.events();
    if events.len() != 8 {
        return false;
    }
    match opened(alloc, Hybrid, trace, &events[..4]) {
        Some(opening) => are_judged(alloc, &opening, &events[4..]),
        None => false,
    }
}

/// Whether they have where the task sleeps.
fn are_judged_asleep(alloc: Global) -> bool {
    match read(alloc, SLEEPS) {
        Some(trace) => are_judged_in(alloc, &trace),
        None => false,
    }
}

#[test]
fn numbers_past_every_text_are_judged(rt: HostRuntime) {
    assert!(rt; are_judged_asleep(rt.alloc()));
}

/// Whether a certificate that a group waits is refused as a floor.
fn is_no_floor<M: Consistency>(
    alloc: Global,
    model: M,
    opening: &Opening,
    after: &[Event],
    judged: &Judged,
) -> bool {
    match judged.cert(alloc, Claim::Waiting) {
        Ok(cert) => check_floor(alloc, model, opening, after, &cert) == Err(CertFault::NoLeg),
        Err(_) => false,
    }
}

/// Whether a floor is refused as a certificate that a group waits.
fn is_nobody_waiting<M: Consistency>(
    alloc: Global,
    model: M,
    opening: &Opening,
    after: &[Event],
    judged: &Judged,
) -> bool {
    match judged.cert(alloc, Claim::Floor) {
        Ok(cert) => check_waiting(alloc, model, opening, after, &cert) == Err(CertFault::NoLeg),
        Err(_) => false,
    }
}

/// Whether each check refuses a certificate of the other claim, after so many events of a trace.
fn is_refused_after<M: Consistency + Copy>(
    alloc: Global,
    model: M,
    trace: &Trace,
    count: usize,
    judged: &Judged,
) -> bool {
    let events = trace.events();
    if count > events.len() {
        return false;
    }
    match opened(alloc, model, trace, &events[..count]) {
        Some(opening) => {
            is_no_floor(alloc, model, &opening, &events[count..], judged)
                && is_nobody_waiting(alloc, model, &opening, &events[count..], judged)
        }
        None => false,
    }
}

/// The same of the trace of a text.
fn other_is_refused<M: Consistency + Copy>(
    alloc: Global,
    model: M,
    text: &str,
    count: usize,
    judged: &Judged,
) -> bool {
    match read(alloc, text) {
        Some(trace) => is_refused_after(alloc, model, &trace, count, judged),
        None => false,
    }
}

const ASLEEP: Judged = Judged(4, 1, 7, &[HELD], Ok(()));

/// Each check is of its own claim, also where the lines would do.
#[test]
fn another_claim_is_refused(rt: HostRuntime) {
    assert!(rt; other_is_refused(rt.alloc(), Hybrid, SLEEPS, 4, &ASLEEP));
}

/// One thread of a process sleeps in a changed function while the other leaves the kernel. The sixth
/// event opens the leg.
const A_THREAD_SLEEPS: &str =
    "lptrace 1\nsym a\nsym b\nsym c\npatch a\nboot 1 normal\nenter 1\nfork 1 2 share\nexit 1\ncall 2 a\nsleep 2\nenable\nwalk\nenter 1\nexit 1\n";

const A_THREAD_ASLEEP: Judged = Judged(6, 1, 9, &[Reason::Hold(1, 2, 4, 7, 7)], Ok(()));

#[test]
fn another_claim_of_a_process_is_refused(rt: HostRuntime) {
    assert!(rt;
        other_is_refused(
            rt.alloc(),
            ProcessGroup,
            A_THREAD_SLEEPS,
            6,
            &A_THREAD_ASLEEP
        )
    );
}

#[test]
fn faults_have_numbers(rt: HostRuntime) {
    assert!(rt; CertFault::NoSuchGroup.number() == 1);
    assert!(rt; CertFault::NoMemory.number() == 7);
}

#[test]
fn laws_are_called(_rt: HostRuntime) {
    lp_worked_laws::worked_rows();
    lp_worked_laws::worked_certificates();
    lp_worked_laws::worked_faults();
    lp_worked_laws::headline_refuses();
    laws::accepted_certificates_hold::<Hybrid>();
    laws::made_certificates_are_accepted::<Hybrid>();
    lp_trace::laws::one_outcome_a_report();
    lp_trace::laws::runs_fit_reports::<Hybrid>();
    lp_trace::laws::reports_tell_runs::<Hybrid, Hybrid>();
}
