//! An allocation that fails: the same check succeeds after it.
//!
//! `scripts/refuse-memory` runs this test with each allocation refused in turn.
use super::*;
use crate::tests::trace::again::booted_again;
use lp_model::ForkKind;

/// The events up to the opening of a leg, and those of the leg, in which a task that waits forks and
/// switches; its child doesn't.
const BEFORE: [Event; 2] = [Event::Enter(TaskId(1)), Event::Enable];

const AFTER: [Event; 6] = [
    Event::Walk,
    Event::Fork(TaskId(1), TaskId(2), ForkKind::Own),
    Event::Exit(TaskId(1)),
    Event::Call(TaskId(2), SymId(0)),
    Event::Sleep(TaskId(2)),
    Event::Walk,
];

/// Gives these events to an engine, each again where an allocation fails.
fn give_again(alloc: Global, core: &mut Core<Hybrid>, events: &[Event]) -> Result<(), Halt> {
    for event in events {
        match core.step(alloc, *event) {
            Err(Halt::NoMemory) => core.step(alloc, *event)?,
            answer => answer?,
        };
    }
    Ok(())
}

/// The opening of the leg that `BEFORE` opens, each call made again where an allocation fails.
fn opening_again(alloc: Global, core: &mut Core<Hybrid>) -> Result<Box<Opening>, Halt> {
    give_again(alloc, core, &BEFORE)?;
    match standing(alloc, core) {
        Ok(opening) => Ok(opening),
        Err(_) => Ok(standing(alloc, core)?),
    }
}

/// The same, of an engine of one task.
fn opened_again(alloc: Global) -> Option<Box<Opening>> {
    match booted_again(alloc) {
        Some(mut core) => opening_again(alloc, &mut core).ok(),
        None => None,
    }
}

/// The child's certificate.
const WHOLE: Judged = Judged(
    2,
    2,
    8,
    &[
        Reason::Busy(1, 1, 3),
        Reason::Born(2, 1, 4),
        Reason::Hold(2, 2, 6, 8, 8),
    ],
    Ok(()),
);

/// The same, with a walk that finds the child on a CPU.
const WRONG: Judged = Judged(
    2,
    2,
    8,
    &[
        Reason::Busy(1, 1, 3),
        Reason::Born(2, 1, 4),
        Reason::Busy(2, 2, 8),
    ],
    Err(CertFault::NoBlame(8)),
);

/// A certificate, made again where an allocation fails.
fn cert_again(alloc: Global, claim: Claim, judged: &Judged) -> Result<Cert, AllocError> {
    match judged.cert(alloc, claim) {
        Err(_) => judged.cert(alloc, claim),
        made => made,
    }
}

/// What the check answers to a certificate, asked again where an allocation fails.
fn answer_again(alloc: Global, opening: &Opening, cert: &Cert) -> Result<(), CertFault> {
    match answer_to(alloc, Hybrid, opening, &AFTER, cert) {
        Err(CertFault::NoMemory) => answer_to(alloc, Hybrid, opening, &AFTER, cert),
        answer => answer,
    }
}

/// Whether a certificate of the child has its answer, each call made again where an allocation fails.
fn is_answered(alloc: Global, opening: &Opening, claim: Claim, judged: &Judged) -> bool {
    match cert_again(alloc, claim, judged) {
        Ok(cert) => answer_again(alloc, opening, &cert) == judged.answer(),
        Err(_) => false,
    }
}

/// Whether both have it with each claim.
fn are_answered(alloc: Global, opening: &Opening) -> bool {
    is_answered(alloc, opening, Claim::Waiting, &WHOLE)
        && is_answered(alloc, opening, Claim::Waiting, &WRONG)
        && is_answered(alloc, opening, Claim::Floor, &WHOLE)
        && is_answered(alloc, opening, Claim::Floor, &WRONG)
}

/// Whether they have in the child's leg.
fn are_answered_again(alloc: Global) -> bool {
    match opened_again(alloc) {
        Some(opening) => are_answered(alloc, &opening),
        None => false,
    }
}

#[test]
fn certificates_are_judged_after_a_failed_allocation(rt: HostRuntime) {
    assert!(rt; are_answered_again(rt.alloc()));
}
