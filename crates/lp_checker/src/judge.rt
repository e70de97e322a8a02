//! The judgement of a certificate.
ghost use Rattle.std.specs.Prelude.{◌≡◌, ◌⊎◌, true, None, Some, Ok, Err, IfOk, MatchResult};
ghost use Rattle.lp_definitions.specs.Tasks.{first_of};
ghost use Rattle.lp_checker.specs.Folds.{leg_with};
ghost use Rattle.lp_definitions.specs.Holds.{Holds};
ghost use Rattle.lp_definitions.specs.Judgement.{births, no_leg, cert_fault};
ghost use Rattle.lp_checker.specs.inside.Cursors.{leg_in};
ghost use Rattle.lp_checker.specs.inside.Sections.{AreInOrder};
ghost use Rattle.lp_checker.specs.inside.Stages.{chain_tests, later_tests};
ghost use Rattle.lp_definitions.specs.declared.cert_fault.CertFault.TheVariants.{NoLeg};

use crate::births::birth_fault;
use crate::cursor::Cursor;
use crate::gaps::gap_fault;
use crate::groups::{first_group, is_no_such_group};
use crate::lines::line_fault;
use crate::sections::sections;
use lp_definitions::{Cert, CertFault, Claim, Event, Line, MOST_EVENTS};
use lp_model::Consistency;
use lp_stack::GroupId;
use lp_tasks::Opening;
use std::alloc::{AllocError, Global};

/// Judges a certificate which says that its group still waits after event `upto` of the run, in the
/// leg with this opening and these events, of which control events change nothing.
///
/// # Errors
/// The first fault: C6 for another claim or leg, or an end outside of the leg or past event
/// 1,000,000; C5 for the first `born` line at fault; C1 for a group that is none; C3 or C2 for the
/// first other line at fault; C4 for the first check that no line covers. C7 (`NoMemory`) comes in
/// place of any answer but C6, only where an allocation failed.
pub fn check_waiting<M: Consistency>(
    alloc: Global,
    model: M,
    opening: &Opening,
    events: &[Event],
    cert: &Cert,
) -> Result<(), CertFault>
    ensures answer { MatchResult result (λ _. cert_fault M.rules (leg_with opening.now events.now) Claim.Waiting cert.now ≡ None) (λ fault. fault ≡ CertFault.NoMemory ⊎ cert_fault M.rules (leg_with opening.now events.now) Claim.Waiting cert.now ≡ Some fault) }
    // C6 comes before anything is allocated, so want of memory is never told in its place.
    ensures early { cert_fault M.rules (leg_with opening.now events.now) Claim.Waiting cert.now ≡ Some NoLeg → result ≡ Err NoLeg }
    ensures sound { IfOk result (λ _. Holds M.rules (leg_with opening.now events.now) cert.now) }
{
    judge(alloc, model, opening, events, Claim::Waiting, cert)
}

/// Judges a certificate which says that no legal schedule completes the leg up to event `upto`, as
/// its group still waits then. Else as `check_waiting`, with the same errors.
pub fn check_floor<M: Consistency>(
    alloc: Global,
    model: M,
    opening: &Opening,
    events: &[Event],
    cert: &Cert,
) -> Result<(), CertFault>
    ensures answer { MatchResult result (λ _. cert_fault M.rules (leg_with opening.now events.now) Claim.Floor cert.now ≡ None) (λ fault. fault ≡ CertFault.NoMemory ⊎ cert_fault M.rules (leg_with opening.now events.now) Claim.Floor cert.now ≡ Some fault) }
    // C6 comes before anything is allocated, so want of memory is never told in its place.
    ensures early { cert_fault M.rules (leg_with opening.now events.now) Claim.Floor cert.now ≡ Some NoLeg → result ≡ Err NoLeg }
    ensures sound { IfOk result (λ _. Holds M.rules (leg_with opening.now events.now) cert.now) }
{
    judge(alloc, model, opening, events, Claim::Floor, cert)
}

/// Judges a certificate that is to make a claim.
#[tactic(auto, using(crate::proofs::NoLeg::found_by_first))]
fn judge<M: Consistency>(
    alloc: Global,
    model: M,
    opening: &Opening,
    events: &[Event],
    claim: Claim,
    cert: &Cert,
) -> Result<(), CertFault>
    ensures answer { MatchResult result (λ _. cert_fault M.rules (leg_with opening.now events.now) claim cert.now ≡ None) (λ fault. fault ≡ CertFault.NoMemory ⊎ cert_fault M.rules (leg_with opening.now events.now) claim cert.now ≡ Some fault) }
    ensures early { cert_fault M.rules (leg_with opening.now events.now) claim cert.now ≡ Some NoLeg → result ≡ Err NoLeg }
    ensures sound { IfOk result (λ _. Holds M.rules (leg_with opening.now events.now) cert.now) }
{
    let _ = opening.number();
    match fault_of(alloc, model, opening, events, claim, cert)? {
        None => Ok(()),
        Some(fault) => Err(fault),
    }
}

/// The first fault of a certificate that is to make a claim.
fn fault_of<M: Consistency>(
    alloc: Global,
    model: M,
    opening: &Opening,
    events: &[Event],
    claim: Claim,
    cert: &Cert,
) -> Result<Option<CertFault>, AllocError>
    ensures fault { IfOk result (λ fault. fault ≡ cert_fault M.rules (leg_with opening.now events.now) claim cert.now) }
    ensures early { no_leg M.rules (leg_with opening.now events.now) claim cert.now ≡ true → result ≡ Ok (Some NoLeg) }
{
    if is_no_leg(model, opening, events, claim, cert) {
        return Ok(Some(CertFault::NoLeg));
    }
    // The cursor counts moments elsewhere; it is opened with this one.
    let last = cert.upto.saturating_sub(opening.number()) as usize;
    let mut cursor = Cursor::open(alloc, model, opening, events, last)?;
    later_fault(alloc, &mut cursor, cert.lines.as_slice(), cert.group)
}

/// The first fault past C6. Each part may lean on those before it: lines are tested only against
/// sections that births gave.
fn later_fault<M: Consistency>(
    alloc: Global,
    cursor: &mut Cursor<'_, M>,
    lines: &[Line],
    claimed: GroupId,
) -> Result<Option<CertFault>, AllocError>
    ensures { IfOk result (λ fault. fault ≡ first_of (later_tests M.rules cursor.old.range claimed.0 lines.now)) }
{
    let first = first_group(alloc, cursor, lines, claimed)?;
    let fault = birth_fault(alloc, cursor, lines)?;
    if fault.is_some() {
        return Ok(fault);
    }
    chain_fault(alloc, cursor, lines, first, claimed)
}

/// The first fault past C5, where the births begin with a group. Lines are tested before what comes first, which needs the tasks at
/// the end: events can't be taken back.
fn chain_fault<M: Consistency>(
    alloc: Global,
    cursor: &mut Cursor<'_, M>,
    lines: &[Line],
    first: GroupId,
    claimed: GroupId,
) -> Result<Option<CertFault>, AllocError>
    requires { AreInOrder (leg_in cursor.old.range) cursor.old.range.end 0 (births lines.now) }
    ensures { IfOk result (λ fault. fault ≡ first_of (chain_tests M.rules cursor.old.range first.0 claimed.0 lines.now)) }
{
    let parts = sections(alloc, cursor, lines, first)?;
    let fault = line_fault(alloc, cursor, lines, parts.as_slice())?;
    if is_no_such_group(alloc, cursor, lines, first, claimed)? {
        return Ok(Some(CertFault::NoSuchGroup));
    }
    if fault.is_some() {
        return Ok(fault);
    }
    gap_fault(alloc, cursor, lines, parts.as_slice())
}

/// Whether a certificate makes another claim or is of another leg, or its end lies outside of the
/// leg or past the events that a run can have.
fn is_no_leg<M: Consistency>(
    _model: M,
    opening: &Opening,
    events: &[Event],
    claim: Claim,
    cert: &Cert,
) -> bool
    ensures { result ≡ no_leg M.rules (leg_with opening.now events.now) claim cert.now }
{
    if cert.claim != claim {
        return true;
    }
    let number = opening.number();
    if cert.leg != number {
        return true;
    }
    if cert.upto < number || cert.upto > u64::from(MOST_EVENTS) {
        return true;
    }
    cert.upto - number > events.len() as u64
}
