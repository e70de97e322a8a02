//! Makers beside engines, and outcomes: what each call gives of a run's certificates.
ghost use Rattle.std.specs.Prelude.{◌≡◌, true, IfOk};
ghost use Rattle.lp_model.specs.Row.{rules_of};
ghost use Rattle.lp_models.specs.Models.{hybrid};
ghost use Rattle.lp_transition.specs.Scan.{is_scan_kind};
ghost use Rattle.lp_transition.specs.Weigh.{IsWeighed};

mod given;
mod left_out;
mod memory;

use super::*;
use given::{given_by, given_in, heads, lines};
use lp_cert::{Cert, CertLines, CertListRef, LegEndRef, LegEnds, LegList, LineList, Maker};
use lp_model::CheckKind;
use lp_scan::scan_plain;
use lp_trace::ReplyList;
use lp_transition::{Halt, Reply, Step, What};
use std::alloc::AllocError;

/// A scan of this kind, weighed by the verdicts on all who wait.
fn scan(alloc: Global, core: &Core<Hybrid>, kind: CheckKind) -> Result<Step, Halt>
    requires { is_scan_kind kind ≡ true }
    ensures { IfOk result (λ step. IsWeighed (rules_of hybrid) core.now step) }
{
    let views = core.views(alloc)?;
    let found = scan_plain(alloc, core.model(), kind, &core.aim(), views.as_slice())?;
    core.weigh_scan(alloc, kind, found.as_slice())
}

/// An event, weighed.
fn weighed(alloc: Global, core: &Core<Hybrid>, event: Event) -> Result<Step, Halt>
    ensures { IfOk result (λ step. IsWeighed (rules_of hybrid) core.now step) }
{
    match event {
        Event::Walk => scan(alloc, core, CheckKind::Walk),
        Event::Stop => scan(alloc, core, CheckKind::Stop),
        _ => core.weigh(alloc, event),
    }
}

/// Engine and maker for one event.
fn feed(
    alloc: Global,
    core: &mut Core<Hybrid>,
    maker: &mut Maker,
    event: Event,
) -> Result<(), Halt> {
    let step = weighed(alloc, core, event)?;
    maker.ready(alloc, core, &step)?;
    maker.note(core, &step);
    core.take(step);
    Ok(())
}

/// Engine and maker for these events.
fn feed_all(
    alloc: Global,
    core: &mut Core<Hybrid>,
    maker: &mut Maker,
    events: &[Event],
) -> Result<(), Halt> {
    for event in events {
        feed(alloc, core, maker, *event)?;
    }
    Ok(())
}

/// A maker that has seen no event.
fn new_maker(alloc: Global) -> Result<Box<Maker>, AllocError> {
    Ok(Box::new(alloc, Maker::new(alloc)?)?)
}

/// A maker after these events.
fn fed(alloc: Global, core: &mut Core<Hybrid>, events: &[Event]) -> Result<Box<Maker>, Halt> {
    let mut maker = new_maker(alloc)?;
    feed_all(alloc, core, &mut maker, events)?;
    Ok(maker)
}

/// A maker after the events of a trace.
fn made_of(alloc: Global, trace: &Trace) -> Option<Box<Maker>> {
    match boot(alloc, Hybrid, trace) {
        Some(mut core) => fed(alloc, &mut core, trace.events()).ok(),
        None => None,
    }
}

/// The same of the trace of a text.
fn made(alloc: Global, text: &str) -> Option<Box<Maker>> {
    match read(alloc, text) {
        Some(trace) => made_of(alloc, &trace),
        None => None,
    }
}

/// What a call gave that was asked for a certificate.
type Asked = Result<Option<Cert>, AllocError>;

/// Whether it gave this one.
fn is_cert(asked: Asked, head: CertHead, lines: &[Line]) -> bool {
    match asked {
        Ok(Some(cert)) => {
            cert.claim == head.claim
                && (cert.leg, cert.group, cert.upto) == (head.leg, head.group, head.upto)
                && cert.lines.as_slice() == lines
        }
        _ => false,
    }
}

/// Whether it gave none.
fn is_none(asked: Asked) -> bool {
    matches!(asked, Ok(None))
}

/// When a leg opened, its target, when it was complete, and how many certificates it has.
type Seen = (u64, Level, Option<u64>, usize);

fn seen_of(end: &LegEndRef<'_>) -> Seen {
    (end.opened, end.target, end.completed, end.certs.len())
}

/// Whether this is so of the leg under way.
fn is_now(alloc: Global, maker: &Maker, seen: Seen) -> bool {
    match maker.current(alloc) {
        Ok(Some(end)) => seen_of(&end.borrowed()) == seen,
        _ => false,
    }
}

/// Whether a maker has the child's reasons, and none of its parent, which switched.
fn tells_of_the_child(alloc: Global, maker: &Maker) -> bool {
    let reasons = [busy(1, 1, 3), born(2, 1, 4), hold(2, 2, 6, 8, 8)];
    is_cert(
        maker.waiting(alloc, GroupId(2)),
        head(Claim::Waiting, 2, 2, 8),
        &reasons,
    ) && is_cert(maker.floor(alloc), head(Claim::Floor, 2, 2, 8), &reasons)
        && is_none(maker.waiting(alloc, GroupId(1)))
}

/// Whether that of the child's trace has.
fn child_is_told_of(alloc: Global) -> bool {
    match made(alloc, CHILD) {
        Some(maker) => tells_of_the_child(alloc, &maker),
        None => false,
    }
}

#[test]
fn a_child_waits_with_its_parents_reasons(rt: HostRuntime) {
    assert!(rt; child_is_told_of(rt.alloc()));
}

/// A transition in which one task switches and one waits, reversed, with a walk after it.
const TURNED: &str =
    "lptrace 1\nsym a\nsym b\nsym c\npatch a\nboot 1 normal\nboot 2 normal\nenable\nenter 1\nexit 1\nenter 1\ncall 1 a\nsleep 1\nreverse\nwalk\n";

/// Whether the leg that ended is the one that the reversal ended, with the certificate of who waited.
fn is_turned(alloc: Global, mut ended: LegEnds<'_>) -> bool {
    match (ended.next(), ended.next()) {
        (Some(end), None) => {
            seen_of(&end) == (1, Level(1), None, 1)
                && is_cert(end.certs.cert(alloc, 0), head(Claim::Waiting, 1, 2, 6), &[])
                && is_none(end.certs.cert(alloc, 1))
        }
        _ => false,
    }
}

/// Whether a maker tells of that leg, and of the one under way.
fn turned_is_told_of(alloc: Global) -> bool {
    match made(alloc, TURNED) {
        Some(maker) => {
            is_turned(alloc, maker.ended()) && is_now(alloc, &maker, (7, Level(0), None, 1))
        }
        None => false,
    }
}

#[test]
fn a_reversal_ends_a_leg(rt: HostRuntime) {
    assert!(rt; turned_is_told_of(rt.alloc()));
}

/// A task is on a CPU during two walks, switches at a third, and there is one more.
const IS_WALKED: &str =
    "lptrace 1\nsym a\nsym b\nsym c\npatch a\nboot 1 normal\nenter 1\ncall 1 c\nenable\nwalk\nwalk\nsleep 1\nwalk\nwalk\n";

/// The first certificate of the leg under way.
fn first_cert_now(alloc: Global, maker: &Maker) -> Asked {
    match maker.current(alloc)? {
        Some(end) => end.certs.borrowed().cert(alloc, 0),
        None => Ok(None),
    }
}

/// Whether a maker has nobody who waits, and the floor of the complete leg.
fn tells_of_the_walked(alloc: Global, maker: &Maker) -> bool {
    let lines = [busy(1, 1, 4), busy(1, 1, 5)];
    is_none(maker.waiting(alloc, GroupId(1)))
        && is_none(maker.floor(alloc))
        && is_cert(
            first_cert_now(alloc, maker),
            head(Claim::Floor, 3, 1, 6),
            &lines,
        )
        && is_now(alloc, maker, (3, Level(1), Some(7), 1))
}

/// Whether that of such a run has.
fn walked_is_told_of(alloc: Global) -> bool {
    match made(alloc, IS_WALKED) {
        Some(maker) => tells_of_the_walked(alloc, &maker),
        None => false,
    }
}

#[test]
fn a_complete_leg_has_a_floor(rt: HostRuntime) {
    assert!(rt; walked_is_told_of(rt.alloc()));
}

/// Whether a list lends this one line.
fn lends(list: &LineList, line: Line) -> bool {
    list.len() == 1 && !list.is_empty() && list.as_slice() == [line].as_slice()
}

/// Whether a list that is made of a line lends it.
fn is_lent(alloc: Global, line: Line) -> bool {
    match vec![in alloc; line] {
        Ok(lines) => lends(&LineList::from_vec(lines), line),
        Err(_) => false,
    }
}

#[test]
fn lists_lend_their_lines(rt: HostRuntime) {
    assert!(rt; is_lent(rt.alloc(), born(2, 1, 6)));
}

/// A task is held by a frame at a walk, and on a CPU at two more; it forks and switches, and the
/// child is on a CPU at the last walk.
const EACH_REASON: &str =
    "lptrace 1\nsym a\nsym b\nsym c\npatch a\nboot 1 normal\nenter 1\ncall 1 a\nsleep 1\nenable\nwalk\nwake 1\nret 1\nwalk\nwalk\nfork 1 2 own\nexit 1\nwalk\n";

/// The reasons of the child.
fn reasons() -> [Line; 5] {
    [
        hold(1, 1, 2, 5, 5),
        busy(1, 1, 8),
        busy(1, 1, 9),
        born(2, 1, 10),
        busy(2, 2, 12),
    ]
}

/// Whether these are the child's reasons, line by line, with nothing after them.
fn are_reasons(mut lines: CertLines<'_>) -> bool {
    for line in reasons() {
        if lines.next() != Some(line) {
            return false;
        }
    }
    lines.next().is_none() && lines.next().is_none()
}

/// Whether a list's first and only certificate is the child's, whole and line by line.
fn is_each_reason(alloc: Global, certs: &CertListRef<'_>) -> bool {
    if certs.len() != 1 || certs.is_empty() {
        return false;
    }
    let head = certs.head(0);
    head.group == GroupId(2)
        && are_reasons(certs.lines(0))
        && is_cert(certs.cert(alloc, 0), head, &reasons())
}

/// Whether that of the leg under way is.
fn tells_each_reason(alloc: Global, maker: &Maker) -> bool {
    match maker.current(alloc) {
        Ok(Some(end)) => is_each_reason(alloc, &end.certs.borrowed()),
        _ => false,
    }
}

/// Whether that of such a run is.
fn each_reason_is_told(alloc: Global) -> bool {
    match made(alloc, EACH_REASON) {
        Some(maker) => tells_each_reason(alloc, &maker),
        None => false,
    }
}

#[test]
fn reasons_are_written_out_whole_and_line_by_line(rt: HostRuntime) {
    assert!(rt; each_reason_is_told(rt.alloc()));
}

/// The run of three legs that `given` has the certificates of.
const THREE_LEGS: &str =
    "lptrace 1\nsym a\nsym b\nsym c\npatch a\nboot 1 normal\nenter 1\nenable\nwalk\nfork 1 2 own\nexit 1\ncall 2 a\nsleep 2\nwalk\nreverse\nenter 1\nwalk\nexit 1\nenable\nwalk\nwalk\n";

/// What a reply may say.
#[derive(Clone, Copy)]
enum Says {
    /// A group switches.
    Switched,
    /// A call runs, on the first level.
    Ran,
    /// The transition is complete.
    Completed,
}

fn does_say(reply: &Reply, says: Says) -> bool {
    match says {
        Says::Switched => matches!(&reply.what, What::Switched(groups) if groups.len() == 1),
        Says::Ran => matches!(&reply.what, What::Ran(Level(0))),
        Says::Completed => reply.completed,
    }
}

/// The first reply that says this.
fn first(replies: &[Reply], says: Says) -> Option<usize> {
    for (place, reply) in replies.iter().enumerate() {
        if does_say(reply, says) {
            return Some(place);
        }
    }
    None
}

/// Whether these are the replies of that run.
fn are_replies(replies: &[Reply]) -> bool {
    replies.len() == 15
        && first(replies, Says::Switched) == Some(4)
        && first(replies, Says::Ran) == Some(5)
        && first(replies, Says::Completed) == Some(11)
}

/// Whether a list has them.
fn has_replies(alloc: Global, list: &ReplyList) -> bool {
    match list.to_vec(alloc) {
        Ok(replies) => list.len() == 15 && are_replies(replies.as_slice()),
        Err(_) => false,
    }
}

/// Whether these are its legs.
fn are_legs(alloc: Global, ends: LegEnds<'_>) -> bool {
    match given_in(alloc, ends) {
        Ok(given) => given.is_worked(),
        Err(_) => false,
    }
}

/// Whether a trace comes to them.
fn comes_to_three_legs(alloc: Global, trace: &Trace) -> bool {
    match outcome_of(alloc, Hybrid, trace) {
        Some(outcome) => {
            are_legs(alloc, outcome.legs.iter())
                && (outcome.stays, outcome.mixed) == (1, 0)
                && has_replies(alloc, &outcome.replies)
        }
        None => false,
    }
}

/// Whether that run does.
fn three_legs_come(alloc: Global) -> bool {
    match read(alloc, THREE_LEGS) {
        Some(trace) => comes_to_three_legs(alloc, &trace),
        None => false,
    }
}

#[test]
fn an_outcome_has_replies_legs_and_stays(rt: HostRuntime) {
    assert!(rt; three_legs_come(rt.alloc()));
}
