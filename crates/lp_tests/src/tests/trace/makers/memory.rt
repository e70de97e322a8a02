//! An allocation that fails: the certificates stay the same, and the same call succeeds after it.
//!
//! `scripts/refuse-memory` runs these tests with each allocation refused in turn.
ghost use Rattle.std.specs.Prelude.{IfOk};
ghost use Rattle.lp_model.specs.Row.{rules_of};
ghost use Rattle.lp_models.specs.Models.{hybrid};
ghost use Rattle.lp_transition.specs.Weigh.{IsWeighed};

use super::given::Given;
use super::*;
use crate::tests::trace::again::booted_again;
use lp_model::ForkKind;
use std::process::Abort;

const ONE: TaskId = TaskId(1);

const TWO: TaskId = TaskId(2);

/// A task that waits forks, and switches; its child doesn't. The transition is reversed, is
/// complete, and another begins, which isn't.
const EVENTS: [Event; 15] = [
    Event::Enter(ONE),
    Event::Enable,
    Event::Walk,
    Event::Fork(ONE, TWO, ForkKind::Own),
    Event::Exit(ONE),
    Event::Call(TWO, SymId(0)),
    Event::Sleep(TWO),
    Event::Walk,
    Event::Reverse,
    Event::Enter(ONE),
    Event::Walk,
    Event::Exit(ONE),
    Event::Enable,
    Event::Walk,
    Event::Walk,
];

/// What a maker gives, asked again where an allocation fails.
fn given_again(alloc: Global, maker: &Maker) -> Result<Box<Given>, AllocError> {
    match given_by(alloc, maker) {
        Err(_) => given_by(alloc, maker),
        given => given,
    }
}

/// Whether a maker still gives this.
fn still_gives(alloc: Global, maker: &Maker, before: &Given) -> bool {
    match given_by(alloc, maker) {
        Ok(given) => *given == *before,
        Err(_) => false,
    }
}

/// An event, weighed again where an allocation fails.
fn weighed_again(alloc: Global, core: &Core<Hybrid>, event: Event) -> Result<Step, Halt>
    ensures { IfOk result (λ step. IsWeighed (rules_of hybrid) core.now step) }
{
    match core.weigh_changed(alloc, event) {
        Err(Halt::NoMemory) => core.weigh_changed(alloc, event),
        answer => answer,
    }
}

/// Engine and maker for one event. Where the maker gets no memory, the certificates are as they
/// were, and the same call makes room.
fn feed_again(
    rt: &impl Abort,
    alloc: Global,
    core: &mut Core<Hybrid>,
    maker: &mut Maker,
    event: Event,
) -> Result<(), Halt> {
    let before = given_again(alloc, maker)?;
    let step = weighed_again(alloc, core, event)?;
    if let Err(_) = maker.ready(alloc, core, &step) {
        assert!(rt; still_gives(alloc, maker, &before));
        maker.ready(alloc, core, &step)?;
    }
    maker.note(core, &step);
    core.take(step);
    Ok(())
}

/// Engine and maker for all events.
fn feed_all_again(
    rt: &impl Abort,
    alloc: Global,
    core: &mut Core<Hybrid>,
    maker: &mut Maker,
) -> Result<(), Halt> {
    for event in &EVENTS {
        feed_again(rt, alloc, core, maker, *event)?;
    }
    Ok(())
}

/// A maker that has seen no event, made again where an allocation fails.
fn new_maker_again(alloc: Global) -> Result<Box<Maker>, AllocError> {
    match new_maker(alloc) {
        Err(_) => new_maker(alloc),
        made => made,
    }
}

/// The maker after all events of an engine, each call made again where an allocation fails.
fn fed_again(rt: &impl Abort, alloc: Global, core: &mut Core<Hybrid>) -> Result<Box<Maker>, Halt> {
    let mut maker = new_maker_again(alloc)?;
    feed_all_again(rt, alloc, core, &mut maker)?;
    Ok(maker)
}

/// The same, of an engine of one task.
fn made_again(rt: &impl Abort, alloc: Global) -> Option<Box<Maker>> {
    match booted_again(alloc) {
        Some(mut core) => fed_again(rt, alloc, &mut core).ok(),
        None => None,
    }
}

/// Whether a maker gives what the definitions give, asked again where an allocation fails.
fn gives_worked(alloc: Global, maker: &Maker) -> bool {
    match given_again(alloc, maker) {
        Ok(given) => given.is_worked(),
        Err(_) => false,
    }
}

/// What a maker is asked, again where an allocation fails.
#[derive(Clone, Copy)]
enum Question {
    /// All that it gives.
    All,
    /// The certificates of the groups that wait.
    Waiting,
    /// The floor.
    Floor,
    /// A copy of a certificate of a leg that ended.
    Copied,
}

/// Whether a group waits with these reasons.
fn waits_with(alloc: Global, maker: &Maker, group: u16, lines: &[Line]) -> bool {
    let asked = match maker.waiting(alloc, GroupId(group)) {
        Err(_) => maker.waiting(alloc, GroupId(group)),
        asked => asked,
    };
    is_cert(asked, head(Claim::Waiting, 13, group, 15), lines)
}

/// Whether the floor has these reasons.
fn is_floor(alloc: Global, maker: &Maker, lines: &[Line]) -> bool {
    let asked = match maker.floor(alloc) {
        Err(_) => maker.floor(alloc),
        asked => asked,
    };
    is_cert(asked, head(Claim::Floor, 13, 1, 15), lines)
}

/// Whether the first certificate of the first of two legs that ended is copied.
fn is_copied(alloc: Global, mut ended: LegEnds<'_>) -> bool {
    match (ended.next(), ended.next(), ended.next()) {
        (Some(end), Some(_), None) => {
            let asked = match end.certs.cert(alloc, 0) {
                Err(_) => end.certs.cert(alloc, 0),
                asked => asked,
            };
            is_cert(asked, heads()[0].0, &lines()[..3])
        }
        _ => false,
    }
}

/// Whether a maker has the right answer.
fn has_answer(alloc: Global, maker: &Maker, question: Question) -> bool {
    match question {
        Question::All => true,
        Question::Waiting => {
            waits_with(alloc, maker, 1, &lines()[4..6])
                && waits_with(alloc, maker, 2, &lines()[6..])
        }
        Question::Floor => is_floor(alloc, maker, &lines()[4..6]),
        Question::Copied => is_copied(alloc, maker.ended()),
    }
}

/// Whether the maker after all events has, and then gives what the definitions give.
fn answers_again(rt: &impl Abort, alloc: Global, question: Question) -> bool {
    match made_again(rt, alloc) {
        Some(maker) => has_answer(alloc, &maker, question) && gives_worked(alloc, &maker),
        None => false,
    }
}

#[test]
fn certificates_are_made_after_a_failed_allocation(rt: HostRuntime) {
    assert!(rt; answers_again(&rt, rt.alloc(), Question::All));
}

#[test]
fn certificates_are_asked_for_after_a_failed_allocation(rt: HostRuntime) {
    assert!(rt; answers_again(&rt, rt.alloc(), Question::Waiting));
}

#[test]
fn a_floor_is_asked_for_after_a_failed_allocation(rt: HostRuntime) {
    assert!(rt; answers_again(&rt, rt.alloc(), Question::Floor));
}

#[test]
fn a_certificate_is_copied_after_a_failed_allocation(rt: HostRuntime) {
    assert!(rt; answers_again(&rt, rt.alloc(), Question::Copied));
}

/// The legs' ends that a maker gives up.
fn ends_of(rt: &impl Abort, alloc: Global) -> Option<Result<LegList, AllocError>> {
    let maker = made_again(rt, alloc)?;
    Some(Box::into_inner(maker).into_ends(alloc))
}

/// The same. The call that is refused has taken the maker, so it is made anew.
fn ends_again(rt: &impl Abort, alloc: Global) -> Option<LegList> {
    match ends_of(rt, alloc)? {
        Ok(ends) => Some(ends),
        Err(_) => ends_of(rt, alloc)?.ok(),
    }
}

/// Whether legs' ends are what the definitions give, asked again where an allocation fails.
fn are_worked(alloc: Global, ends: &LegList) -> bool {
    let given = match given_in(alloc, ends.iter()) {
        Err(_) => given_in(alloc, ends.iter()),
        given => given,
    };
    match given {
        Ok(given) => given.is_worked(),
        Err(_) => false,
    }
}

/// Whether those are that a maker gives up.
fn are_given_up(rt: &impl Abort, alloc: Global) -> bool {
    match ends_again(rt, alloc) {
        Some(ends) => are_worked(alloc, &ends),
        None => false,
    }
}

#[test]
fn ends_are_given_up_after_a_failed_allocation(rt: HostRuntime) {
    assert!(rt; are_given_up(&rt, rt.alloc()));
}
