//! An event that is weighed, and then taken; and what can be asked of an engine.
ghost use Rattle.std.specs.Prelude.{◌≡◌, IfOk};
ghost use Rattle.lp_model.specs.Row.{rules_of};
ghost use Rattle.lp_model.specs.declared.check.CheckKind.TheVariants.{Walk};
ghost use Rattle.lp_models.specs.Models.{hybrid};
ghost use Rattle.lp_transition.specs.Scan.{verdicts_of};
ghost use Rattle.lp_machine.specs.Table.{state_in};

use super::*;
use lp_model::{CheckKind, Verdict};

/// Whether so many events are numbered, and the engine is in transition or not.
fn is_at(core: &Core<Hybrid>, events: u64, in_transition: bool) -> bool {
    core.events() == events && core.in_transition() == in_transition
}

/// Whether an enabling, without a verdict, was weighed, and isn't numbered.
fn is_weighed(core: &Core<Hybrid>, step: &Step) -> bool {
    step.event() == Event::Enable
        && step.verdicts().is_empty()
        && in_short(step.reply()) == Said::Done
        && is_at(core, 0, false)
}

/// Whether an enabling is weighed as the first event, and is numbered only when it is taken.
fn enables(alloc: Global, core: &mut Core<Hybrid>) -> bool {
    match core.weigh(alloc, Event::Enable) {
        Ok(step) => {
            let weighed = is_weighed(core, &step);
            taken(core, step) == Said::Done && weighed && is_at(core, 1, true)
        }
        Err(_) => false,
    }
}

/// Whether it is by an engine that starts.
fn enables_at_first(alloc: Global) -> bool {
    match start(alloc, Hybrid, &BOTH) {
        Some(mut core) => enables(alloc, &mut core),
        None => false,
    }
}

#[test]
fn an_event_is_weighed_and_then_taken(rt: HostRuntime) {
    assert!(rt; enables_at_first(rt.alloc()));
}

/// What a walk finds of the tasks that wait.
fn found(alloc: Global, core: &Core<Hybrid>) -> Result<Vec<Verdict>, AllocError>
    ensures { IfOk result (λ found. found.items ≡ verdicts_of (rules_of hybrid) Walk (state_in core.now)) }
{
    let views = core.views(alloc)?;
    scan_plain(
        alloc,
        Hybrid,
        CheckKind::Walk,
        &core.aim(),
        views.as_slice(),
    )
}

/// Task 1 sleeps in the kernel as it waits.
const ASLEEP: [Event; 3] = [Event::Enable, Event::Enter(ONE), Event::Sleep(ONE)];

/// Whether a walk that is taken by its verdicts, of which there are two, lets task 1 switch.
fn walks(alloc: Global, core: &mut Core<Hybrid>) -> bool {
    let Ok(found) = found(alloc, core) else {
        return false;
    };
    is_over(core.commit_scan(alloc, CheckKind::Walk, found.as_slice()))
        && found.len() == 2
        && is_at(core, 4, true)
}

/// Whether a scan lets task 1 switch alone.
fn is_over(scanned: Result<Reply, Halt>) -> bool {
    match scanned {
        Ok(reply) => in_short(&reply) == Said::Switched(1),
        Err(_) => false,
    }
}

/// Whether one does where task 1 sleeps.
fn walks_asleep(alloc: Global) -> bool {
    match start(alloc, Hybrid, &BOTH) {
        Some(mut core) => give(alloc, &mut core, &ASLEEP) && walks(alloc, &mut core),
        None => false,
    }
}

#[test]
fn a_walk_is_taken_by_its_verdicts(rt: HostRuntime) {
    assert!(rt; walks_asleep(rt.alloc()));
}

/// The events after which task 1 has switched, and task 2 waits.
const ONE_OVER: [Event; 3] = [Event::Enable, Event::Enter(ONE), Event::Exit(ONE)];

/// Whether such an engine says which model it has, and to which level it goes.
fn has_a_model_and_a_target(core: &Core<Hybrid>) -> bool {
    core.model() == Hybrid && core.target() == Level(1) && core.aim().target == Level(1)
}

/// Whether it says on which side the tasks are, of which there is no third, and in which group.
fn has_sides_and_groups(core: &Core<Hybrid>) -> bool {
    core.side_of(ONE) == Some(Level(1))
        && core.side_of(TWO) == Some(Level(0))
        && core.side_of(THREE) == None
        && core.group_of(TWO) == Some(GroupId(2))
}

/// Whether it says which group waits.
fn says_who_waits(alloc: Global, core: &Core<Hybrid>) -> bool {
    match core.waiting(alloc) {
        Ok(waiting) => waiting.as_slice() == [GroupId(2)].as_slice(),
        Err(_) => false,
    }
}

/// Whether it shows the one task that waits.
fn shows_who_waits(alloc: Global, core: &Core<Hybrid>) -> bool {
    match core.views(alloc) {
        Ok(views) => matches!(views.as_slice(), [view] if view.task == TWO),
        Err(_) => false,
    }
}

/// Whether it says all of this.
fn says_how_it_stands(alloc: Global, core: &Core<Hybrid>) -> bool {
    has_a_model_and_a_target(core)
        && has_sides_and_groups(core)
        && says_who_waits(alloc, core)
        && shows_who_waits(alloc, core)
}

/// Whether it does where task 1 has switched.
fn says_who_is_over(alloc: Global) -> bool {
    match start(alloc, Hybrid, &BOTH) {
        Some(mut core) => give(alloc, &mut core, &ONE_OVER) && says_how_it_stands(alloc, &core),
        None => false,
    }
}

#[test]
fn an_engine_is_asked_how_it_stands(rt: HostRuntime) {
    assert!(rt; says_who_is_over(rt.alloc()));
}
