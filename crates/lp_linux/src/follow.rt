//! The kernel's procedure, run on an engine: all that the kernel keeps is where the engine stands, and `klp_target_state`.
ghost use Rattle.std.specs.Prelude.{◌≡◌, ◌≤◌, ◌↔◌, ◌&&◌, Err, IsTrue, if◌then◌else◌, IfOk, OnErr};
ghost use Rattle.lp_model.specs.Row.{rules_of};
ghost use Rattle.lp_models.specs.Models.{hybrid};
ghost use Rattle.lp_transition.specs.declared.engine.step.Halt.TheVariants.{NoMemory, JournalFull};
ghost use Rattle.lp_machine.specs.Machine.{answer};
ghost use Rattle.lp_definitions.specs.Run.{Run, plus};
ghost use Rattle.lp_machine.specs.Table.{state_in};
ghost use Rattle.lp_transition.specs.Weigh.{may_allocate};
ghost use Rattle.lp_linux.specs.Reading.{heard_late};
ghost use Rattle.lp_linux.specs.Transition.{Release};
ghost use Rattle.lp_linux.specs.Events.{has};
ghost use Rattle.lp_linux.specs.Followed.{IsKernel, is_moving, patch_state_of, heard_in, target_state_after};

use lp_models::Hybrid;
use lp_transition::{Core, Event, Halt, Reply};
use std::alloc::Global;

/// Where the kernel's transition takes the tasks: its `klp_target_state`.
#[derive(Clone, Copy, Debug, PartialEq, Eq)]
pub enum TargetState {
    /// `KLP_UNDEFINED`: no transition is under way.
    Undefined,
    /// `KLP_PATCHED`: to one patch more.
    Patched,
    /// `KLP_UNPATCHED`: to one patch less.
    Unpatched,
}

/// An event of the kernel as the engine hears it: where the engine's transition is complete and the kernel's awaits the
/// walk that notices it, a reversal is the way back, and an enabling or disabling is refused.
pub fn heard(target: TargetState, complete: bool, event: Event) -> Event
    ensures { result ≡ (if is_moving target && complete then heard_late (patch_state_of target) event else event) }
{
    if target == TargetState::Undefined || !complete {
        return event;
    }
    match event {
        Event::Enable | Event::Disable => Event::Reverse,
        Event::Reverse => {
            if target == TargetState::Patched {
                Event::Disable
            } else {
                Event::Enable
            }
        }
        other => other,
    }
}

/// The target state after an event, a walk or not, at which the engine went from one target level to another.
pub fn next_target(
    target: TargetState,
    walk: bool,
    before: u8,
    after: u8,
    complete: bool,
) -> TargetState
    ensures { result ≡ target_state_after target walk before after complete }
{
    if before < after {
        TargetState::Patched
    } else if after < before {
        TargetState::Unpatched
    } else if walk && complete {
        TargetState::Undefined
    } else {
        target
    }
}

/// One event of the kernel: the engine takes it as it hears it. `target` is `Undefined` before the first event; the
/// kernel completes its transition, so that it is `Undefined` again, at the first walk after which the engine's is complete
/// (Linux 6.1 and 6.12, `klp_try_complete_transition`).
///
/// Halts as the engine's own step does (E13, E14), and then nothing has changed.
pub fn step(
    core: &mut Core<Hybrid>,
    target: &mut TargetState,
    alloc: Global,
    event: Event,
) -> Result<Reply, Halt>
    ensures full { (result ≡ Err JournalFull) ↔ (1000000 ≤ core.old.number) }
    ensures memory { result ≡ Err NoMemory → IsTrue (may_allocate (heard_in target.old (state_in core.old) event) (answer (rules_of hybrid) (state_in core.old) (heard_in target.old (state_in core.old) event)).what) }
    ensures step { IfOk result (λ reply. (release : Release) (r : Run) → IsTrue (has release event) → IsKernel release r target.old (state_in core.old) → IsKernel release (plus r event) target.new (state_in core.new)) }
    ensures unchanged { OnErr result ((core.new ≡ core.old) × (target.new ≡ target.old)) }
{
    let told = heard(*target, !core.in_transition(), event);
    let before = core.target();
    let reply = core.step(alloc, told)?;
    let after = core.target();
    let walk = matches!(event, Event::Walk);
    *target = next_target(*target, walk, before.0, after.0, !core.in_transition());
    Ok(reply)
}
