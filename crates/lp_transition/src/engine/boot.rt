//! The start of an engine.
ghost use Rattle.std.specs.Prelude.{◌≡◌, ℕ, ◌<◌, ◌≤◌, [], Err, None, length, All, IfSome, IfOk, OnOk, OnErr};
ghost use Rattle.lp_definitions.specs.Run.{start, booted, at_boot, first_mode};
ghost use Rattle.lp_machine.specs.Steps.{StandsIn};
ghost use Rattle.lp_transition.specs.Boot.{boot_refusal};
ghost use Rattle.lp_machine.specs.Table.{IsWide, leg_tasks, state_in, bounds_of};
ghost use Rattle.lp_transition.specs.Blames.{blame_of};
ghost use Rattle.lp_tasks.specs.inside.Table.{IsBlank};
ghost use Rattle.lp_transition.specs.declared.engine.boot.BootFault.TheVariants.{NoMemory};

use super::Core;
use super::blames::Blames;
use super::unchanged::Unchanged;
use lp_model::Consistency;
use lp_numbers::{NUMBERS, NumberSet};
use lp_patch::PatchStack;
use lp_stack::{Class, Level, Mode, TaskId};
use lp_tasks::{LiveTask, TaskTable};
use std::alloc::{AllocError, AllocFailed, Global};
use thiserror::Error;

/// Why no engine was made.
#[derive(Clone, Copy, Debug, PartialEq, Eq, Error)]
pub enum BootFault {
    /// T1: a task has the number 0. Numbers go from 1 to 65,535.
    #[error("T1: a task has the number 0")]
    TaskRange,
    /// T2: two tasks have one number.
    #[error("T2: two tasks have one number")]
    TaskDoubled,
    /// T3: an allocation failed. Tested after all else.
    #[error("T3: out of memory")]
    NoMemory,
}

impl From<AllocError> for BootFault {
    ghost from_gives = { λ _ e. e ≡ NoMemory };

    fn from(_e: AllocError) -> BootFault {
        BootFault::NoMemory
    }
}

impl<T: Drop> From<AllocFailed<T>> for BootFault {
    ghost from_gives = { λ _ e. e ≡ NoMemory };

    fn from(_e: AllocFailed<T>) -> BootFault {
        BootFault::NoMemory
    }
}

impl<M: Consistency> Core<M> {
    /// An engine with these tasks, each on level 0 with an empty stack; a normal task starts in user space,
    /// an idle task in the kernel.
    ///
    /// Refused for the first task at fault, as T1 or T2, else T3 where an allocation failed.
    pub fn boot(
        alloc: Global,
        model: M,
        patches: PatchStack,
        tasks: &[(TaskId, Class)],
    ) -> Result<Core<M>, BootFault>
        ensures refused { IfSome (boot_refusal tasks.now) (λ fault. result ≡ Err fault) }
        ensures memory { boot_refusal tasks.now ≡ None → OnErr result (result ≡ Err NoMemory) }
        ensures started { IfOk result (λ core. state_in core ≡ (start M.rules (bounds_of patches) patches tasks.now).opening) }
        ensures blameless { IfOk result (λ core. (group : ℕ) → blame_of core group ≡ None) }
        ensures unscanned { IfOk result (λ core. core.last_scan.kind ≡ None) }
        ensures stands { IfOk result (λ core. StandsIn M.rules (record { bounds = bounds_of patches; patches = patches; boots = tasks.now; events = [] }) (state_in core)) }
    {
        if let Some(fault) = first_fault(tasks) {
            return Err(fault);
        }
        Ok(Core::without_fault(alloc, model, patches, tasks)?)
    }

    /// An engine with tasks of which none is at fault; AllocError where an allocation failed.
    fn without_fault(
        alloc: Global,
        model: M,
        patches: PatchStack,
        tasks: &[(TaskId, Class)],
    ) -> Result<Core<M>, AllocError>
        requires { boot_refusal tasks.now ≡ None }
        ensures started { IfOk result (λ core. state_in core ≡ (start M.rules (bounds_of patches) patches tasks.now).opening) }
        ensures blameless { IfOk result (λ core. (group : ℕ) → blame_of core group ≡ None) }
        ensures unscanned { IfOk result (λ core. core.last_scan.kind ≡ None) }
        ensures stands { IfOk result (λ core. StandsIn M.rules (record { bounds = bounds_of patches; patches = patches; boots = tasks.now; events = [] }) (state_in core)) }
    {
        let mut table = TaskTable::new(alloc)?;
        put_all(model, tasks, &mut table);
        Ok(Core {
            model,
            patches,
            from: Level(0),
            target: Level(0),
            events: 0,
            tasks: table,
            waiting: NumberSet::new(alloc)?,
            unchanged: Unchanged::new(alloc)?,
            blames: Blames::new(alloc)?,
            refused: NumberSet::new(alloc)?,
        })
    }
}

/// On the stack, not the heap: a fault in the list has to come before any failed allocation.
fn first_fault(tasks: &[(TaskId, Class)]) -> Option<BootFault>
    ensures { result ≡ boot_refusal tasks.now }
{
    let mut seen = [false; NUMBERS];
    for (task, _) in tasks {
        let number = usize::from(task.0);
        if number == 0 {
            return Some(BootFault::TaskRange);
        }
        if seen[number] {
            return Some(BootFault::TaskDoubled);
        }
        seen[number] = true;
    }
    None
}

/// The mode in which a task starts.
fn first_mode(class: Class) -> Mode
    ensures { result ≡ first_mode class }
{
    match class {
        Class::Normal => Mode::User,
        Class::Idle => Mode::Kernel,
    }
}

/// A task as it stands at the start.
fn at_boot<M: Consistency>(model: M, task: TaskId, class: Class) -> LiveTask
    ensures task { result ≡ at_boot M.rules task.0 class }
    ensures number { task.0 ≤ 65535 }
{
    let group = model.first_group(task);
    LiveTask::new(class, first_mode(class), group, Level(0))
}

/// Makes each boot task live.
fn put_all<M: Consistency>(model: M, boots: &[(TaskId, Class)], tasks: &mut TaskTable)
    requires no_fault { boot_refusal boots.now ≡ None }
    requires blank { IsBlank tasks.old }
    ensures live { leg_tasks tasks.new ≡ booted M.rules boots.now }
    ensures wide { IsWide tasks.new }
    ensures in_range { All (λ boot. (0 < boot.0.0) × (boot.0.0 ≤ 65535)) boots.now }
{
    for (task, class) in boots {
        tasks.put(*task, at_boot(model, *task, *class));
    }
}
