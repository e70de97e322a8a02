//! Which events are refused.
ghost use Rattle.std.specs.Prelude.{◌≡◌, [], ◌∷◌, None, not};
ghost use Rattle.lp_machine.specs.Table.{state_in, leg_tasks};
ghost use Rattle.lp_definitions.specs.Run.{task_numbers};
ghost use Rattle.lp_definitions.specs.Tasks.{first_of, tests, unknown_task, not_of, not_in, stack_not_empty};
ghost use Rattle.lp_machine.specs.Machine.{refusal_of, outlines_of};

use super::Core;
use crate::{Event, Refusal};
use lp_model::{Consistency, ForkKind};
use lp_stack::{Class, MOST_FRAMES, Mode, TaskId};
use lp_symbols::SymId;
use lp_tasks::TaskTable;

impl<M: Consistency> Core<M> {
    /// Why an event is refused: the first refusal that fits; None where it is accepted.
    #[tactic(auto, unfolding(lp_machine::specs::Machine::refusal_of))]
    #[inline(always)]
    pub fn refusal(&self, event: Event) -> Option<Refusal>
        ensures { result ≡ refusal_of M.rules (state_in self.now) event }
    {
        match event {
            Event::Call(task, func) => {
                call_refusal(&self.tasks, self.patches.symbols(), task, func)
            }
            Event::Ret(task) => ret_refusal(&self.tasks, task),
            Event::Sleep(task) => mode_refusal(&self.tasks, task, Mode::Kernel),
            Event::Wake(task) => mode_refusal(&self.tasks, task, Mode::Asleep),
            Event::Enter(task) => class_refusal(&self.tasks, task, Class::Normal, Mode::User),
            Event::Exit(task) => empty_refusal(&self.tasks, task, Class::Normal),
            Event::Idle(task) => empty_refusal(&self.tasks, task, Class::Idle),
            Event::Resched(task) => class_refusal(&self.tasks, task, Class::Normal, Mode::Kernel),
            Event::Fork(parent, child, how) => fork_refusal(&self.tasks, parent, child, how),
            Event::Die(task) => empty_refusal(&self.tasks, task, Class::Normal),
            Event::Walk | Event::Stop => None,
            Event::Enable => self.enable_refusal(),
            Event::Disable => self.disable_refusal(),
            Event::Reverse => self.reverse_refusal(),
        }
    }
}

/// Why a call is refused.
#[inline(always)]
fn call_refusal(tasks: &TaskTable, symbols: usize, task: TaskId, func: SymId) -> Option<Refusal>
    ensures { result ≡ first_of (tests (task_numbers symbols) (outlines_of (leg_tasks tasks.now)) (Event.Call task func)) }
{
    let Some(live) = tasks.get(task) else {
        return Some(Refusal::UnknownTask);
    };
    if func.index() >= symbols {
        return Some(Refusal::UnknownSymbol);
    }
    if live.mode() != Mode::Kernel {
        return Some(Refusal::WrongMode);
    }
    if live.depth() >= MOST_FRAMES {
        return Some(Refusal::StackFull);
    }
    None
}

/// Why a return is refused, whatever symbols there are.
#[inline(always)]
fn ret_refusal(tasks: &TaskTable, task: TaskId) -> Option<Refusal>
    ensures { result ≡ first_of (tests (task_numbers 0) (outlines_of (leg_tasks tasks.now)) (Event.Ret task)) }
{
    let Some(live) = tasks.get(task) else {
        return Some(Refusal::UnknownTask);
    };
    if live.mode() != Mode::Kernel {
        return Some(Refusal::WrongMode);
    }
    if live.depth() == 0 {
        return Some(Refusal::StackEmpty);
    }
    None
}

/// Why an event that needs no more than a mode is refused: a sleep, a wake-up.
#[inline(always)]
fn mode_refusal(tasks: &TaskTable, task: TaskId, mode: Mode) -> Option<Refusal>
    ensures { let now = outlines_of (leg_tasks tasks.now) in result ≡ first_of (unknown_task now task.0 ∷ not_in mode now task.0 ∷ []) }
{
    let Some(live) = tasks.get(task) else {
        return Some(Refusal::UnknownTask);
    };
    if live.mode() != mode {
        return Some(Refusal::WrongMode);
    }
    None
}

/// Why an event is refused at which a task of this class leaves the kernel or is done with it: an
/// exit, an idle point, an end. A frame left there would be a call that never returns.
fn empty_refusal(tasks: &TaskTable, task: TaskId, class: Class) -> Option<Refusal>
    ensures { let now = outlines_of (leg_tasks tasks.now) in result ≡ first_of (unknown_task now task.0 ∷ not_of class now task.0 ∷ not_in Mode.Kernel now task.0 ∷ stack_not_empty now task.0 ∷ []) }
{
    if let Some(why) = class_refusal(tasks, task, class, Mode::Kernel) {
        return Some(why);
    }
    let Some(live) = tasks.get(task) else {
        return Some(Refusal::UnknownTask);
    };
    if live.depth() != 0 {
        return Some(Refusal::StackNotEmpty);
    }
    None
}

/// Why an event is refused that a task of this class makes in this mode, whatever is on its stack: an entry into the kernel, a
/// check that it makes there.
#[inline(always)]
fn class_refusal(tasks: &TaskTable, task: TaskId, class: Class, mode: Mode) -> Option<Refusal>
    ensures { let now = outlines_of (leg_tasks tasks.now) in result ≡ first_of (unknown_task now task.0 ∷ not_of class now task.0 ∷ not_in mode now task.0 ∷ []) }
{
    let Some(live) = tasks.get(task) else {
        return Some(Refusal::UnknownTask);
    };
    if live.class() != class {
        return Some(Refusal::WrongClass);
    }
    if live.mode() != mode {
        return Some(Refusal::WrongMode);
    }
    None
}

/// Why a fork is refused, whatever symbols there are.
fn fork_refusal(tasks: &TaskTable, parent: TaskId, child: TaskId, how: ForkKind) -> Option<Refusal>
    ensures { result ≡ first_of (tests (task_numbers 0) (outlines_of (leg_tasks tasks.now)) (Event.Fork parent child how)) }
{
    let Some(live) = tasks.get(parent) else {
        return Some(Refusal::UnknownTask);
    };
    if child.0 == 0 {
        return Some(Refusal::TaskRange);
    }
    if tasks.is_used(child) {
        return Some(Refusal::TaskUsed);
    }
    if live.class() != Class::Normal {
        return Some(Refusal::WrongClass);
    }
    if live.mode() != Mode::Kernel {
        return Some(Refusal::WrongMode);
    }
    None
}
