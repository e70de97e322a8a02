//! Which events are accepted. Control events are: in a leg they change nothing.
ghost use Rattle.std.specs.Prelude.{◌≡◌, [], ◌∷◌, is_none};
ghost use Rattle.lp_machine.specs.Table.{leg_tasks};
ghost use Rattle.lp_definitions.specs.Run.{task_numbers};
ghost use Rattle.lp_definitions.specs.Tasks.{first_of, tests, unknown_task, not_of, not_in, stack_not_empty};
ghost use Rattle.lp_machine.specs.Machine.{outlines_of};

use super::table::FoldedTable;
use lp_definitions::Event;
use lp_model::ForkKind;
use lp_stack::{Class, MOST_FRAMES, Mode, TaskId};
use lp_symbols::SymId;

/// Whether an event is accepted, with this many symbols.
pub(crate) fn accepts(tasks: &FoldedTable, symbols: usize, event: Event) -> bool
    ensures { result ≡ is_none (first_of (tests (task_numbers symbols) (outlines_of (leg_tasks tasks.now)) event)) }
{
    match event {
        Event::Call(task, func) => accepts_call(tasks, symbols, task, func),
        Event::Ret(task) => accepts_ret(tasks, symbols, task),
        Event::Sleep(task) => accepts_mode(tasks, task, Mode::Kernel),
        Event::Wake(task) => accepts_mode(tasks, task, Mode::Asleep),
        Event::Enter(task) => accepts_enter(tasks, symbols, task),
        Event::Exit(task) => accepts_empty(tasks, task, Class::Normal),
        Event::Idle(task) => accepts_empty(tasks, task, Class::Idle),
        Event::Resched(task) => accepts_kernel(tasks, task, Class::Normal),
        Event::Fork(parent, child, how) => accepts_fork(tasks, symbols, parent, child, how),
        Event::Die(task) => accepts_empty(tasks, task, Class::Normal),
        Event::Walk | Event::Stop | Event::Enable | Event::Disable | Event::Reverse => true,
    }
}

/// Whether a call is accepted.
fn accepts_call(tasks: &FoldedTable, symbols: usize, task: TaskId, func: SymId) -> bool
    ensures { result ≡ is_none (first_of (tests (task_numbers symbols) (outlines_of (leg_tasks tasks.now)) (Event.Call task func))) }
{
    let Some(live) = tasks.get(task) else {
        return false;
    };
    if func.index() >= symbols {
        return false;
    }
    if live.mode() != Mode::Kernel {
        return false;
    }
    if live.depth() >= MOST_FRAMES {
        return false;
    }
    true
}

/// Whether a return is accepted.
fn accepts_ret(tasks: &FoldedTable, symbols: usize, task: TaskId) -> bool
    ensures { result ≡ is_none (first_of (tests (task_numbers symbols) (outlines_of (leg_tasks tasks.now)) (Event.Ret task))) }
{
    let Some(live) = tasks.get(task) else {
        return false;
    };
    if live.mode() != Mode::Kernel {
        return false;
    }
    if live.depth() == 0 {
        return false;
    }
    true
}

/// Whether an event that needs no more than a mode is accepted: a sleep, a wake-up.
fn accepts_mode(tasks: &FoldedTable, task: TaskId, mode: Mode) -> bool
    ensures { let now = outlines_of (leg_tasks tasks.now) in result ≡ is_none (first_of (unknown_task now task.0 ∷ not_in mode now task.0 ∷ [])) }
{
    let Some(live) = tasks.get(task) else {
        return false;
    };
    live.mode() == mode
}

/// Whether entering the kernel is accepted.
fn accepts_enter(tasks: &FoldedTable, symbols: usize, task: TaskId) -> bool
    ensures { result ≡ is_none (first_of (tests (task_numbers symbols) (outlines_of (leg_tasks tasks.now)) (Event.Enter task))) }
{
    let Some(live) = tasks.get(task) else {
        return false;
    };
    if live.class() != Class::Normal {
        return false;
    }
    if live.mode() != Mode::User {
        return false;
    }
    true
}

/// Whether an event is accepted at which a task of this class leaves the kernel or is done with it:
/// an exit, an idle point, an end.
fn accepts_empty(tasks: &FoldedTable, task: TaskId, class: Class) -> bool
    ensures { let now = outlines_of (leg_tasks tasks.now) in result ≡ is_none (first_of (unknown_task now task.0 ∷ not_of class now task.0 ∷ not_in Mode.Kernel now task.0 ∷ stack_not_empty now task.0 ∷ [])) }
{
    let Some(live) = tasks.get(task) else {
        return false;
    };
    if live.depth() != 0 {
        return false;
    }
    accepts_kernel(tasks, task, class)
}

/// Whether an event is accepted that a task of this class makes in the kernel on a CPU, whatever is on
/// its stack.
fn accepts_kernel(tasks: &FoldedTable, task: TaskId, class: Class) -> bool
    ensures { let now = outlines_of (leg_tasks tasks.now) in result ≡ is_none (first_of (unknown_task now task.0 ∷ not_of class now task.0 ∷ not_in Mode.Kernel now task.0 ∷ [])) }
{
    let Some(live) = tasks.get(task) else {
        return false;
    };
    if live.class() != class {
        return false;
    }
    live.mode() == Mode::Kernel
}

/// Whether a fork is accepted.
fn accepts_fork(
    tasks: &FoldedTable,
    symbols: usize,
    parent: TaskId,
    child: TaskId,
    how: ForkKind,
) -> bool
    ensures { result ≡ is_none (first_of (tests (task_numbers symbols) (outlines_of (leg_tasks tasks.now)) (Event.Fork parent child how))) }
{
    let Some(live) = tasks.get(parent) else {
        return false;
    };
    if child.0 == 0 {
        return false;
    }
    if tasks.is_used(child) {
        return false;
    }
    if live.class() != Class::Normal {
        return false;
    }
    if live.mode() != Mode::Kernel {
        return false;
    }
    true
}
