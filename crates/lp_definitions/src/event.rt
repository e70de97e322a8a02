//! What happens to tasks and transitions.
ghost use Rattle.std.specs.Prelude.{◌≡◌, Some};
ghost use Rattle.lp_definitions.specs.Events.{is_control, is_scan};
ghost use Rattle.lp_definitions.specs.Printed.{event_text, event_word};
ghost use Rattle.lp_definitions.specs.TaskEvents.{is_quiet};

use lp_model::ForkKind;
use lp_stack::TaskId;
use lp_symbols::SymId;
use std::fmt;

/// What happens to tasks and transitions, in one order for all tasks.
#[derive(Clone, Copy, Debug, PartialEq, Eq)]
pub enum Event {
    /// The task calls a function.
    Call(TaskId, SymId),
    /// The task returns from the function that it called last.
    Ret(TaskId),
    /// The task leaves its CPU, in the kernel.
    Sleep(TaskId),
    /// The task is on a CPU again, in the kernel.
    Wake(TaskId),
    /// The task enters the kernel from user space.
    Enter(TaskId),
    /// The task returns to user space, which checks it (kGraft; Linux livepatch's switch on the way
    /// out of the kernel).
    Exit(TaskId),
    /// The idle task is at the point in its loop where nothing runs, which checks it
    /// (Linux livepatch's switch of idle tasks).
    Idle(TaskId),
    /// The task, in the kernel on a CPU, is at a point where it would let another run, which checks it
    /// with the stack that it has (Linux livepatch from 6.4 on, at `cond_resched`).
    Resched(TaskId),
    /// The first task forks the second, which starts on the level of the first
    /// (Linux livepatch's `klp_copy_process`).
    Fork(TaskId, TaskId, ForkKind),
    /// The task ends.
    Die(TaskId),
    /// The stacks of all tasks are looked at while they run (Linux livepatch's periodic work).
    Walk,
    /// All CPUs are stopped, and every stack is looked at (Ksplice).
    Stop,
    /// A transition to the next higher level begins.
    Enable,
    /// A transition to the next lower level begins.
    Disable,
    /// The transition under way turns round to the level that it came from.
    Reverse,
}

impl Event {
    /// Whether the event looks at every stack: Walk or Stop.
    pub fn is_scan(&self) -> bool
        ensures { result ≡ is_scan self.now }
    {
        matches!(self, Event::Walk | Event::Stop)
    }

    /// Whether the event begins or turns a transition: Enable, Disable or Reverse.
    pub fn is_control(&self) -> bool
        ensures { result ≡ is_control self.now }
    {
        matches!(self, Event::Enable | Event::Disable | Event::Reverse)
    }

    /// Whether the event is one of a single task at which no model checks it: Call, Ret, Sleep, Wake
    /// or Enter.
    #[inline(always)]
    pub fn is_quiet(&self) -> bool
        ensures { result ≡ is_quiet self.now }
    {
        matches!(
            self,
            Event::Call(..) | Event::Ret(_) | Event::Sleep(_) | Event::Wake(_) | Event::Enter(_)
        )
    }
}

impl Event {
    /// The word that begins its line in a trace.
    fn word(&self) -> &'static str
        ensures { result.now ≡ event_word self.now }
    {
        match self {
            Event::Call(..) => "call",
            Event::Ret(_) => "ret",
            Event::Sleep(_) => "sleep",
            Event::Wake(_) => "wake",
            Event::Enter(_) => "enter",
            Event::Exit(_) => "exit",
            Event::Idle(_) => "idle",
            Event::Resched(_) => "resched",
            Event::Fork(..) => "fork",
            Event::Die(_) => "die",
            Event::Walk => "walk",
            Event::Stop => "stop",
            Event::Enable => "enable",
            Event::Disable => "disable",
            Event::Reverse => "reverse",
        }
    }
}

/// As the trace text writes it, but with a function's number, as an event doesn't know its name.
impl fmt::Display for Event {
    ghost output = { λ event. Some (event_text event) };

    fn fmt<W: fmt::Write>(&self, f: &mut fmt::Formatter<W>) -> fmt::Result {
        f.write_str(self.word())?;
        match self {
            Event::Call(task, func) => write!(f, " {} {}", task.0, func.0),
            Event::Fork(parent, child, how) => write!(f, " {} {} {how}", parent.0, child.0),
            Event::Ret(task)
            | Event::Sleep(task)
            | Event::Wake(task)
            | Event::Enter(task)
            | Event::Exit(task)
            | Event::Idle(task)
            | Event::Resched(task)
            | Event::Die(task) => write!(f, " {}", task.0),
            Event::Walk | Event::Stop | Event::Enable | Event::Disable | Event::Reverse => Ok(()),
        }
    }
}
