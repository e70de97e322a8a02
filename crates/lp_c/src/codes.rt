//! The numbers by which C names what it cannot see.
ghost use Rattle.std.specs.Prelude.{◌≡◌, slice_get};
ghost use Rattle.lp_models.specs.Models.{models};
ghost use Rattle.lp_c.specs.Codes.{boot_of, cert_code as code_of_cert, events_of, line_code as code_of_line, mode_number as mode_code, told_of};

use livepatch::{Cert, Class, Event, ForkKind, Line, Mode, ModelName, Reply, SymId, TaskId, What};

/// A status: the call did what it says.
pub(crate) const OK: u32 = 0;

/// E13: an allocation failed. Nothing has happened.
pub(crate) const NO_MEMORY: u32 = 13;

/// E14: 1,000,000 events are numbered. Nothing has happened.
pub(crate) const JOURNAL_FULL: u32 = 14;

/// The slot is empty.
pub(crate) const NO_ENGINE: u32 = 20;

/// The slot has an engine already.
pub(crate) const HAS_ENGINE: u32 = 21;

/// The number names no model.
pub(crate) const NO_MODEL: u32 = 22;

/// The number names no kind of event.
pub(crate) const NO_EVENT: u32 = 23;

/// There is no such task, group, line or blame.
pub(crate) const NOT_THERE: u32 = 24;

/// P1: no symbol, or no patch.
pub(crate) const PATCH_EMPTY: u32 = 31;

/// P2: a function's number is not below the count of symbols.
pub(crate) const PATCH_UNKNOWN: u32 = 32;

/// P3: a function is twice in one patch.
pub(crate) const PATCH_DOUBLED: u32 = 33;

/// P4: more than 256 functions in one patch.
pub(crate) const PATCH_TOO_MANY: u32 = 34;

/// P6: more than 16 patches.
pub(crate) const TOO_MANY_PATCHES: u32 = 36;

/// The lengths of the patches don't sum to the count of the functions, or there are more than 4,096 symbols.
pub(crate) const PATCH_LENGTHS: u32 = 37;

/// T1: a boot task has the number 0.
pub(crate) const TASK_RANGE: u32 = 41;

/// T2: two boot tasks have one number.
pub(crate) const TASK_DOUBLED: u32 = 42;

/// A boot task: its number, and whether it is an idle task (any other number than 0).
#[repr(C)]
#[derive(Clone, Copy)]
pub struct BootTask {
    pub task: u16,
    pub idle: u16,
}

/// An event: its kind, its task, and the function of a call or the child of a fork.
#[repr(C)]
#[derive(Clone, Copy)]
pub struct EventCode {
    pub kind: u32,
    pub task: u16,
    pub other: u16,
}

/// The reply to an event. `what` is 0 for a call, which ran `level`; 1 where nobody switched; 2 where `groups` groups
/// switched; 3 where the event was refused, as E1 to E12 by `refusal`. `complete` is 1 where the transition is complete
/// from this event on.
#[repr(C)]
#[derive(Clone, Copy)]
pub struct Told {
    pub what: u32,
    pub level: u32,
    pub refusal: u32,
    pub complete: u32,
    pub groups: usize,
}

/// Where the engine stands: how many events came, the level to which the tasks switch or on which all are, and whether a
/// transition is under way.
#[repr(C)]
#[derive(Clone, Copy)]
pub struct EngineState {
    pub events: u64,
    pub target: u32,
    pub in_transition: u32,
}

/// A live task: its level, its group, its mode (0 in user space, 1 in the kernel, 2 asleep), and how many frames it has.
#[repr(C)]
#[derive(Clone, Copy)]
pub struct TaskState {
    pub level: u32,
    pub group: u32,
    pub mode: u32,
    pub unused: u32,
    pub depth: usize,
}

/// The frame that holds a group back: its task, and the number of the event that pushed it.
#[repr(C)]
#[derive(Clone, Copy)]
pub struct BlameCode {
    pub serial: u64,
    pub task: u32,
    pub unused: u32,
}

/// A certificate that a group waits: the event that opened the leg, the last event after which it waits, and how many lines
/// say why.
#[repr(C)]
#[derive(Clone, Copy)]
pub struct CertCode {
    pub leg: u64,
    pub upto: u64,
    pub lines: usize,
}

/// A line of a certificate. `kind` is 0 where the frame of `serial` holds the task back from event `from` to `to`; 1 where the
/// task is on a CPU at event `from`; 2 where the group was born at event `from`, by the task.
#[repr(C)]
#[derive(Clone, Copy)]
pub struct LineCode {
    pub kind: u32,
    pub group: u32,
    pub task: u32,
    pub unused: u32,
    pub serial: u64,
    pub from: u64,
    pub to: u64,
}

/// The model that a number names.
pub(crate) fn model_of(number: u32) -> Option<ModelName>
    ensures { result ≡ slice_get models number }
{
    let all = ModelName::all();
    all.get(number as usize).copied()
}

/// The event that a code stands for.
pub(crate) fn event_of(code: EventCode) -> Option<Event>
    ensures { result ≡ slice_get (events_of code.task code.other) code.kind }
{
    let task = TaskId(code.task);
    let event = match code.kind {
        0 => Event::Call(task, SymId(code.other)),
        1 => Event::Ret(task),
        2 => Event::Sleep(task),
        3 => Event::Wake(task),
        4 => Event::Enter(task),
        5 => Event::Exit(task),
        6 => Event::Idle(task),
        7 => Event::Fork(task, TaskId(code.other), ForkKind::Own),
        8 => Event::Fork(task, TaskId(code.other), ForkKind::Share),
        9 => Event::Die(task),
        10 => Event::Walk,
        11 => Event::Stop,
        12 => Event::Enable,
        13 => Event::Disable,
        14 => Event::Reverse,
        15 => Event::Resched(task),
        _ => return None,
    };
    Some(event)
}

/// A boot task with its class.
pub(crate) fn boot_of(boot: BootTask) -> (TaskId, Class)
    ensures { result ≡ boot_of boot }
{
    let class = if boot.idle == 0 {
        Class::Normal
    } else {
        Class::Idle
    };
    (TaskId(boot.task), class)
}

/// The reply as C is told of it.
pub(crate) fn told_of(reply: &Reply) -> Told
    ensures { result ≡ told_of reply.now }
{
    let complete = u32::from(reply.completed);
    let (what, level, refusal, groups) = match &reply.what {
        What::Ran(level) => (0, u32::from(level.0), 0, 0),
        What::Done => (1, 0, 0, 0),
        What::Switched(list) => (2, 0, 0, list.len()),
        What::Refused(why) => (3, 0, u32::from(why.number()), 0),
    };
    Told {
        what,
        level,
        refusal,
        complete,
        groups,
    }
}

/// The number of a mode.
pub(crate) fn mode_number(mode: Mode) -> u32
    ensures { result ≡ mode_code mode }
{
    match mode {
        Mode::User => 0,
        Mode::Kernel => 1,
        Mode::Asleep => 2,
    }
}

/// A certificate without its lines, and how many it has.
pub(crate) fn cert_code(cert: &Cert) -> CertCode
    ensures { result ≡ code_of_cert cert.now }
{
    CertCode {
        leg: cert.leg,
        upto: cert.upto,
        lines: cert.lines.len(),
    }
}

/// A line of a certificate.
pub(crate) fn line_code(line: &Line) -> LineCode
    ensures { result ≡ code_of_line line.now }
{
    let (kind, group, task, serial, from, to) = match *line {
        Line::Hold {
            group,
            task,
            serial,
            from,
            to,
        } => (0, group, task, serial, from, to),
        Line::Busy { group, task, at } => (1, group, task, 0, at, at),
        Line::Born { group, parent, at } => (2, group, parent, 0, at, at),
    };
    LineCode {
        kind,
        group: u32::from(group.0),
        task: u32::from(task.0),
        unused: 0,
        serial,
        from,
        to,
    }
}
