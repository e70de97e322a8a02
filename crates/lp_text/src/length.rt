//! How many bytes the lines of a trace text have, with their ends.
ghost use Rattle.std.specs.Prelude.{◌≡◌, ◌≤◌, ◌∷◌, [], decimal, length, MatchOption};
ghost use Rattle.lp_text.specs.inside.Builders.{IsOut};
ghost use Rattle.lp_text.specs.Words.{event_word, line_of};
ghost use Rattle.lp_text.specs.Traces.{IsEvent, IsTask, boot_words, event_words, patch_words, sym_words};

use crate::form::TraceForm;
use crate::keyword::{EventKeyword, LineKeyword, class_word, fork_word};
use crate::write::name_of;
use itoa::Buffer;
use lp_definitions::Event;
use lp_model::ForkKind;
use lp_stack::{Class, TaskId};
use lp_symbols::{SymId, Symbols};

/// How many digits a number has.
fn digits(number: u16) -> usize
    ensures value { result ≡ length (decimal number) }
    ensures few { result ≤ 40 }
{
    Buffer::new().format(number).len()
}

/// The line of a symbol.
pub(crate) fn symbol_bytes(name: &[u8]) -> usize
    ensures { result ≡ length (line_of (sym_words name.now)) }
{
    LineKeyword::Sym.bytes().len() + name.len() + 2
}

/// The line of a function of the patch of a number.
pub(crate) fn function_bytes(form: TraceForm, patch: u16, name: &[u8]) -> usize
    ensures { result ≡ length (line_of (patch_words form patch name.now)) }
{
    let unnumbered = LineKeyword::Patch.bytes().len() + name.len() + 2;
    match form {
        TraceForm::Single => unnumbered,
        TraceForm::Stacked | TraceForm::WithResched => unnumbered + digits(patch) + 1,
    }
}

/// The line of a boot task.
pub(crate) fn boot_bytes(task: TaskId, class: Class) -> usize
    ensures { result ≡ length (line_of (boot_words (task, class))) }
{
    LineKeyword::Boot.bytes().len() + digits(task.0) + class_word(class).len() + 3
}

/// The line of an event of no task.
fn word_bytes(word: EventKeyword) -> usize
    ensures { result ≡ length (line_of (event_word word ∷ [])) }
{
    word.bytes().len() + 1
}

/// The line of an event of one task; None where the task's number is 0.
fn task_bytes(word: EventKeyword, task: TaskId) -> Option<usize>
    ensures { MatchOption result (task.0 ≡ 0) (λ bytes. IsTask task × (bytes ≡ length (line_of (event_word word ∷ decimal task.0 ∷ [])))) }
{
    if task.0 == 0 {
        return None;
    }
    Some(word.bytes().len() + digits(task.0) + 2)
}

/// The line of a call; None where the function is no symbol or the task's number is 0.
fn call_bytes(symbols: &Symbols, task: TaskId, func: SymId) -> Option<usize>
    ensures { MatchOption result (IsOut (length symbols.now) (Event.Call task func)) (λ bytes. IsEvent (length symbols.now) (Event.Call task func) × (bytes ≡ length (line_of (event_words symbols.now (Event.Call task func))))) }
{
    if task.0 == 0 || func.index() >= symbols.len() {
        return None;
    }
    let name = name_of(symbols, func);
    Some(EventKeyword::Call.bytes().len() + digits(task.0) + name.len() + 3)
}

/// The line of a fork; None where a task's number is 0.
fn fork_bytes(parent: TaskId, child: TaskId, how: ForkKind) -> Option<usize>
    ensures { MatchOption result (IsOut 0 (Event.Fork parent child how)) (λ bytes. IsEvent 0 (Event.Fork parent child how) × (bytes ≡ length (line_of (event_words [] (Event.Fork parent child how))))) }
{
    if parent.0 == 0 || child.0 == 0 {
        return None;
    }
    let numbers = digits(parent.0) + digits(child.0);
    Some(EventKeyword::Fork.bytes().len() + numbers + fork_word(how).len() + 4)
}

/// The line of an event; None where it has no spelling.
pub(crate) fn event_bytes(symbols: &Symbols, event: Event) -> Option<usize>
    ensures { MatchOption result (IsOut (length symbols.now) event) (λ bytes. IsEvent (length symbols.now) event × (bytes ≡ length (line_of (event_words symbols.now event)))) }
{
    match event {
        Event::Call(task, func) => call_bytes(symbols, task, func),
        Event::Ret(task) => task_bytes(EventKeyword::Ret, task),
        Event::Sleep(task) => task_bytes(EventKeyword::Sleep, task),
        Event::Wake(task) => task_bytes(EventKeyword::Wake, task),
        Event::Enter(task) => task_bytes(EventKeyword::Enter, task),
        Event::Exit(task) => task_bytes(EventKeyword::Exit, task),
        Event::Idle(task) => task_bytes(EventKeyword::Idle, task),
        Event::Resched(task) => task_bytes(EventKeyword::Resched, task),
        Event::Fork(parent, child, how) => fork_bytes(parent, child, how),
        Event::Die(task) => task_bytes(EventKeyword::Die, task),
        Event::Walk => Some(word_bytes(EventKeyword::Walk)),
        Event::Stop => Some(word_bytes(EventKeyword::Stop)),
        Event::Enable => Some(word_bytes(EventKeyword::Enable)),
        Event::Disable => Some(word_bytes(EventKeyword::Disable)),
        Event::Reverse => Some(word_bytes(EventKeyword::Reverse)),
    }
}
