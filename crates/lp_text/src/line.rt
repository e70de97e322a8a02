//! Lines of a trace text, each by its first word.
ghost use Rattle.std.specs.Prelude.{◌≡◌, option_copied};
ghost use Rattle.lp_text.specs.inside.LineFaults.{GivesExactly};
ghost use Rattle.lp_text.specs.Reading.{boot_line, call_line, event_line, fork_line, no_word, patch_line, symbol_of, task_line, task_of};
ghost use Rattle.lp_text.specs.inside.Cut.{words_left};
ghost use Rattle.lp_text.specs.Traces.{AreNames};

use crate::fault::Cause;
use crate::form::TraceForm;
use crate::keyword::{EventKeyword, class_of, fork_kind_of};
use crate::split::{last_number, last_word, next_number};
use crate::symbol_cache::SymbolCache;
use lp_definitions::Event;
use lp_numbers::NUMBERS;
use lp_stack::{Class, TaskId};
use lp_symbols::{SymId, Symbols};
use std::str;

/// The symbol of a name.
#[inline(always)]
#[tactic(auto, using(crate::proofs::Symbols::found), unfolding(crate::specs::Reading::symbol_of))]
pub(crate) fn symbol_of(symbols: &Symbols, name: &[u8]) -> Result<SymId, Cause>
    requires names { AreNames symbols.now }
    ensures { GivesExactly (λ id. id) result (symbol_of symbols.now name.now) }
{
    let Ok(text) = str::from_utf8(name) else {
        return Err(Cause::Unknown);
    };
    match symbols.find(text) {
        Some(id) => Ok(id),
        None => Err(Cause::Unknown),
    }
}

/// The task of a number.
#[inline(always)]
#[tactic(auto, unfolding(crate::specs::Reading::task_of))]
pub(crate) fn task_of(number: u32) -> Result<TaskId, Cause>
    ensures { GivesExactly (λ task. task) result (task_of number) }
{
    if number == 0 || number >= NUMBERS as u32 {
        return Err(Cause::Task);
    }
    Ok(TaskId(number as u16))
}

/// An event's line that has no further word.
#[inline(always)]
#[tactic(auto, using(crate::proofs::Cuts::no_word_more), unfolding(crate::specs::Reading::no_word))]
fn no_word(event: Event, left: Option<&[u8]>) -> Result<Event, Cause>
    ensures { GivesExactly (λ event. event) result (no_word event (words_left (option_copied left.entry))) }
{
    match left {
        None => Ok(event),
        Some(_) => Err(Cause::Shape),
    }
}

/// `call T NAME`; the name comes before the number.
#[inline(always)]
#[tactic(auto, using(crate::proofs::LastWords::then_then), unfolding(crate::specs::Reading::call_line))]
fn call_line(
    symbols: &Symbols,
    cache: &mut SymbolCache,
    left: Option<&[u8]>,
) -> Result<Event, Cause>
    requires names { AreNames symbols.now }
    ensures { GivesExactly (λ event. event) result (call_line symbols.now (words_left (option_copied left.entry))) }
{
    let (number, left) = next_number(left)?;
    let func = cache.last_symbol(symbols, left)?;
    let task = task_of(number)?;
    Ok(Event::Call(task, func))
}

/// `fork P C own` or `fork P C share`.
#[tactic(auto, unfolding(crate::specs::Reading::fork_line))]
fn fork_line(left: Option<&[u8]>) -> Result<Event, Cause>
    ensures { GivesExactly (λ event. event) result (fork_line (words_left (option_copied left.entry))) }
{
    let (first, left) = next_number(left)?;
    let (second, left) = next_number(left)?;
    let word = last_word(left)?;
    let Some(how) = fork_kind_of(word) else {
        return Err(Cause::Shape);
    };
    let parent = task_of(first)?;
    let child = task_of(second)?;
    Ok(Event::Fork(parent, child, how))
}

/// The task of an event of one task, as `ret T`.
#[inline(always)]
#[tactic(auto, unfolding(crate::specs::Reading::task_line))]
fn task_line(left: Option<&[u8]>) -> Result<TaskId, Cause>
    ensures { GivesExactly (λ task. task) result (task_line (words_left (option_copied left.entry))) }
{
    let number = last_number(left)?;
    task_of(number)
}

/// The event of a line, by its first word and the words after it.
#[inline(always)]
#[tactic(auto, unfolding(crate::specs::Reading::event_line))]
pub(crate) fn event_line(
    symbols: &Symbols,
    cache: &mut SymbolCache,
    word: EventKeyword,
    left: Option<&[u8]>,
) -> Result<Event, Cause>
    requires names { AreNames symbols.now }
    ensures { GivesExactly (λ event. event) result (event_line symbols.now word (words_left (option_copied left.entry))) }
{
    match word {
        EventKeyword::Call => call_line(symbols, cache, left),
        EventKeyword::Ret => Ok(Event::Ret(task_line(left)?)),
        EventKeyword::Sleep => Ok(Event::Sleep(task_line(left)?)),
        EventKeyword::Wake => Ok(Event::Wake(task_line(left)?)),
        EventKeyword::Enter => Ok(Event::Enter(task_line(left)?)),
        EventKeyword::Exit => Ok(Event::Exit(task_line(left)?)),
        EventKeyword::Idle => Ok(Event::Idle(task_line(left)?)),
        EventKeyword::Resched => Ok(Event::Resched(task_line(left)?)),
        EventKeyword::Fork => fork_line(left),
        EventKeyword::Die => Ok(Event::Die(task_line(left)?)),
        EventKeyword::Walk => no_word(Event::Walk, left),
        EventKeyword::Stop => no_word(Event::Stop, left),
        EventKeyword::Enable => no_word(Event::Enable, left),
        EventKeyword::Disable => no_word(Event::Disable, left),
        EventKeyword::Reverse => no_word(Event::Reverse, left),
    }
}

/// The patch's number and the function's name: `patch NAME`, or `patch K NAME` in the other texts.
#[tactic(auto, unfolding(crate::specs::Reading::patch_line))]
pub(crate) fn patch_line(form: TraceForm, left: Option<&[u8]>) -> Result<(u32, &[u8]), Cause>
    ensures { GivesExactly (λ line. (line.0, line.1.now)) result (patch_line form (words_left (option_copied left.entry))) }
{
    match form {
        TraceForm::Single => {
            let name = last_word(left)?;
            Ok((1, name))
        }
        TraceForm::Stacked | TraceForm::WithResched => {
            let (number, left) = next_number(left)?;
            let name = last_word(left)?;
            Ok((number, name))
        }
    }
}

/// The boot task's number and class: `boot N normal` or `boot N idle`.
#[tactic(auto, unfolding(crate::specs::Reading::boot_line))]
pub(crate) fn boot_line(left: Option<&[u8]>) -> Result<(u32, Class), Cause>
    ensures { GivesExactly (λ line. (line.0, line.1)) result (boot_line (words_left (option_copied left.entry))) }
{
    let (number, left) = next_number(left)?;
    let word = last_word(left)?;
    let Some(class) = class_of(word) else {
        return Err(Cause::Shape);
    };
    Ok((number, class))
}
