//! What the lines of a trace text have given so far.
ghost use Rattle.std.specs.Prelude.{◌≡◌, ◌≤◌, ◌+◌, ◌-◌, ◌<◌, ◌++◌, ◌∷◌, [], ◌==◌, ℕ, length, take, map, OnOk, IfOk, IfNone, IfSome, Ok, false, slice_index_or, option_copied};
ghost use Rattle.lp_text.specs.declared.keyword.LineKeyword.TheVariants as keyword;
ghost use Rattle.lp_text.specs.inside.Cut.{words_left};
ghost use Rattle.lp_text.specs.inside.Parsers.{IsTable};
ghost use Rattle.lp_text.specs.inside.QuickLines.{IsTaken};
ghost use Rattle.lp_text.specs.Traces.{functions, IsTrace};
ghost use Rattle.lp_text.specs.inside.LineFaults.{GivesExactly, GivesLine};
ghost use Rattle.lp_text.specs.Reading.{add_boot, add_event, add_function, add_symbol, at_end, begun, empty, first_word, grown, line_by_word, part_of, part_reached, with_line};
ghost use Rattle.lp_text.specs.Words.{words};

use crate::fault::{Cause, LineFault};
use crate::form::TraceForm;
use crate::keyword::{EventKeyword, LineKeyword};
use crate::line::{boot_line, event_line, patch_line, symbol_of, task_of};
use crate::quick::quick_event;
use crate::split::{cut_word, last_word};
use crate::symbol_cache::SymbolCache;
use crate::trace::Trace;
use lp_definitions::{Event, MOST_EVENTS};
use lp_numbers::NUMBERS;
use lp_patch::{MOST_FUNCTIONS, MOST_PATCHES};
use lp_stack::{Class, TaskId};
use lp_symbols::{SymFault, SymId, Symbols};
use std::alloc::{AllocError, Global};
use std::marker::Model;
use std::str;

/// What the lines so far have given. Contracts see it as a trace.
pub(crate) struct Parser {
    form: TraceForm,
    symbols: Symbols,
    cache: SymbolCache,
    patches: Vec<Vec<SymId>>,
    boots: Vec<(TaskId, Class)>,
    /// For each task number, whether a boot line has it.
    booted: Vec<bool>,
    events: Vec<Event>,
}

/// By hand, so that the proof of who owns one lets go of it in one step, not field by field.
impl Drop for Parser {
    fn drop(self) {
        let Parser {
            form: _,
            symbols: _,
            cache: _,
            patches: _,
            boots: _,
            booted: _,
            events: _,
        } = self;
    }
}

impl Model for Parser {
    ghost use Rattle.std.specs.List.{IsDistinct};
    ghost use Rattle.std.specs.Str.{bytes_eq};
    ghost use Rattle.lp_text.specs.Traces.{TraceValue, AreNames, functions};
    ghost use Rattle.lp_text.specs.inside.Parsers.{IsTable};

    ghost Value = { TraceValue };

    ghost view = { λ d. record { form = d.form; symbols = d.symbols; patches = functions d.patches.items; boots = d.boots.items; events = d.events.items } };

    ghost invariant = { λ d. AreNames d.symbols × IsTable d.boots.items d.booted.items × IsDistinct bytes_eq d.symbols };
}

impl Parser {
    /// Nothing but the first line.
    pub(crate) fn new(alloc: Global, form: TraceForm) -> Result<Parser, LineFault>
        ensures { GivesLine (λ parser. parser) result (Ok (empty form)) }
    {
        let booted = all_false(alloc, NUMBERS)?;
        let Ok(symbols) = Symbols::new(alloc) else {
            return Err(LineFault::NoMemory);
        };
        let Ok(cache) = SymbolCache::new(alloc) else {
            return Err(LineFault::NoMemory);
        };
        Ok(Parser {
            form,
            symbols,
            cache,
            patches: Vec::new(alloc),
            boots: Vec::new(alloc),
            booted,
            events: Vec::new(alloc),
        })
    }

    /// Which of the texts it is.
    pub(crate) fn form(&self) -> TraceForm
        ensures { result ≡ self.now.form }
    {
        self.form
    }

    /// One line more, without its end.
    #[inline(always)]
    #[tactic(auto, unfolding(crate::specs::Reading::with_line))]
    pub(crate) fn add_line(&mut self, alloc: Global, line: &[u8]) -> Result<(), LineFault>
        ensures { GivesLine (λ _. self.new) result (with_line self.old (words line.now)) }
    {
        let (word, left) = cut_word(line);
        match self.first_word(word) {
            Ok(LineKeyword::Sym) => self.add_symbol_line(left),
            Ok(LineKeyword::Patch) => self.add_patch_line(alloc, left),
            Ok(LineKeyword::Boot) => self.add_boot_line(left),
            Ok(LineKeyword::Event(word)) => self.add_event_line(word, left),
            Err(cause) => Err(LineFault::Cause(cause)),
        }
    }

    /// One line more of a symbol, by the words after its first.
    #[tactic(auto, unfolding(crate::specs::Reading::line_by_word))]
    fn add_symbol_line(&mut self, left: Option<&[u8]>) -> Result<(), LineFault>
        ensures { GivesLine (λ _. self.new) result (line_by_word self.old keyword.Sym (words_left (option_copied left.entry))) }
    {
        match last_word(left) {
            Ok(name) => self.add_symbol(name),
            Err(cause) => Err(LineFault::Cause(cause)),
        }
    }

    /// One line more of a patch.
    #[tactic(auto, unfolding(crate::specs::Reading::line_by_word))]
    fn add_patch_line(&mut self, alloc: Global, left: Option<&[u8]>) -> Result<(), LineFault>
        ensures { GivesLine (λ _. self.new) result (line_by_word self.old keyword.Patch (words_left (option_copied left.entry))) }
    {
        match patch_line(self.form, left) {
            Ok((number, name)) => self.add_function(alloc, number, name),
            Err(cause) => Err(LineFault::Cause(cause)),
        }
    }

    /// One line more of a boot task.
    #[tactic(auto, unfolding(crate::specs::Reading::line_by_word))]
    fn add_boot_line(&mut self, left: Option<&[u8]>) -> Result<(), LineFault>
        ensures { GivesLine (λ _. self.new) result (line_by_word self.old keyword.Boot (words_left (option_copied left.entry))) }
    {
        match boot_line(left) {
            Ok((number, class)) => self.add_boot(number, class),
            Err(cause) => Err(LineFault::Cause(cause)),
        }
    }

    /// One line more of an event, which begins with this word.
    #[inline(always)]
    #[tactic(auto, unfolding(crate::specs::Reading::line_by_word))]
    fn add_event_line(&mut self, word: EventKeyword, left: Option<&[u8]>) -> Result<(), LineFault>
        ensures { GivesLine (λ _. self.new) result (line_by_word self.old (keyword.Event word) (words_left (option_copied left.entry))) }
    {
        match event_line(&self.symbols, &mut self.cache, word, left) {
            Ok(event) => self.add_event(event),
            Err(cause) => Err(LineFault::Cause(cause)),
        }
    }

    /// Takes the line that a text begins with, if it is a plain one of an event and there is room for the event, and
    /// gives what stands after it. A line that isn't taken is left to `add_line`, with its faults.
    #[inline(always)]
    pub(crate) fn take_quick<'a>(&mut self, text: &'a [u8]) -> Option<&'a [u8]>
        ensures taken { IfSome result (λ rest. IsTaken self.old self.new text.now rest.now) }
        ensures none { IfNone result (self.new ≡ self.old) }
    {
        let count = self.events.len();
        if self.patches.is_empty()
            || count >= MOST_EVENTS as usize
            || count >= self.events.capacity()
        {
            return None;
        }
        let (event, rest) = quick_event(&self.symbols, &self.cache, text)?;
        self.events.push_reserved(event);
        Some(rest)
    }

    /// The end of the text, where these bytes stand after the last line end.
    #[tactic(auto, unfolding(crate::specs::Reading::at_end))]
    pub(crate) fn at_end(&self, rest: &[u8]) -> Result<(), Cause>
        ensures { GivesExactly (λ _. self.now) result (at_end self.now rest.now) }
    {
        if !rest.is_empty() {
            return Err(Cause::Unended);
        }
        if self.patches.is_empty() {
            return Err(Cause::Patch);
        }
        Ok(())
    }

    /// The trace that the lines spell.
    pub(crate) fn into_trace(self) -> Trace
        requires { IsTrace self }
        ensures { result ≡ self }
    {
        let Self {
            form,
            symbols,
            cache: _,
            patches,
            boots,
            booted: _,
            events,
        } = self;
        Trace::from_parts(form, symbols, patches, boots, events)
    }

    /// The first word of the next line.
    #[inline(always)]
    #[tactic(auto, unfolding(crate::specs::Reading::first_word))]
    fn first_word(&self, word: &[u8]) -> Result<LineKeyword, Cause>
        ensures { GivesExactly (λ first. first) result (first_word self.now word.now) }
    {
        let Some(first) = LineKeyword::of(word) else {
            return Err(Cause::Word);
        };
        if !self.form.has_word(first) || part_of(first) < self.part_reached() {
            return Err(Cause::Word);
        }
        if part_of(first) > 2 && self.patches.is_empty() {
            return Err(Cause::Patch);
        }
        Ok(first)
    }

    /// The last part that has a line.
    #[inline(always)]
    fn part_reached(&self) -> u8
        ensures { result ≡ part_reached self.now }
    {
        if !self.events.is_empty() {
            4
        } else if !self.boots.is_empty() {
            3
        } else if !self.patches.is_empty() {
            2
        } else {
            1
        }
    }

    /// One symbol more.
    #[tactic(auto, using(crate::proofs::Symbols::odd_symbol), unfolding(crate::specs::Reading::add_symbol))]
    pub(crate) fn add_symbol(&mut self, name: &[u8]) -> Result<(), LineFault>
        ensures { GivesLine (λ _. self.new) result (add_symbol self.old name.now) }
    {
        let Ok(text) = str::from_utf8(name) else {
            return Err(LineFault::Cause(Cause::Name));
        };
        let added = self.symbols.add(text);
        // For the proof alone: its contract says that no name is there twice, by which a call's name tells one symbol.
        let _ = self.symbols.len();
        match added {
            Ok(_) => Ok(()),
            Err(SymFault::BadName) => Err(LineFault::Cause(Cause::Name)),
            Err(SymFault::Doubled) => Err(LineFault::Cause(Cause::Doubled)),
            Err(SymFault::TooMany) => Err(LineFault::Cause(Cause::Many)),
            Err(SymFault::NoMemory) => Err(LineFault::NoMemory),
        }
    }

    /// One function more of the patch of a number.
    #[tactic(auto, unfolding(crate::specs::Reading::add_function))]
    pub(crate) fn add_function(
        &mut self,
        alloc: Global,
        number: u32,
        name: &[u8],
    ) -> Result<(), LineFault>
        ensures { GivesLine (λ _. self.new) result (add_function self.old (number, name.now)) }
    {
        let func = match symbol_of(&self.symbols, name) {
            Ok(func) => func,
            Err(cause) => return Err(LineFault::Cause(cause)),
        };
        if let Err(cause) = check_function(self.patches.as_slice(), number, func) {
            return Err(LineFault::Cause(cause));
        }
        match put_function(alloc, &mut self.patches, number as usize, func) {
            Ok(()) => Ok(()),
            Err(_) => Err(LineFault::NoMemory),
        }
    }

    /// One boot task more.
    #[tactic(auto, unfolding(crate::specs::Reading::add_boot))]
    pub(crate) fn add_boot(&mut self, number: u32, class: Class) -> Result<(), LineFault>
        ensures { GivesLine (λ _. self.new) result (add_boot self.old (number, class)) }
    {
        let task = match task_of(number) {
            Ok(task) => task,
            Err(cause) => return Err(LineFault::Cause(cause)),
        };
        let place = usize::from(task.0);
        if self.booted[place] {
            return Err(LineFault::Cause(Cause::Task));
        }
        let Ok(()) = self.boots.push((task, class)) else {
            return Err(LineFault::NoMemory);
        };
        self.booted[place] = true;
        Ok(())
    }

    /// One event more.
    #[inline(always)]
    #[tactic(auto, unfolding(crate::specs::Reading::add_event))]
    pub(crate) fn add_event(&mut self, event: Event) -> Result<(), LineFault>
        ensures { GivesLine (λ _. self.new) result (add_event self.old event) }
    {
        if self.events.len() == MOST_EVENTS as usize {
            return Err(LineFault::Cause(Cause::Many));
        }
        match self.events.push(event) {
            Ok(()) => Ok(()),
            Err(_) => Err(LineFault::NoMemory),
        }
    }
}

/// A table of a size, of which no entry is set.
fn all_false(alloc: Global, size: usize) -> Result<Vec<bool>, AllocError>
    ensures size { IfOk result (λ table. length table.items ≡ size) }
    ensures unset { IfOk result (λ table. (i : ℕ) → slice_index_or table.items i false ≡ false) }
{
    vec![in alloc; false; size]
}

/// The part of a text that a line of this word belongs to, from 1.
#[inline(always)]
fn part_of(word: LineKeyword) -> u8
    ensures { result ≡ part_of word }
{
    match word {
        LineKeyword::Sym => 1,
        LineKeyword::Patch => 2,
        LineKeyword::Boot => 3,
        LineKeyword::Event(_) => 4,
    }
}

/// What the patch of a number has so far, where a line may add to it.
#[tactic(auto, unfolding(crate::specs::Reading::begun))]
fn begun(patches: &[Vec<SymId>], number: u32) -> Result<&[SymId], Cause>
    ensures { GivesExactly (λ had. had.now) result (begun (functions patches.now) number) }
{
    if number == 0 {
        return Err(Cause::Patch);
    }
    let count = number as usize;
    if count == patches.len() {
        return Ok(patches[count - 1].as_slice());
    }
    if count > MOST_PATCHES || count != patches.len() + 1 {
        return Err(Cause::Patch);
    }
    Ok(&[])
}

/// What the patch of a number has with one function more.
#[tactic(auto, unfolding(crate::specs::Reading::grown))]
fn check_function(patches: &[Vec<SymId>], number: u32, func: SymId) -> Result<(), Cause>
    ensures grown { GivesExactly (λ _. slice_index_or (functions patches.now) (number - 1) [] ++ func ∷ []) result (grown (functions patches.now) number func) }
    ensures place { OnOk result ((1 ≤ number) × (number ≤ length patches.now + 1) × (length patches.now ≤ number)) }
{
    let had = begun(patches, number)?;
    if had.contains(&func) {
        return Err(Cause::Patch);
    }
    if had.len() == MOST_FUNCTIONS {
        return Err(Cause::Many);
    }
    Ok(())
}

/// Adds a function to the patch of a number, the last one or one more.
fn put_function(
    alloc: Global,
    patches: &mut Vec<Vec<SymId>>,
    number: usize,
    func: SymId,
) -> Result<(), AllocError>
    requires some { 1 ≤ number }
    requires last { length patches.old.items ≤ number }
    requires more { number ≤ length patches.old.items + 1 }
    ensures { OnOk result (functions patches.new.items ≡ take (number - 1) (functions patches.old.items) ++ (slice_index_or (functions patches.old.items) (number - 1) [] ++ func ∷ []) ∷ []) }
{
    if number > patches.len() {
        return put_first(alloc, patches, func);
    }
    match patches[number - 1].push(func) {
        Ok(()) => Ok(()),
        Err(_) => Err(AllocError),
    }
}

/// Adds one patch more, of a function.
fn put_first(alloc: Global, patches: &mut Vec<Vec<SymId>>, func: SymId) -> Result<(), AllocError>
    ensures { OnOk result (functions patches.new.items ≡ functions patches.old.items ++ (func ∷ []) ∷ []) }
{
    let patch = Vec::from_slice(alloc, &[func])?;
    match patches.push(patch) {
        Ok(()) => Ok(()),
        Err(_) => Err(AllocError),
    }
}
