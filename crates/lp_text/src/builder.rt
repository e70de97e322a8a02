//! The builder of a trace text that is made of parts.
ghost use Rattle.std.specs.Prelude.{◌≡◌, ◌≤◌, ◌<◌, ◌+◌, ◌-◌, ◌∷◌, ◌++◌, [], length, map, take, IfOk, OnOk, MatchResult, slice_index_or};
ghost use Rattle.lp_text.specs.Build.{GivesPart, asked_patch, asked_patches, spelling_from};
ghost use Rattle.lp_text.specs.inside.Builders.{IsBuilt, of_fault};
ghost use Rattle.lp_text.specs.Reading.{empty};
ghost use Rattle.lp_text.specs.Traces.{boot_words, event_words, name, patch_lines, patch_words, sym_words};
ghost use Rattle.lp_text.specs.declared.form.TraceForm.TheVariants.{Single};
ghost use Rattle.lp_text.specs.declared.of.OfFault.TheVariants.{Unwritable};

use crate::fault::LineFault;
use crate::form::TraceForm;
use crate::length::{boot_bytes, event_bytes, function_bytes, symbol_bytes};
use crate::of::OfFault;
use crate::parser::Parser;
use crate::read::MOST_BYTES;
use crate::trace::Trace;
use crate::write::name_of;
use lp_definitions::Event;
use lp_stack::{Class, TaskId};
use lp_symbols::{SymId, Symbols};
use std::alloc::Global;

/// What the lines so far give, where the next one stands, and how long they are.
#[derive(Drop)]
pub(crate) struct Builder {
    parser: Parser,
    /// The place of the next part, from 1.
    place: u64,
    /// The bytes so far.
    size: usize,
}

impl LineFault {
    /// The fault of the part at a place.
    fn at_place(self, place: u64) -> OfFault
        ensures { result ≡ of_fault place self }
    {
        match self {
            LineFault::Cause(_) => OfFault::Unwritable(place),
            LineFault::NoMemory => OfFault::NoMemory,
        }
    }
}

impl Builder {
    /// The first line alone.
    pub(crate) fn new(alloc: Global, form: TraceForm) -> Result<Builder, OfFault>
        ensures { MatchResult result (λ builder. (builder.parser ≡ empty form) × IsBuilt builder.parser builder.place builder.size) (λ fault. fault ≡ OfFault.NoMemory) }
    {
        let Ok(parser) = Parser::new(alloc, form) else {
            return Err(OfFault::NoMemory);
        };
        Ok(Builder {
            parser,
            place: 1,
            size: form.header().len() + 1,
        })
    }

    /// Which of the texts it is.
    fn form(&self) -> TraceForm
        ensures { result ≡ self.now.parser.form }
    {
        self.parser.form()
    }

    /// Ends a line of so many bytes, which the parser has taken.
    fn end_line(&mut self, bytes: usize) -> Result<(), OfFault>
        requires few { self.old.size ≤ 134217728 }
        requires place { self.old.place ≤ self.old.size }
        ensures ended { MatchResult result (λ _. (self.new.place ≡ self.old.place + 1) × (self.new.size ≡ self.old.size + bytes) × (self.new.size ≤ 134217728)) (λ fault. (fault ≡ Unwritable self.old.place) × (134217728 < self.old.size + bytes)) }
        ensures same { self.new.parser ≡ self.old.parser }
    {
        if bytes > MOST_BYTES - self.size {
            return Err(OfFault::Unwritable(self.place));
        }
        self.place += 1;
        self.size += bytes;
        Ok(())
    }

    /// One symbol more.
    fn add_symbol(&mut self, name: &[u8]) -> Result<(), OfFault>
        requires built { IsBuilt self.old.parser self.old.place self.old.size }
        requires early { (self.old.parser.patches ≡ []) × (self.old.parser.boots ≡ []) × (self.old.parser.events ≡ []) }
        requires name { 0 < length name.now }
        ensures gives { GivesPart (λ _. self.new.parser) result (spelling_from self.old.place self.old.parser (sym_words name.now ∷ [])) }
        ensures built { OnOk result (IsBuilt self.new.parser self.new.place self.new.size) }
        ensures added { OnOk result (self.new.parser ≡ record self.old.parser { symbols = self.old.parser.symbols ++ name.now ∷ [] }) }
    {
        if let Err(fault) = self.parser.add_symbol(name) {
            return Err(fault.at_place(self.place));
        }
        self.end_line(symbol_bytes(name))
    }

    /// One function more of the patch of a number.
    fn add_function(
        &mut self,
        alloc: Global,
        symbols: &Symbols,
        number: u16,
        func: SymId,
    ) -> Result<(), OfFault>
        requires built { IsBuilt self.old.parser self.old.place self.old.size }
        requires early { (self.old.parser.boots ≡ []) × (self.old.parser.events ≡ []) }
        requires symbols { symbols.now ≡ self.old.parser.symbols }
        requires single { self.old.parser.form ≡ Single → number ≡ 1 }
        ensures gives { GivesPart (λ _. self.new.parser) result (spelling_from self.old.place self.old.parser (patch_words self.old.parser.form number (name symbols.now func) ∷ [])) }
        ensures built { OnOk result (IsBuilt self.new.parser self.new.place self.new.size) }
        ensures added { OnOk result (self.new.parser ≡ record self.old.parser { patches = take (number - 1) self.old.parser.patches ++ (slice_index_or self.old.parser.patches (number - 1) [] ++ func ∷ []) ∷ [] }) }
    {
        if func.index() >= symbols.len() {
            return Err(OfFault::Unwritable(self.place));
        }
        let name = name_of(symbols, func);
        if let Err(fault) = self.parser.add_function(alloc, u32::from(number), name) {
            return Err(fault.at_place(self.place));
        }
        self.end_line(function_bytes(self.form(), number, name))
    }

    /// One boot task more.
    fn add_boot(&mut self, task: TaskId, class: Class) -> Result<(), OfFault>
        requires built { IsBuilt self.old.parser self.old.place self.old.size }
        requires early { self.old.parser.events ≡ [] }
        requires patched { 1 ≤ length self.old.parser.patches }
        ensures gives { GivesPart (λ _. self.new.parser) result (spelling_from self.old.place self.old.parser (boot_words (task, class) ∷ [])) }
        ensures built { OnOk result (IsBuilt self.new.parser self.new.place self.new.size) }
        ensures added { OnOk result (self.new.parser ≡ record self.old.parser { boots = self.old.parser.boots ++ (task, class) ∷ [] }) }
    {
        if let Err(fault) = self.parser.add_boot(u32::from(task.0), class) {
            return Err(fault.at_place(self.place));
        }
        self.end_line(boot_bytes(task, class))
    }

    /// One event more.
    fn add_event(&mut self, symbols: &Symbols, event: Event) -> Result<(), OfFault>
        requires built { IsBuilt self.old.parser self.old.place self.old.size }
        requires symbols { symbols.now ≡ self.old.parser.symbols }
        requires patched { 1 ≤ length self.old.parser.patches }
        ensures gives { GivesPart (λ _. self.new.parser) result (spelling_from self.old.place self.old.parser (event_words symbols.now event ∷ [])) }
        ensures built { OnOk result (IsBuilt self.new.parser self.new.place self.new.size) }
        ensures added { OnOk result (self.new.parser ≡ record self.old.parser { events = self.old.parser.events ++ event ∷ [] }) }
    {
        if !self.form().has_event(event) {
            return Err(OfFault::Unwritable(self.place));
        }
        let Some(bytes) = event_bytes(symbols, event) else {
            return Err(OfFault::Unwritable(self.place));
        };
        if let Err(fault) = self.parser.add_event(event) {
            return Err(fault.at_place(self.place));
        }
        self.end_line(bytes)
    }

    /// The symbols, which come first.
    pub(crate) fn add_symbols(&mut self, symbols: &Symbols) -> Result<(), OfFault>
        requires built { IsBuilt self.old.parser self.old.place self.old.size }
        requires early { self.old.parser ≡ empty self.old.parser.form }
        ensures gives { GivesPart (λ _. self.new.parser) result (spelling_from self.old.place self.old.parser (map sym_words symbols.now)) }
        ensures built { OnOk result (IsBuilt self.new.parser self.new.place self.new.size) }
        ensures added { OnOk result (self.new.parser ≡ record self.old.parser { symbols = symbols.now }) }
    {
        for i in 0..symbols.len() {
            self.add_symbol(name_of(symbols, SymId(i as u16)))?;
        }
        Ok(())
    }

    /// The patch of a number, which is the next one.
    fn add_patch(
        &mut self,
        alloc: Global,
        symbols: &Symbols,
        number: u16,
        patch: &[SymId],
    ) -> Result<(), OfFault>
        requires built { IsBuilt self.old.parser self.old.place self.old.size }
        requires early { (self.old.parser.boots ≡ []) × (self.old.parser.events ≡ []) }
        requires symbols { symbols.now ≡ self.old.parser.symbols }
        requires single { self.old.parser.form ≡ Single → number ≡ 1 }
        requires next { number ≡ length self.old.parser.patches + 1 }
        ensures gives { GivesPart (λ _. self.new.parser) result (spelling_from self.old.place self.old.parser (map (λ func. patch_words self.old.parser.form number (name symbols.now func)) (asked_patch (length symbols.now) patch.now))) }
        ensures built { OnOk result (IsBuilt self.new.parser self.new.place self.new.size) }
        ensures added { OnOk result (self.new.parser ≡ record self.old.parser { patches = self.old.parser.patches ++ patch.now ∷ [] }) }
    {
        if patch.is_empty() {
            return Err(OfFault::Unwritable(self.place));
        }
        for func in patch {
            self.add_function(alloc, symbols, number, *func)?;
        }
        Ok(())
    }

    /// The patches, the lowest in front.
    pub(crate) fn add_patches(
        &mut self,
        alloc: Global,
        symbols: &Symbols,
        patches: &[&[SymId]],
    ) -> Result<(), OfFault>
        requires built { IsBuilt self.old.parser self.old.place self.old.size }
        requires early { (self.old.parser.patches ≡ []) × (self.old.parser.boots ≡ []) × (self.old.parser.events ≡ []) }
        requires symbols { symbols.now ≡ self.old.parser.symbols }
        requires single { self.old.parser.form ≡ Single → length patches.now ≤ 1 }
        ensures gives { GivesPart (λ _. self.new.parser) result (spelling_from self.old.place self.old.parser (patch_lines self.old.parser.form symbols.now 1 (asked_patches (length symbols.now) (map (λ patch. patch.now) patches.now)))) }
        ensures built { OnOk result (IsBuilt self.new.parser self.new.place self.new.size) }
        ensures added { OnOk result (self.new.parser ≡ record self.old.parser { patches = map (λ patch. patch.now) patches.now }) }
        ensures some { OnOk result (1 ≤ length patches.now) }
    {
        if patches.is_empty() {
            return Err(OfFault::Unwritable(self.place));
        }
        for (i, patch) in patches.iter().enumerate() {
            self.add_patch(alloc, symbols, i as u16 + 1, patch)?;
        }
        Ok(())
    }

    /// The boot tasks.
    pub(crate) fn add_boots(&mut self, boots: &[(TaskId, Class)]) -> Result<(), OfFault>
        requires built { IsBuilt self.old.parser self.old.place self.old.size }
        requires early { (self.old.parser.boots ≡ []) × (self.old.parser.events ≡ []) }
        requires patched { 1 ≤ length self.old.parser.patches }
        ensures gives { GivesPart (λ _. self.new.parser) result (spelling_from self.old.place self.old.parser (map boot_words boots.now)) }
        ensures built { OnOk result (IsBuilt self.new.parser self.new.place self.new.size) }
        ensures added { OnOk result (self.new.parser ≡ record self.old.parser { boots = boots.now }) }
    {
        for (task, class) in boots {
            self.add_boot(*task, *class)?;
        }
        Ok(())
    }

    /// The events.
    pub(crate) fn add_events(&mut self, symbols: &Symbols, events: &[Event]) -> Result<(), OfFault>
        requires built { IsBuilt self.old.parser self.old.place self.old.size }
        requires early { self.old.parser.events ≡ [] }
        requires symbols { symbols.now ≡ self.old.parser.symbols }
        requires patched { 1 ≤ length self.old.parser.patches }
        ensures gives { GivesPart (λ _. self.new.parser) result (spelling_from self.old.place self.old.parser (map (event_words symbols.now) events.now)) }
        ensures built { OnOk result (IsBuilt self.new.parser self.new.place self.new.size) }
        ensures added { OnOk result (self.new.parser ≡ record self.old.parser { events = events.now }) }
    {
        for event in events {
            self.add_event(symbols, *event)?;
        }
        Ok(())
    }

    /// The trace of the lines.
    pub(crate) fn into_trace(self) -> Trace
        requires built { IsBuilt self.parser self.place self.size }
        requires patched { 1 ≤ length self.parser.patches }
        ensures { result ≡ self.parser }
    {
        self.parser.into_trace()
    }
}
