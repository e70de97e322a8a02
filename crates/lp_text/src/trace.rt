//! A trace.
ghost use Rattle.std.specs.Prelude.{◌≡◌, ◌≤◌, ◌-◌, [], length, slice_index_or};
ghost use Rattle.lp_text.specs.Traces.{functions, IsTrace};

use crate::form::TraceForm;
use lp_definitions::Event;
use lp_stack::{Class, TaskId};
use lp_symbols::{SymId, Symbols};
use std::marker::Model;

/// What happened to the tasks of a system while patches came and went: names of functions, patches
/// of them, the tasks at boot, and events, each list in the order in which it is written.
///
/// Every trace keeps the text's limits, so it has a spelling.
pub struct Trace {
    pub(crate) form: TraceForm,
    pub(crate) symbols: Symbols,
    pub(crate) patches: Vec<Vec<SymId>>,
    pub(crate) boots: Vec<(TaskId, Class)>,
    pub(crate) events: Vec<Event>,
}

/// By hand, so that the proof of who owns one lets go of it in one step, not field by field.
impl Drop for Trace {
    fn drop(self) {
        let Trace {
            form: _,
            symbols: _,
            patches: _,
            boots: _,
            events: _,
        } = self;
    }
}

impl Model for Trace {
    ghost use Rattle.lp_text.specs.Traces.{TraceValue, IsTrace, functions};

    ghost Value = { TraceValue };

    ghost view = { λ t. record { form = t.form; symbols = t.symbols; patches = functions t.patches.items; boots = t.boots.items; events = t.events.items } };

    ghost invariant = { λ t. IsTrace (record { form = t.form; symbols = t.symbols; patches = functions t.patches.items; boots = t.boots.items; events = t.events.items }) };
}

impl Trace {
    /// The trace of these parts.
    pub(crate) fn from_parts(
        form: TraceForm,
        symbols: Symbols,
        patches: Vec<Vec<SymId>>,
        boots: Vec<(TaskId, Class)>,
        events: Vec<Event>,
    ) -> Trace
        requires { IsTrace (record { form = form; symbols = symbols; patches = functions patches.items; boots = boots.items; events = events.items }) }
        ensures { result ≡ record { form = form; symbols = symbols; patches = functions patches.items; boots = boots.items; events = events.items } }
    {
        Trace {
            form,
            symbols,
            patches,
            boots,
            events,
        }
    }

    /// Which of the two texts it is.
    pub fn form(&self) -> TraceForm
        ensures form { result ≡ self.now.form }
        ensures limits { IsTrace self.now }
    {
        self.form
    }

    /// The names, numbered from 0.
    pub fn symbols(&self) -> &Symbols
        ensures { result.now ≡ self.now.symbols }
    {
        &self.symbols
    }

    /// How many patches there are: 1 in the first text, 1 to 16 in the second.
    pub fn patches(&self) -> u8
        ensures count { result ≡ length self.now.patches }
        ensures some { 1 ≤ result }
        ensures few { result ≤ 16 }
    {
        self.patches.len() as u8
    }

    /// The functions of the patch of a number, which is 1 for the lowest.
    pub fn patch(&self, number: u8) -> &[SymId]
        requires some { 1 ≤ number }
        requires known { number ≤ length self.now.patches }
        ensures { result.now ≡ slice_index_or self.now.patches (number - 1) [] }
    {
        self.patches[usize::from(number) - 1].as_slice()
    }

    /// The functions of each patch, the lowest patch in front.
    pub fn functions(&self) -> &[Vec<SymId>]
        ensures value { functions result.now ≡ self.now.patches }
        ensures limits { IsTrace self.now }
    {
        self.patches.as_slice()
    }

    /// The tasks at boot, with their classes.
    pub fn boots(&self) -> &[(TaskId, Class)]
        ensures value { result.now ≡ self.now.boots }
        ensures limits { IsTrace self.now }
    {
        self.boots.as_slice()
    }

    /// The events, numbered from 1.
    pub fn events(&self) -> &[Event]
        ensures value { result.now ≡ self.now.events }
        ensures limits { IsTrace self.now }
    {
        self.events.as_slice()
    }
}
