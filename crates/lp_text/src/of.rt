//! Making a trace of its parts.
ghost use Rattle.std.specs.Prelude.{◌≡◌, ◌≤◌, ◌∷◌, [], length, map, IfOk, Ok, OnOk};
ghost use Rattle.lp_text.specs.Build.{GivesPart, of_parts, spelling};
ghost use Rattle.lp_text.specs.inside.Builders.{IsBuilt};
ghost use Rattle.lp_text.specs.Reading.{empty};
ghost use Rattle.lp_text.specs.Traces.{IsTrace};
ghost use Rattle.lp_text.specs.declared.form.TraceForm.TheVariants.{Single, Stacked, WithResched};

use crate::builder::Builder;
use crate::form::TraceForm;
use crate::trace::Trace;
use lp_definitions::Event;
use lp_stack::{Class, TaskId};
use lp_symbols::{SymId, Symbols};
use std::alloc::Global;
use thiserror::Error;

/// Why parts made no trace.
#[derive(Clone, Copy, Debug, PartialEq, Eq, Error)]
pub enum OfFault {
    /// The part at this place, from 1 in the order of the text's lines after the first, is the first
    /// that has no spelling.
    #[error("part {0} has no spelling")]
    Unwritable(u64),
    /// An allocation failed.
    #[error("out of memory")]
    NoMemory,
}

impl Trace {
    /// The trace of these parts in the first text, which has one patch.
    ///
    /// Unwritable at the first part that has no spelling: a function of the patch that is no symbol,
    /// is there already or is the 257th; the place after the symbols, if the patch is empty; a boot
    /// task with the number 0 or one that is there already; an event of a task 0, a call of no symbol,
    /// a `Resched`, the 1,000,001st event; a part that would carry the text past 134,217,728 bytes. NoMemory where an allocation failed.
    pub fn of(
        alloc: Global,
        symbols: &Symbols,
        patch: &[SymId],
        boots: &[(TaskId, Class)],
        events: &[Event],
    ) -> Result<Trace, OfFault>
        // What is made is a trace, of these parts.
        ensures made { IfOk result (λ trace. IsTrace trace × (trace ≡ of_parts Single symbols.now (patch.now ∷ []) boots.now events.now)) }
        // Parts that make a trace are made one, unless memory runs out.
        ensures only { let parts = of_parts Single symbols.now (patch.now ∷ []) boots.now events.now in IsTrace parts → GivesPart (λ trace. trace) result (Ok parts) }
        // Which trace it is, or which place: that of the first part without a spelling.
        ensures exact { GivesPart (λ trace. trace) result (spelling (of_parts Single symbols.now (patch.now ∷ []) boots.now events.now)) }
    {
        make(alloc, TraceForm::Single, symbols, &[patch], boots, events)
    }

    /// The trace of these parts in the second text, which has 1 to 16 patches, the lowest in front.
    ///
    /// Unwritable as `of`, where an empty patch is the place after the lines before it, as is no
    /// patch at all, and a 17th patch is the place of its first function. NoMemory where an allocation failed.
    pub fn of_stack(
        alloc: Global,
        symbols: &Symbols,
        patches: &[&[SymId]],
        boots: &[(TaskId, Class)],
        events: &[Event],
    ) -> Result<Trace, OfFault>
        // What is made is a trace, of these parts.
        ensures made { IfOk result (λ trace. IsTrace trace × (trace ≡ of_parts Stacked symbols.now (map (λ patch. patch.now) patches.now) boots.now events.now)) }
        // Parts that make a trace are made one, unless memory runs out.
        ensures only { let parts = of_parts Stacked symbols.now (map (λ patch. patch.now) patches.now) boots.now events.now in IsTrace parts → GivesPart (λ trace. trace) result (Ok parts) }
        // Which trace it is, or which place: that of the first part without a spelling.
        ensures exact { GivesPart (λ trace. trace) result (spelling (of_parts Stacked symbols.now (map (λ patch. patch.now) patches.now) boots.now events.now)) }
    {
        make(alloc, TraceForm::Stacked, symbols, patches, boots, events)
    }

    /// The trace of these parts in the third text, which has what the second has, and `Resched`.
    ///
    /// Unwritable as `of_stack`, but for a `Resched`. NoMemory where an allocation failed.
    pub fn of_with_resched(
        alloc: Global,
        symbols: &Symbols,
        patches: &[&[SymId]],
        boots: &[(TaskId, Class)],
        events: &[Event],
    ) -> Result<Trace, OfFault>
        // What is made is a trace, of these parts.
        ensures made { IfOk result (λ trace. IsTrace trace × (trace ≡ of_parts WithResched symbols.now (map (λ patch. patch.now) patches.now) boots.now events.now)) }
        // Parts that make a trace are made one, unless memory runs out.
        ensures only { let parts = of_parts WithResched symbols.now (map (λ patch. patch.now) patches.now) boots.now events.now in IsTrace parts → GivesPart (λ trace. trace) result (Ok parts) }
        // Which trace it is, or which place: that of the first part without a spelling.
        ensures exact { GivesPart (λ trace. trace) result (spelling (of_parts WithResched symbols.now (map (λ patch. patch.now) patches.now) boots.now events.now)) }
    {
        make(
            alloc,
            TraceForm::WithResched,
            symbols,
            patches,
            boots,
            events,
        )
    }
}

/// The trace of these parts in the text of this form.
fn make(
    alloc: Global,
    form: TraceForm,
    symbols: &Symbols,
    patches: &[&[SymId]],
    boots: &[(TaskId, Class)],
    events: &[Event],
) -> Result<Trace, OfFault>
    requires { form ≡ Single → length patches.now ≤ 1 }
    ensures made { IfOk result (λ trace. IsTrace trace × (trace ≡ of_parts form symbols.now (map (λ patch. patch.now) patches.now) boots.now events.now)) }
    ensures exact { GivesPart (λ trace. trace) result (spelling (of_parts form symbols.now (map (λ patch. patch.now) patches.now) boots.now events.now)) }
{
    let mut builder = match Builder::new(alloc, form) {
        Ok(builder) => builder,
        Err(fault) => return Err(fault),
    };
    match fill(alloc, &mut builder, symbols, patches, boots, events) {
        Ok(()) => Ok(builder.into_trace()),
        Err(fault) => Err(fault),
    }
}

/// Adds these parts to a builder that has the first line alone.
fn fill(
    alloc: Global,
    builder: &mut Builder,
    symbols: &Symbols,
    patches: &[&[SymId]],
    boots: &[(TaskId, Class)],
    events: &[Event],
) -> Result<(), OfFault>
    requires built { IsBuilt builder.old.parser builder.old.place builder.old.size }
    requires early { builder.old.parser ≡ empty builder.old.parser.form }
    requires single { builder.old.parser.form ≡ Single → length patches.now ≤ 1 }
    ensures gives { GivesPart (λ _. builder.new.parser) result (spelling (of_parts builder.old.parser.form symbols.now (map (λ patch. patch.now) patches.now) boots.now events.now)) }
    ensures built { OnOk result (IsBuilt builder.new.parser builder.new.place builder.new.size) }
    ensures added { OnOk result (builder.new.parser ≡ of_parts builder.old.parser.form symbols.now (map (λ patch. patch.now) patches.now) boots.now events.now) }
    ensures some { OnOk result (1 ≤ length patches.now) }
{
    if let Err(fault) = builder.add_symbols(symbols) {
        return Err(fault);
    }
    if let Err(fault) = builder.add_patches(alloc, symbols, patches) {
        return Err(fault);
    }
    if let Err(fault) = builder.add_boots(boots) {
        return Err(fault);
    }
    builder.add_events(symbols, events)
}
