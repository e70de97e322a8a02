//! Reading a trace text.
ghost use Rattle.std.specs.Prelude.{◌≡◌, ◌+◌, ◌≤◌, length, IfOk, Ok};
ghost use Rattle.lp_text.specs.Faults.{Gives, IsToldEarly};
ghost use Rattle.lp_text.specs.Reading.{empty, fault_at, needs, reading, reading_from, reading_lines};
ghost use Rattle.lp_text.specs.declared.fault.Cause.TheVariants as cause;
ghost use Rattle.lp_text.specs.Traces.{IsTrace, TraceValue, text_of};
ghost use Rattle.lp_text.specs.Words.{form_of, lines};

use crate::fault::{Cause, ReadFault};
use crate::form::TraceForm;
use crate::parser::Parser;
use crate::split::cut;
use crate::trace::Trace;
use std::alloc::Global;

/// The most bytes of a text.
pub(crate) const MOST_BYTES: usize = 134_217_728;

impl Trace {
    /// The trace that a text spells, or the text's first fault; NoMemory where an allocation failed.
    pub fn read(alloc: Global, text: &[u8]) -> Result<Trace, ReadFault>
        // What is read keeps the limits, and the text is its spelling.
        ensures found { IfOk result (λ trace. IsTrace trace × (text.now ≡ text_of trace)) }
        // What spells a trace is read as that trace, unless memory runs out.
        ensures only { (trace : TraceValue) → IsTrace trace → text.now ≡ text_of trace → Gives (λ read. read) result (Ok trace) }
        // Which trace it is, or which fault: the first one.
        ensures exact { Gives (λ trace. trace) result (reading text.now) }
        // A text that is too long, or whose first line is no header, is refused whatever memory there is.
        ensures early { IsToldEarly (reading text.now) result }
    {
        match read_text(alloc, text) {
            Ok(parser) => Ok(parser.into_trace()),
            Err(fault) => Err(fault),
        }
    }
}

/// What a text spells.
#[tactic(auto, unfolding(crate::specs::Reading::reading))]
pub(crate) fn read_text(alloc: Global, text: &[u8]) -> Result<Parser, ReadFault>
    ensures exact { Gives (λ parser. parser) result (reading text.now) }
    ensures early { IsToldEarly (reading text.now) result }
{
    if text.len() > MOST_BYTES {
        return Err(Cause::Long.at(0));
    }
    read_all_lines(alloc, text)
}

/// All lines of a text.
#[tactic(auto, unfolding(crate::specs::Reading::reading_lines))]
pub(crate) fn read_all_lines(alloc: Global, text: &[u8]) -> Result<Parser, ReadFault>
    requires { length text.now ≤ 134217728 }
    ensures exact { Gives (λ parser. parser) result (reading_lines (lines text.now)) }
    ensures early { IsToldEarly (reading_lines (lines text.now)) result }
{
    let (first, rest) = cut(b'\n', text);
    let Some(rest) = rest else {
        let cause = if first.is_empty() {
            Cause::Header
        } else {
            Cause::Unended
        };
        return Err(cause.at(1));
    };
    match parser_of(alloc, first) {
        Ok(parser) => read_lines(alloc, 2, parser, rest),
        Err(fault) => Err(fault),
    }
}

/// What the first line gives.
pub(crate) fn parser_of(alloc: Global, first: &[u8]) -> Result<Parser, ReadFault>
    ensures form { Gives (λ parser. parser.form) result (fault_at 1 (needs cause.Header (form_of first.now))) }
    ensures empty { IfOk result (λ parser. parser ≡ empty parser.form) }
    ensures early { IsToldEarly (fault_at 1 (needs cause.Header (form_of first.now))) result }
{
    let Some(form) = TraceForm::of(first) else {
        return Err(Cause::Header.at(1));
    };
    match Parser::new(alloc, form) {
        Ok(parser) => Ok(parser),
        Err(fault) => Err(fault.at(1)),
    }
}

/// The lines from that of a number on, over what the lines before gave.
pub(crate) fn read_lines(
    alloc: Global,
    first: u64,
    mut parser: Parser,
    text: &[u8],
) -> Result<Parser, ReadFault>
    requires { first + length text.now ≤ 134217730 }
    ensures { Gives (λ parser. parser) result (reading_from first parser (lines text.now)) }
{
    let mut number = first;
    let mut rest = text;
    loop {
        if let Some(more) = parser.take_quick(rest) {
            rest = more;
            number += 1;
            continue;
        }
        let (line, left) = cut(b'\n', rest);
        let Some(more) = left else {
            return match parser.at_end(line) {
                Ok(()) => Ok(parser),
                Err(fault) => Err(fault.at(number)),
            };
        };
        if let Err(fault) = parser.add_line(alloc, line) {
            return Err(fault.at(number));
        }
        rest = more;
        number += 1;
    }
}
