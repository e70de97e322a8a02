//! A trace in, its comparison out.
ghost use Rattle.std.specs.Prelude.{◌≡◌, ◌≢◌, string_bytes, IfSome, IfOk, IfErr, OnOk, Err};
ghost use Rattle.std.specs.Io.KnownBytes.{Appends};
ghost use Rattle.lp_text.specs.StreamContract.{ReadFailed, ReadsToEnd, WriteFailed, WritesToEnd, ended};
ghost use Rattle.lp_text.specs.Reading.{reading};
ghost use Rattle.lp_text.specs.Writing.{AppendsPrefix};
ghost use Rattle.lp_replay.specs.Runs.{ReadsTrace, AtTrace, run_end};
ghost use Rattle.lp_compare.specs.Comparison.{comparison};
ghost use Rattle.lp_compare.specs.Text.{written};

use crate::compares::compare;
use crate::comparison::Comparison;
use lp_replay::{RunFault, read_trace};
use lp_text::{Counted, Trace, put};
use std::alloc::{AllocError, Global};
use std::io::{Read, Write};

/// Reads a trace to the reader's end, and writes its comparison, as JSON if asked for.
///
/// It makes at most 134,217,729 reads. A read or write that fails or is interrupted ends it, and so
/// does a write that takes no byte. Nothing is written before all allocations are done.
pub fn compare_run<R: Read, W: Write>(
    alloc: Global,
    json: bool,
    reader: &mut Counted<R>,
    writer: &mut Counted<W>,
) -> Result<(), RunFault>
    // What was read spells a trace, and its comparison was written and nothing else.
    ensures report { OnOk result (ReadsTrace (R.remaining reader.old.stream) (R.remaining reader.new.stream)
        (λ trace. Appends (W.contents writer.old.stream) (W.contents writer.new.stream) (written json (comparison trace)))) }
    // Where the writer failed, a prefix of it was written.
    ensures prefix { ended run_end result ≡ WriteFailed → ReadsTrace (R.remaining reader.old.stream) (R.remaining reader.new.stream)
        (λ trace. AppendsPrefix (W.contents writer.old.stream) (W.contents writer.new.stream) (written json (comparison trace))) }
    // The fault of a text is the one that the definitions give.
    ensures trace { IfErr result (λ fault. AtTrace fault (λ why. IfSome (R.remaining reader.old.stream) (λ text. reading text ≡ Err why))) }
    // The reader is read to its end, and only then is anything written; a fault of either comes of a call that failed.
    ensures reads { ReadsToEnd (ended run_end result) reader.old reader.new }
    ensures writes { WritesToEnd (ended run_end result) writer.old writer.new }
{
    let trace = read_trace(alloc, reader)?;
    match compare_on(alloc, json, &trace, writer) {
        Ok(()) => Ok(()),
        Err(fault) => Err(fault),
    }
}

/// Writes the comparison of a trace.
fn compare_on<W: Write>(
    alloc: Global,
    json: bool,
    trace: &Trace,
    writer: &mut Counted<W>,
) -> Result<(), RunFault>
    ensures report { OnOk result (Appends (W.contents writer.old.stream) (W.contents writer.new.stream) (written json (comparison trace.now))) }
    ensures prefix { ended run_end result ≡ WriteFailed → AppendsPrefix (W.contents writer.old.stream) (W.contents writer.new.stream) (written json (comparison trace.now)) }
    ensures writes { WritesToEnd (ended run_end result) writer.old writer.new }
    ensures late { IfErr result (λ fault. AtTrace fault (λ _. ⊥)) }
    ensures not_reading { ended run_end result ≢ ReadFailed }
{
    let text = compared(alloc, json, trace)?;
    match put(writer, text.as_bytes()) {
        Ok(()) => Ok(()),
        Err(fault) => Err(RunFault::Write(fault)),
    }
}

/// What is written of a trace.
fn compared(alloc: Global, json: bool, trace: &Trace) -> Result<String, AllocError>
    ensures { IfOk result (λ text. string_bytes text ≡ written json (comparison trace.now)) }
{
    let found = compare(alloc, trace)?;
    text_of(alloc, json, &found)
}

/// What is written of a comparison.
fn text_of(alloc: Global, json: bool, found: &Comparison) -> Result<String, AllocError>
    ensures { IfOk result (λ text. string_bytes text ≡ written json found.now) }
{
    if json {
        found.json(alloc)
    } else {
        found.text(alloc)
    }
}
