//! A run: a trace in, its report out.
ghost use Rattle.std.specs.Prelude.{◌≡◌, ◌≢◌, IfSome, IfOk, IfErr, OnOk, Err};
ghost use Rattle.std.specs.Io.KnownBytes.{Appends};
ghost use Rattle.lp_definitions.specs.Headline.{Headline};
ghost use Rattle.lp_replay.specs.Outcome.{whole_run, outcome};
ghost use Rattle.lp_text.specs.StreamContract.{ReadFailed, ReadsToEnd, WriteFailed, WritesToEnd, ended};
ghost use Rattle.lp_text.specs.Reading.{reading};
ghost use Rattle.lp_trace.specs.Report.{report};
ghost use Rattle.lp_replay.specs.Runs.{ReadsTrace, AtTrace, run_end};
ghost use Rattle.lp_text.specs.Writing.{AppendsPrefix};

use crate::page::Page;
use crate::report::{KeptLines, write_report};
use lp_model::Consistency;
use lp_replay::{Outcome, ReplayFault, RunFault, read_trace, replay};
use lp_text::{Counted, Trace};
use std::alloc::Global;
use std::io::{Read, Write};

/// Reads a trace to the reader's end, replays it under a model, and writes its report, in which the
/// model has this name.
///
/// It makes at most 134,217,729 reads. A read or write that fails or is interrupted ends it, as Read or Write, and so
/// does a write that takes no byte. A text that is no trace is Trace with its first fault, and NoMemory comes where an
/// allocation failed. Nothing is written before all allocations are done.
pub fn run<M: Consistency, R: Read, W: Write>(
    alloc: Global,
    name: &str,
    model: M,
    reader: &mut Counted<R>,
    writer: &mut Counted<W>,
) -> Result<(), RunFault>
    // What was read spells a trace, and its report was written and nothing else.
    ensures report { OnOk result (ReadsTrace (R.remaining reader.old.stream) (R.remaining reader.new.stream)
        (λ trace. Appends (W.contents writer.old.stream) (W.contents writer.new.stream) (report trace.form name.now (outcome M.rules trace)))) }
    // The headline holds of the outcome that was reported, of the same trace.
    ensures headline { OnOk result (ReadsTrace (R.remaining reader.old.stream) (R.remaining reader.new.stream)
        (λ trace. Appends (W.contents writer.old.stream) (W.contents writer.new.stream) (report trace.form name.now (outcome M.rules trace))
        × Headline M.rules (whole_run trace) (outcome M.rules trace))) }
    // Where the writer failed, a prefix of that report was written.
    ensures prefix { ended run_end result ≡ WriteFailed → ReadsTrace (R.remaining reader.old.stream) (R.remaining reader.new.stream)
        (λ trace. AppendsPrefix (W.contents writer.old.stream) (W.contents writer.new.stream) (report trace.form name.now (outcome M.rules trace))) }
    // The fault of a text is the one that the definitions give.
    ensures trace { IfErr result (λ fault. AtTrace fault (λ why. IfSome (R.remaining reader.old.stream) (λ text. reading text ≡ Err why))) }
    // The reader is read to its end, and only then is anything written; a fault of either comes of a call that failed.
    ensures reads { ReadsToEnd (ended run_end result) reader.old reader.new }
    ensures writes { WritesToEnd (ended run_end result) writer.old writer.new }
{
    let trace = read_trace(alloc, reader)?;
    match report_on(alloc, name, model, &trace, writer) {
        Ok(()) => Ok(()),
        Err(fault) => Err(fault),
    }
}

/// Replays a trace under a model and writes its report.
fn report_on<M: Consistency, W: Write>(
    alloc: Global,
    name: &str,
    model: M,
    trace: &Trace,
    writer: &mut Counted<W>,
) -> Result<(), RunFault>
    ensures report { OnOk result (Appends (W.contents writer.old.stream) (W.contents writer.new.stream) (report trace.now.form name.now (outcome M.rules trace.now))) }
    ensures prefix { ended run_end result ≡ WriteFailed → AppendsPrefix (W.contents writer.old.stream) (W.contents writer.new.stream) (report trace.now.form name.now (outcome M.rules trace.now)) }
    ensures writes { WritesToEnd (ended run_end result) writer.old writer.new }
    ensures late { IfErr result (λ fault. AtTrace fault (λ _. ⊥)) }
    ensures not_reading { ended run_end result ≢ ReadFailed }
{
    let mut page = Page::new(alloc)?;
    let mut kept = KeptLines::new(alloc)?;
    let outcome = outcome_of(alloc, model, trace)?;
    match write_report(&mut page, writer, &mut kept, trace.form(), name, &outcome) {
        Ok(()) => Ok(()),
        Err(fault) => Err(RunFault::Write(fault)),
    }
}

/// What a trace comes to under a model.
fn outcome_of<M: Consistency>(
    alloc: Global,
    model: M,
    trace: &Trace,
) -> Result<Outcome, ReplayFault>
    ensures { IfOk result (λ found. found ≡ outcome M.rules trace.now) }
{
    replay(alloc, model, trace)
}
