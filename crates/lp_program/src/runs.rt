//! A run under the model of a name.
ghost use Rattle.std.specs.Prelude.{◌≡◌, Err, IfErr, IfSome, OnOk};
ghost use Rattle.std.specs.Io.KnownBytes.{Appends};
ghost use Rattle.lp_models.specs.Models.{name_of, rules_named};
ghost use Rattle.lp_text.specs.StreamContract.{ReadsToEnd, WriteFailed, WritesToEnd, ended};
ghost use Rattle.lp_definitions.specs.Headline.{Headline};
ghost use Rattle.lp_replay.specs.Outcome.{whole_run, outcome};
ghost use Rattle.lp_text.specs.Reading.{reading};
ghost use Rattle.lp_trace.specs.Report.{report};
ghost use Rattle.lp_replay.specs.Runs.{AtTrace, ReadsTrace, run_end};
ghost use Rattle.lp_text.specs.Writing.{AppendsPrefix};
ghost use Rattle.lp_program.specs.Faults.{program_end};
ghost use Rattle.lp_program.specs.Performed.{EndsBy, IsDone};
ghost use Rattle.lp_words.specs.declared.words.Job.TheVariants.{Run};

use crate::fault::Fault;
use lp_models::{ModelName, with_model};
use lp_trace::{Counted, RunFault};
use std::alloc::Global;
use std::io::{Read, Write};

/// Reads a trace and writes the report of its run under a model, as [`lp_trace::run`].
pub fn run<R: Read, W: Write>(
    alloc: Global,
    model: ModelName,
    reader: &mut Counted<R>,
    writer: &mut Counted<W>,
) -> Result<(), RunFault>
    // The report has the model's name, and is that of its rules.
    ensures report { OnOk result (ReadsTrace (R.remaining reader.old.stream) (R.remaining reader.new.stream)
        (λ trace. Appends (W.contents writer.old.stream) (W.contents writer.new.stream) (report trace.form (name_of model) (outcome (rules_named model) trace)))) }
    ensures headline { OnOk result (ReadsTrace (R.remaining reader.old.stream) (R.remaining reader.new.stream)
        (λ trace. Appends (W.contents writer.old.stream) (W.contents writer.new.stream) (report trace.form (name_of model) (outcome (rules_named model) trace))
        × Headline (rules_named model) (whole_run trace) (outcome (rules_named model) trace))) }
    ensures prefix { ended run_end result ≡ WriteFailed → ReadsTrace (R.remaining reader.old.stream) (R.remaining reader.new.stream)
        (λ trace. AppendsPrefix (W.contents writer.old.stream) (W.contents writer.new.stream) (report trace.form (name_of model) (outcome (rules_named model) trace))) }
    ensures trace { IfErr result (λ fault. AtTrace fault (λ why. IfSome (R.remaining reader.old.stream) (λ text. reading text ≡ Err why))) }
    ensures reads { ReadsToEnd (ended run_end result) reader.old reader.new }
    ensures writes { WritesToEnd (ended run_end result) writer.old writer.new }
{
    let name = model.name();
    with_model!(model, model => lp_trace::run(alloc, name, model, reader, writer))
}

/// Writes the report of a trace; each fault as [`Fault`] says.
pub fn act_run<R: Read, W: Write>(
    alloc: Global,
    model: ModelName,
    reader: &mut Counted<R>,
    writer: &mut Counted<W>,
) -> Result<(), Fault>
    ensures done { OnOk result (IsDone (R.remaining reader.old.stream) (R.remaining reader.new.stream) (W.contents writer.old.stream) (W.contents writer.new.stream) (Run model)) }
    ensures ends { IfErr result (EndsBy (R.remaining reader.old.stream) (R.remaining reader.new.stream) (W.contents writer.old.stream) (W.contents writer.new.stream) (Run model)) }
    ensures reads { ReadsToEnd (ended program_end result) reader.old reader.new }
    ensures writes { WritesToEnd (ended program_end result) writer.old writer.new }
{
    match run(alloc, model, reader, writer) {
        Ok(()) => Ok(()),
        Err(fault) => Err(Fault::from(fault)),
    }
}
