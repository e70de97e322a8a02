//! A check under the model of a name.
ghost use Rattle.std.specs.Prelude.{◌≡◌, Err, IfErr, IfOk, IfSome, IsTrue, OnOk, is_none};
ghost use Rattle.std.specs.Io.KnownBytes.{Appends};
ghost use Rattle.lp_trace.specs.Answer.{HoldsInTrace, ReadsInput, answer_to, answer_words};
ghost use Rattle.lp_text.specs.CheckReading.{check_reading};
ghost use Rattle.lp_text.specs.StreamContract.{ReadsToEnd, WriteFailed, WritesToEnd, ended};
ghost use Rattle.lp_replay.specs.Runs.{AtTrace, run_end};
ghost use Rattle.lp_text.specs.Words.{line_of};
ghost use Rattle.lp_text.specs.Writing.{AppendsPrefix};
ghost use Rattle.lp_models.specs.Models.{rules_named};
ghost use Rattle.lp_program.specs.Faults.{program_end};
ghost use Rattle.lp_program.specs.Performed.{EndsBy, IsDone};
ghost use Rattle.lp_words.specs.declared.words.Job.TheVariants.{Check};

use crate::fault::Fault;
use lp_models::{Consistency, ModelName, with_model};
use lp_trace::{Counted, RunFault};
use std::alloc::Global;
use std::io::{Read, Write};

/// Reads a trace and a certificate, writes the answer to it under a model, and says whether it was
/// accepted, as [`lp_trace::check`].
pub fn check<R: Read, W: Write>(
    alloc: Global,
    model: ModelName,
    reader: &mut Counted<R>,
    writer: &mut Counted<W>,
) -> Result<bool, RunFault>
    // The answer is that of the model's rules.
    ensures answer { IfOk result (λ accepted. ReadsInput (R.remaining reader.old.stream) (R.remaining reader.new.stream)
        (λ input. (accepted ≡ is_none (answer_to (rules_named model) input)) × Appends (W.contents writer.old.stream) (W.contents writer.new.stream) (line_of (answer_words (answer_to (rules_named model) input))))) }
    ensures sound { IfOk result (λ accepted. IsTrue accepted → ReadsInput (R.remaining reader.old.stream) (R.remaining reader.new.stream) (λ input. HoldsInTrace (rules_named model) input)) }
    ensures prefix { ended run_end result ≡ WriteFailed → ReadsInput (R.remaining reader.old.stream) (R.remaining reader.new.stream)
        (λ input. AppendsPrefix (W.contents writer.old.stream) (W.contents writer.new.stream) (line_of (answer_words (answer_to (rules_named model) input)))) }
    ensures trace { IfErr result (λ fault. AtTrace fault (λ why. IfSome (R.remaining reader.old.stream) (λ text. check_reading text ≡ Err why))) }
    ensures reads { ReadsToEnd (ended run_end result) reader.old reader.new }
    ensures writes { WritesToEnd (ended run_end result) writer.old writer.new }
{
    with_model!(model, rules => check_by(alloc, model, rules, reader, writer))
}

/// The same by a model that has this name: what is said of its rules is said of the name here, once for all models.
fn check_by<M: Consistency, R: Read, W: Write>(
    alloc: Global,
    name: ModelName,
    model: M,
    reader: &mut Counted<R>,
    writer: &mut Counted<W>,
) -> Result<bool, RunFault>
    requires { M.rules ≡ rules_named name }
    ensures answer { IfOk result (λ accepted. ReadsInput (R.remaining reader.old.stream) (R.remaining reader.new.stream)
        (λ input. (accepted ≡ is_none (answer_to (rules_named name) input)) × Appends (W.contents writer.old.stream) (W.contents writer.new.stream) (line_of (answer_words (answer_to (rules_named name) input))))) }
    ensures sound { IfOk result (λ accepted. IsTrue accepted → ReadsInput (R.remaining reader.old.stream) (R.remaining reader.new.stream) (λ input. HoldsInTrace (rules_named name) input)) }
    ensures prefix { ended run_end result ≡ WriteFailed → ReadsInput (R.remaining reader.old.stream) (R.remaining reader.new.stream)
        (λ input. AppendsPrefix (W.contents writer.old.stream) (W.contents writer.new.stream) (line_of (answer_words (answer_to (rules_named name) input)))) }
    ensures trace { IfErr result (λ fault. AtTrace fault (λ why. IfSome (R.remaining reader.old.stream) (λ text. check_reading text ≡ Err why))) }
    ensures reads { ReadsToEnd (ended run_end result) reader.old reader.new }
    ensures writes { WritesToEnd (ended run_end result) writer.old writer.new }
{
    lp_trace::check(alloc, model, reader, writer)
}

/// Writes the answer to a certificate; Refused where that is a refusal, and any other fault as [`Fault`] says.
pub fn act_check<R: Read, W: Write>(
    alloc: Global,
    model: ModelName,
    reader: &mut Counted<R>,
    writer: &mut Counted<W>,
) -> Result<(), Fault>
    ensures done { OnOk result (IsDone (R.remaining reader.old.stream) (R.remaining reader.new.stream) (W.contents writer.old.stream) (W.contents writer.new.stream) (Check model)) }
    ensures ends { IfErr result (EndsBy (R.remaining reader.old.stream) (R.remaining reader.new.stream) (W.contents writer.old.stream) (W.contents writer.new.stream) (Check model)) }
    ensures reads { ReadsToEnd (ended program_end result) reader.old reader.new }
    ensures writes { WritesToEnd (ended program_end result) writer.old writer.new }
{
    match check(alloc, model, reader, writer) {
        Ok(true) => Ok(()),
        Ok(false) => Err(Fault::Refused),
        Err(fault) => Err(Fault::from(fault)),
    }
}
