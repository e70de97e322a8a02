//! A play by threads under the model of a name.
ghost use Rattle.std.specs.Prelude.{◌≡◌, Err, IfErr, IfSome, OnOk};
ghost use Rattle.std.specs.Io.KnownBytes.{Appends};
ghost use Rattle.lp_models.specs.Models.{rules_named};
ghost use Rattle.lp_text.specs.Reading.{reading};
ghost use Rattle.lp_text.specs.StreamContract.{ReadsToEnd, WriteFailed, WritesToEnd, ended};
ghost use Rattle.lp_replay.specs.Runs.{AtTrace, ReadsTrace};
ghost use Rattle.lp_text.specs.Writing.{AppendsPrefix};
ghost use Rattle.lp_threads.specs.Faults.{AtDesk, AtRun, IsOfPlay, threads_end};
ghost use Rattle.lp_program.specs.Performed.{EndsBy, IsDone, IsPlayed};
ghost use Rattle.lp_words.specs.declared.words.Job.TheVariants.{Threads};
ghost use Rattle.lp_threads.specs.Codes.{code_of};
ghost use Rattle.lp_program.specs.Faults.{IsOfThreads, program_end};

use crate::fault::Fault;
use lp_models::{Consistency, ModelName, with_model};
use lp_threads::ThreadsFault;
use lp_trace::Counted;
use std::alloc::Global;
use std::io::{Read, Write};
use std::sync::Wait;
use std::thread::Threads;

impl From<ThreadsFault> for Fault {
    ghost from_gives = { λ fault e. IsOfThreads (code_of fault) e };

    fn from(fault: ThreadsFault) -> Fault {
        match fault.code() {
            Ok(code) => Fault::Desk(code),
            Err(fault) => Fault::from(fault),
        }
    }
}

/// Reads a trace, lets threads play it under a model, and writes what came of it, as [`lp_threads::threads`]. Waits for
/// the threads.
pub fn threads<T: Threads + Wait + Sync, R: Read, W: Write>(
    rt: &T,
    alloc: Global,
    model: ModelName,
    reader: &mut Counted<R>,
    writer: &mut Counted<W>,
) -> Result<(), ThreadsFault>
    // The play is one by the model's rules, and its report has the model's name.
    ensures report { OnOk result (ReadsTrace (R.remaining reader.old.stream) (R.remaining reader.new.stream)
        (λ trace. IsPlayed model trace (Appends (W.contents writer.old.stream) (W.contents writer.new.stream)))) }
    ensures prefix { ended threads_end result ≡ WriteFailed → ReadsTrace (R.remaining reader.old.stream) (R.remaining reader.new.stream)
        (λ trace. IsPlayed model trace (AppendsPrefix (W.contents writer.old.stream) (W.contents writer.new.stream))) }
    ensures trace { IfErr result (λ fault. AtRun fault (λ why. AtTrace why (λ why. IfSome (R.remaining reader.old.stream) (λ text. reading text ≡ Err why)))) }
    ensures desk { IfErr result (λ fault. AtDesk fault (IsOfPlay fault × ReadsTrace (R.remaining reader.old.stream) (R.remaining reader.new.stream) (λ trace. Unit {0}))) }
    ensures reads { ReadsToEnd (ended threads_end result) reader.old reader.new }
    ensures writes { WritesToEnd (ended threads_end result) writer.old writer.new }
{
    with_model!(model, rules => threads_by(rt, alloc, model, rules, reader, writer))
}

/// The same by a model that has this name: what is said of its rules is said of the name here, once for all models.
fn threads_by<T: Threads + Wait + Sync, M: Consistency + Send + Sync, R: Read, W: Write>(
    rt: &T,
    alloc: Global,
    name: ModelName,
    model: M,
    reader: &mut Counted<R>,
    writer: &mut Counted<W>,
) -> Result<(), ThreadsFault>
    requires { M.rules ≡ rules_named name }
    ensures report { OnOk result (ReadsTrace (R.remaining reader.old.stream) (R.remaining reader.new.stream)
        (λ trace. IsPlayed name trace (Appends (W.contents writer.old.stream) (W.contents writer.new.stream)))) }
    ensures prefix { ended threads_end result ≡ WriteFailed → ReadsTrace (R.remaining reader.old.stream) (R.remaining reader.new.stream)
        (λ trace. IsPlayed name trace (AppendsPrefix (W.contents writer.old.stream) (W.contents writer.new.stream))) }
    ensures trace { IfErr result (λ fault. AtRun fault (λ why. AtTrace why (λ why. IfSome (R.remaining reader.old.stream) (λ text. reading text ≡ Err why)))) }
    ensures desk { IfErr result (λ fault. AtDesk fault (IsOfPlay fault × ReadsTrace (R.remaining reader.old.stream) (R.remaining reader.new.stream) (λ trace. Unit {0}))) }
    ensures reads { ReadsToEnd (ended threads_end result) reader.old reader.new }
    ensures writes { WritesToEnd (ended threads_end result) writer.old writer.new }
{
    let called = name.name();
    lp_threads::threads(rt, alloc, called, model, reader, writer)
}

/// Writes what came of a trace that threads play.
pub fn act_threads<T: Threads + Wait + Sync, R: Read, W: Write>(
    rt: &T,
    alloc: Global,
    model: ModelName,
    reader: &mut Counted<R>,
    writer: &mut Counted<W>,
) -> Result<(), Fault>
    ensures done { OnOk result (IsDone (R.remaining reader.old.stream) (R.remaining reader.new.stream) (W.contents writer.old.stream) (W.contents writer.new.stream) (Threads model)) }
    ensures ends { IfErr result (EndsBy (R.remaining reader.old.stream) (R.remaining reader.new.stream) (W.contents writer.old.stream) (W.contents writer.new.stream) (Threads model)) }
    ensures reads { ReadsToEnd (ended program_end result) reader.old reader.new }
    ensures writes { WritesToEnd (ended program_end result) writer.old writer.new }
{
    match threads(rt, alloc, model, reader, writer) {
        Ok(()) => Ok(()),
        Err(fault) => Err(Fault::from(fault)),
    }
}
