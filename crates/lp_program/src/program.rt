//! What the program does at its words.
ghost use Rattle.std.specs.Prelude.{◌≡◌, IfErr, OnOk, map};
ghost use Rattle.lp_text.specs.StreamContract.{ReadsToEnd, WritesToEnd, ended};
ghost use Rattle.lp_program.specs.Faults.{program_end};
ghost use Rattle.lp_program.specs.Performed.{EndsBy, Fails, IsDone, Performs};

use crate::checks::act_check;
use crate::comparing::act_compare;
use crate::fault::Fault;
use crate::playing::act_threads;
use crate::runs::act_run;
use lp_trace::Counted;
use lp_words::{Job, job_of};
use std::alloc::Global;
use std::convert::AsStr;
use std::io::{Read, Write};
use std::sync::Wait;
use std::thread::Threads;

/// Does what the words ask for, the first of which is the program's name. The words are looked at
/// first, then the model's name, and only then is anything read. Waits for threads where the words ask for them.
pub fn perform<T: Threads + Wait + Sync, S: AsStr, R: Read, W: Write>(
    rt: &T,
    alloc: Global,
    words: &[S],
    reader: &mut Counted<R>,
    writer: &mut Counted<W>,
) -> Result<(), Fault>
    ensures done { OnOk result (Performs (R.remaining reader.old.stream) (R.remaining reader.new.stream) (W.contents writer.old.stream) (W.contents writer.new.stream) (map S.text words.now)) }
    ensures fails { IfErr result (Fails (R.remaining reader.old.stream) (R.remaining reader.new.stream) (W.contents writer.old.stream) (W.contents writer.new.stream)
        (reader.new ≡ reader.old) (map S.text words.now)) }
    // The reader is read to its end, and only then is anything written; a fault of either comes of a call that failed.
    ensures reads { ReadsToEnd (ended program_end result) reader.old reader.new }
    ensures writes { WritesToEnd (ended program_end result) writer.old writer.new }
{
    let job = job_of(alloc, words)?;
    act(rt, alloc, job, reader, writer)
}

/// Does a job, and waits where it is one of threads: [`act_run`],
/// [`act_check`] and [`act_compare`] never wait.
pub fn act<T: Threads + Wait + Sync, R: Read, W: Write>(
    rt: &T,
    alloc: Global,
    job: Job,
    reader: &mut Counted<R>,
    writer: &mut Counted<W>,
) -> Result<(), Fault>
    ensures done { OnOk result (IsDone (R.remaining reader.old.stream) (R.remaining reader.new.stream) (W.contents writer.old.stream) (W.contents writer.new.stream) job) }
    ensures ends { IfErr result (EndsBy (R.remaining reader.old.stream) (R.remaining reader.new.stream) (W.contents writer.old.stream) (W.contents writer.new.stream) job) }
    ensures reads { ReadsToEnd (ended program_end result) reader.old reader.new }
    ensures writes { WritesToEnd (ended program_end result) writer.old writer.new }
{
    match job {
        Job::Run(model) => act_run(alloc, model, reader, writer),
        Job::Check(model) => act_check(alloc, model, reader, writer),
        Job::Compare { json } => act_compare(alloc, json, reader, writer),
        Job::Threads(model) => act_threads(rt, alloc, model, reader, writer),
    }
}
