//! The comparison of the models.
ghost use Rattle.std.specs.Prelude.{IfErr, OnOk};
ghost use Rattle.lp_text.specs.StreamContract.{ReadsToEnd, WritesToEnd, ended};
ghost use Rattle.lp_program.specs.Faults.{program_end};
ghost use Rattle.lp_program.specs.Performed.{EndsBy, IsDone};
ghost use Rattle.lp_words.specs.declared.words.Job.TheVariants.{Compare};

use crate::fault::Fault;
use lp_compare::compare_run;
use lp_trace::Counted;
use std::alloc::Global;
use std::io::{Read, Write};

/// Writes the comparison of a trace, as JSON if asked for; each fault as [`Fault`] says.
pub fn act_compare<R: Read, W: Write>(
    alloc: Global,
    json: bool,
    reader: &mut Counted<R>,
    writer: &mut Counted<W>,
) -> Result<(), Fault>
    ensures done { OnOk result (IsDone (R.remaining reader.old.stream) (R.remaining reader.new.stream) (W.contents writer.old.stream) (W.contents writer.new.stream) (Compare json)) }
    ensures ends { IfErr result (EndsBy (R.remaining reader.old.stream) (R.remaining reader.new.stream) (W.contents writer.old.stream) (W.contents writer.new.stream) (Compare json)) }
    ensures reads { ReadsToEnd (ended program_end result) reader.old reader.new }
    ensures writes { WritesToEnd (ended program_end result) writer.old writer.new }
{
    match compare_run(alloc, json, reader, writer) {
        Ok(()) => Ok(()),
        Err(fault) => Err(Fault::from(fault)),
    }
}
