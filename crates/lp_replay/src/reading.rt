//! The trace of a run, as a reader gives it.
ghost use Rattle.std.specs.Prelude.{◌≡◌, ◌≢◌, IfSome, IfOk, IfErr, Err};
ghost use Rattle.lp_replay.specs.Runs.{AtTrace, run_end};
ghost use Rattle.lp_text.specs.Input.{ReadsAll};
ghost use Rattle.lp_text.specs.Reading.{reading};
ghost use Rattle.lp_text.specs.StreamContract.{ReadsToEnd, WriteFailed, ended};
ghost use Rattle.lp_text.specs.Traces.{IsTrace, text_of};

use crate::run_fault::RunFault;
use lp_text::{Counted, Trace};
use std::alloc::Global;
use std::io::Read;

/// The trace that a reader has, read to its end; faults as `run` has them.
///
/// It makes at most 134,217,729 reads. A read that fails or is interrupted ends it.
pub fn read_trace<R: Read>(alloc: Global, reader: &mut Counted<R>) -> Result<Trace, RunFault>
    ensures found { IfOk result (λ trace. IsTrace trace × ReadsAll (R.remaining reader.old.stream) (R.remaining reader.new.stream) (text_of trace)) }
    ensures trace { IfErr result (λ fault. AtTrace fault (λ why. IfSome (R.remaining reader.old.stream) (λ text. reading text ≡ Err why))) }
    ensures reads { ReadsToEnd (ended run_end result) reader.old reader.new }
    ensures early { ended run_end result ≢ WriteFailed }
{
    let trace = Trace::read_from(alloc, reader)?;
    Ok(trace)
}
