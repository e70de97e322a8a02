//! What is written of a play.
ghost use Rattle.std.specs.Prelude.{◌≡◌, ◌≢◌, IfErr, IfOk, OnOk, string_bytes};
ghost use Rattle.std.specs.Io.KnownBytes.{Appends};
ghost use Rattle.lp_text.specs.StreamContract.{ReadFailed, WriteFailed, WritesToEnd, ended};
ghost use Rattle.lp_replay.specs.Runs.{AtTrace};
ghost use Rattle.lp_text.specs.Writing.{AppendsPrefix};
ghost use Rattle.lp_threads.specs.Faults.{AtDesk, AtRun, threads_end};
ghost use Rattle.lp_threads.specs.Plays.{play_text};

use crate::ThreadsFault;
use lp_text::{Counted, put};
use std::alloc::{AllocError, Global};
use std::io::Write;

/// What a play came to.
#[derive(Clone, Copy)]
pub struct Play {
    /// The seats that were given out.
    pub seats: usize,
    /// The entries of the journal.
    pub events: usize,
    /// The events that no seat played.
    pub skipped: usize,
}

/// Writes the report of a play.
pub(crate) fn write_play<W: Write>(
    alloc: Global,
    writer: &mut Counted<W>,
    name: &str,
    play: Play,
) -> Result<(), ThreadsFault>
    ensures report { OnOk result (Appends (W.contents writer.old.stream) (W.contents writer.new.stream) (play_text name.now play)) }
    ensures prefix { ended threads_end result ≡ WriteFailed → AppendsPrefix (W.contents writer.old.stream) (W.contents writer.new.stream) (play_text name.now play) }
    ensures writes { WritesToEnd (ended threads_end result) writer.old writer.new }
    ensures not_reading { ended threads_end result ≢ ReadFailed }
    ensures late { IfErr result (λ fault. AtRun fault (λ why. AtTrace why (λ _. ⊥))) }
    ensures desk { IfErr result (λ fault. AtDesk fault ⊥) }
{
    let text = text_of(alloc, name, play)?;
    put(writer, text.as_bytes())?;
    Ok(())
}

/// The report of a play.
fn text_of(alloc: Global, name: &str, play: Play) -> Result<String, AllocError>
    ensures { IfOk result (λ text. string_bytes text ≡ play_text name.now play) }
{
    let Play {
        seats,
        events,
        skipped,
    } = play;
    format!(in alloc;
        "lpthreads 1\nmodel {name}\nseats {seats}\nevents {events}\nskipped {skipped}\nclosed\n"
    )
}
