//! Reading an input to its end.
ghost use Rattle.std.specs.Prelude.{◌≡◌, ℕ, ◌+◌, ◌-◌, ◌<◌, ◌≤◌, List, length, take, IfOk, IfErr, MatchResult, OnOk};
ghost use Rattle.std.specs.Io.KnownBytes.{Consumes, IsAtEnd};
ghost use Rattle.lp_text.specs.Counts.{AtMost, next};
ghost use Rattle.lp_text.specs.Input.{ReadsAll};
ghost use Rattle.lp_text.specs.StreamContract.{ReadsToEnd, ended};
ghost use Rattle.lp_text.specs.inside.Streams.{Ended, Gave, InputFails, IsFaultAfter, IsInputFault, input_end};

use crate::counted::Counted;
use crate::read::MOST_BYTES;
use std::alloc::Global;
use std::io::{self, Read};

/// How many bytes one read asks for.
pub(crate) const PIECE: usize = 131_072;

/// Why an input was not read to its end.
#[derive(Drop)]
pub(crate) enum InputFault {
    /// The reader failed, or was interrupted.
    Failed(io::Error),
    /// There are more bytes than a text may have.
    Long,
    /// An allocation failed.
    NoMemory,
}

/// All that a reader has, if it has no more than a text may have.
///
/// Each read but the last gives a byte at least, so there are at most 134,217,729.
pub(crate) fn read_input<R: Read>(
    alloc: Global,
    reader: &mut Counted<R>,
) -> Result<Vec<u8>, InputFault>
    ensures whole { IfOk result (λ text. ReadsAll (R.remaining reader.old.stream) (R.remaining reader.new.stream) text.items) }
    ensures few { IfOk result (λ text. length text.items ≤ 134217728) }
    ensures fault { IfErr result (λ fault. IsInputFault (R.remaining reader.old.stream) (R.remaining reader.new.stream) fault) }
    ensures reads { ReadsToEnd (ended input_end result) reader.old reader.new }
{
    let Ok(mut piece) = vec![in alloc; 0; PIECE] else {
        return Err(InputFault::NoMemory);
    };
    read_pieces(alloc, reader, piece.as_mut_slice())
}

/// The same, by reads into this piece.
fn read_pieces<R: Read>(
    alloc: Global,
    reader: &mut Counted<R>,
    piece: &mut [u8],
) -> Result<Vec<u8>, InputFault>
    requires { 0 < length piece.old }
    ensures whole { IfOk result (λ text. ReadsAll (R.remaining reader.old.stream) (R.remaining reader.new.stream) text.items) }
    ensures few { IfOk result (λ text. length text.items ≤ 134217728) }
    ensures fault { IfErr result (λ fault. IsInputFault (R.remaining reader.old.stream) (R.remaining reader.new.stream) fault) }
    ensures reads { ReadsToEnd (ended input_end result) reader.old reader.new }
{
    let mut text = Vec::new(alloc);
    loop {
        let count = match read_piece(reader, piece, text.len()) {
            Ok(0) => return Ok(text),
            Ok(count) => count,
            Err(fault) => return Err(fault),
        };
        let Ok(()) = text.extend_from_slice(&piece[..count]) else {
            return Err(InputFault::NoMemory);
        };
    }
}

/// Reads what is left after so many bytes, and keeps nothing of it.
pub(crate) fn skip_rest<R: Read>(
    reader: &mut Counted<R>,
    piece: &mut [u8],
    before: usize,
) -> Result<(), InputFault>
    requires some { 0 < length piece.old }
    requires few { before ≤ 134217728 }
    ensures end { OnOk result ((rest : List ℕ) × ReadsAll (R.remaining reader.old.stream) (R.remaining reader.new.stream) rest × (before + length rest ≤ 134217728)) }
    ensures fault { IfErr result (λ fault. IsFaultAfter before (R.remaining reader.old.stream) (R.remaining reader.new.stream) fault) }
    ensures counted { MatchResult result (λ _. Ended reader.old reader.new) (InputFails reader.old reader.new) }
    ensures calls { AtMost (134217729 - before) reader.old.calls reader.new.calls }
{
    let mut total = before;
    loop {
        match read_piece(reader, piece, total) {
            Ok(0) => return Ok(()),
            Ok(count) => total += count,
            Err(fault) => return Err(fault),
        }
    }
}

/// Reads a piece after so many bytes, and gives how many it has: none at the end.
pub(crate) fn read_piece<R: Read>(
    reader: &mut Counted<R>,
    piece: &mut [u8],
    before: usize,
) -> Result<usize, InputFault>
    requires some { 0 < length piece.old }
    requires few { before ≤ 134217728 }
    ensures bytes { IfOk result (λ count. Consumes (R.remaining reader.old.stream) (R.remaining reader.new.stream) (take count piece.new)) }
    ensures size { length piece.new ≡ length piece.old }
    ensures within { IfOk result (λ count. count ≤ length piece.new) }
    ensures few { IfOk result (λ count. before + count ≤ 134217728) }
    ensures end { IfOk result (λ count. count ≡ 0 → IsAtEnd (R.remaining reader.new.stream)) }
    ensures fault { IfErr result (λ fault. IsFaultAfter before (R.remaining reader.old.stream) (R.remaining reader.new.stream) fault) }
    ensures counted { MatchResult result (Gave reader.old reader.new) (InputFails reader.old reader.new) }
    ensures calls { reader.new.calls ≡ next reader.old.calls }
{
    match reader.read(piece) {
        Ok(count) if count > MOST_BYTES - before => Err(InputFault::Long),
        Ok(count) => Ok(count),
        Err(error) => Err(InputFault::Failed(error)),
    }
}
