//! Reading a trace from a reader piece by piece: of the text only the unfinished line is kept.
ghost use Rattle.std.specs.Prelude.{◌≡◌, ◌+◌, ◌≤◌, ◌<◌, ◌∷◌, ◌++◌, ℕ, List, [], true, None, Ok, Err, is_some, length, IfOk, IfErr, IfSome, IfNone, OnOk};
ghost use Rattle.lp_text.specs.Faults.{Gives, IsReadFault};
ghost use Rattle.lp_text.specs.Input.{AtText, ReadsAll};
ghost use Rattle.lp_text.specs.inside.Streams.{IsUnbroken, reading_after, reading_on};
ghost use Rattle.lp_text.specs.Reading.{reading, reading_from};
ghost use Rattle.lp_text.specs.StreamContract.{ReadsToEnd, ended, stream_end};
ghost use Rattle.lp_text.specs.Traces.{IsTrace, text_of};
ghost use Rattle.lp_text.specs.Words.{lines};

use crate::counted::Counted;
use crate::fault::ReadFault;
use crate::input::{PIECE, read_piece, skip_rest};
use crate::parser::Parser;
use crate::read::{parser_of, read_all_lines, read_lines};
use crate::split::cut;
use crate::stream_fault::StreamFault;
use crate::trace::Trace;
use std::alloc::Global;
use std::io::Read;
use std::marker::Model;

/// What came of a text so far.
struct Stream {
    /// What the whole lines have given, once the first one came.
    parser: Option<Parser>,
    /// The number of the next line.
    number: u64,
    /// What came of the next line.
    held: Vec<u8>,
}

/// By hand, so that the proof of who owns one lets go of it in one step, not field by field.
impl Drop for Stream {
    fn drop(self) {
        let Stream {
            parser: _,
            number: _,
            held: _,
        } = self;
    }
}

impl Model for Stream {
    ghost use Rattle.lp_text.specs.inside.Streams.{Stream, IsUnbroken};

    ghost Value = { Stream };

    ghost view = { λ i. record { parser = i.parser; number = i.number; held = i.held.items } };

    ghost invariant = { λ i. IsUnbroken i.held.items };
}

impl Stream {
    /// Nothing of a text.
    fn new(alloc: Global) -> Stream
        ensures { result ≡ record { parser = None; number = 1; held = [] } }
    {
        Stream {
            parser: None,
            number: 1,
            held: Vec::new(alloc),
        }
    }

    /// One piece more. Its first line is the end of what is held; the lines after it are read where they lie.
    fn add(&mut self, alloc: Global, piece: &[u8]) -> Result<(), ReadFault>
        requires some { 1 ≤ self.old.number }
        requires few { self.old.number + length self.old.held + length piece.now ≤ 134217729 }
        ensures some { OnOk result (1 ≤ self.new.number) }
        ensures read { OnOk result ((bytes : List ℕ) → reading_after self.old (piece.now ++ bytes) ≡ reading_after self.new bytes) }
        ensures few { OnOk result (self.new.number + length self.new.held ≤ self.old.number + length self.old.held + length piece.now) }
        ensures fault { IfErr result (λ fault. (bytes : List ℕ) → IsReadFault fault (reading_after self.old (piece.now ++ bytes))) }
    {
        let (end, after) = cut(b'\n', piece);
        let Ok(()) = self.held.extend_from_slice(end) else {
            return Err(ReadFault::NoMemory);
        };
        let Some(lines) = after else {
            return Ok(());
        };
        self.take_held(alloc)?;
        self.take(alloc, lines)
    }

    /// What is held is a whole line.
    fn take_held(&mut self, alloc: Global) -> Result<(), ReadFault>
        requires some { 1 ≤ self.old.number }
        requires few { self.old.number ≤ 134217729 }
        ensures some { OnOk result (1 ≤ self.new.number) }
        ensures begun { OnOk result (is_some self.new.parser ≡ true) }
        ensures held { OnOk result (self.new.held ≡ []) }
        ensures read { OnOk result ((bytes : List ℕ) → reading_after self.old (10 ∷ bytes) ≡ reading_after self.new bytes) }
        ensures few { OnOk result (self.new.number ≤ self.old.number + 1) }
        ensures fault { IfErr result (λ fault. (bytes : List ℕ) → IsReadFault fault (reading_after self.old (10 ∷ bytes))) }
    {
        take_line(
            alloc,
            &mut self.parser,
            &mut self.number,
            self.held.as_slice(),
        )?;
        self.held.clear();
        Ok(())
    }

    /// Takes the lines of a text that are whole, and holds what stands after them.
    fn take(&mut self, alloc: Global, text: &[u8]) -> Result<(), ReadFault>
        requires some { 1 ≤ self.old.number }
        requires begun { is_some self.old.parser ≡ true }
        requires held { self.old.held ≡ [] }
        requires few { self.old.number + length text.now ≤ 134217730 }
        ensures some { OnOk result (1 ≤ self.new.number) }
        ensures read { OnOk result ((bytes : List ℕ) → reading_after self.old (text.now ++ bytes) ≡ reading_after self.new bytes) }
        ensures few { OnOk result (self.new.number + length self.new.held ≤ self.old.number + length text.now) }
        ensures fault { IfErr result (λ fault. (bytes : List ℕ) → IsReadFault fault (reading_after self.old (text.now ++ bytes))) }
    {
        let Some(parser) = &mut self.parser else {
            unreachable!()
        };
        let rest = match take_lines(alloc, parser, &mut self.number, text) {
            Ok(rest) => rest,
            Err(fault) => return Err(fault),
        };
        let Ok(()) = self.held.extend_from_slice(rest) else {
            return Err(ReadFault::NoMemory);
        };
        Ok(())
    }

    /// What the text has given, at its end.
    fn finish(self, alloc: Global) -> Result<Parser, ReadFault>
        requires some { 1 ≤ self.number }
        requires few { self.number + length self.held ≤ 134217729 }
        ensures { Gives (λ parser. parser) result (reading_after self []) }
    {
        let Self {
            parser,
            number,
            held,
        } = self;
        match parser {
            None => read_all_lines(alloc, held.as_slice()),
            Some(parser) => read_lines(alloc, number, parser, held.as_slice()),
        }
    }
}

/// Takes a whole line, without its end: the first of all where none came before.
fn take_line(
    alloc: Global,
    parser: &mut Option<Parser>,
    number: &mut u64,
    line: &[u8],
) -> Result<(), ReadFault>
    requires line { IsUnbroken line.now }
    requires begun { 1 ≤ number.old }
    requires few { number.old ≤ 134217729 }
    ensures some { OnOk result (is_some parser.new ≡ true) }
    ensures read { OnOk result ((bytes : List ℕ) → reading_on parser.old number.old (lines (line.now ++ 10 ∷ bytes)) ≡ reading_on parser.new number.new (lines bytes)) }
    ensures more { OnOk result ((1 ≤ number.new) × (number.new ≤ number.old + 1)) }
    ensures fault { IfErr result (λ fault. (bytes : List ℕ) → IsReadFault fault (reading_on parser.old number.old (lines (line.now ++ 10 ∷ bytes)))) }
{
    match parser {
        Some(parser) => {
            if let Err(fault) = parser.add_line(alloc, line) {
                return Err(fault.at(*number));
            }
            *number += 1;
        }
        None => match parser_of(alloc, line) {
            Ok(begun) => {
                *parser = Some(begun);
                *number = 2;
            }
            Err(fault) => return Err(fault),
        },
    }
    Ok(())
}

/// Takes the whole lines of a text, of which the first has this number, and gives what stands after
/// them.
fn take_lines<'a>(
    alloc: Global,
    parser: &mut Parser,
    number: &mut u64,
    text: &'a [u8],
) -> Result<&'a [u8], ReadFault>
    requires few { number.old + length text.now ≤ 134217730 }
    ensures read { IfOk result (λ rest. (bytes : List ℕ) → reading_from number.old parser.old (lines (text.now ++ bytes)) ≡ reading_from number.new parser.new (lines (rest.now ++ bytes))) }
    ensures few { IfOk result (λ rest. number.new + length rest.now ≤ number.old + length text.now) }
    ensures more { IfOk result (λ rest. number.old ≤ number.new) }
    ensures unbroken { IfOk result (λ rest. IsUnbroken rest.now) }
    ensures fault { IfErr result (λ fault. (bytes : List ℕ) → IsReadFault fault (reading_from number.old parser.old (lines (text.now ++ bytes)))) }
{
    let mut next = *number;
    let mut rest = text;
    loop {
        if let Some(more) = parser.take_quick(rest) {
            rest = more;
            next += 1;
            continue;
        }
        let (line, left) = cut(b'\n', rest);
        let Some(more) = left else {
            *number = next;
            return Ok(rest);
        };
        if let Err(fault) = parser.add_line(alloc, line) {
            return Err(fault.at(next));
        }
        rest = more;
        next += 1;
    }
}

impl Trace {
    /// The trace that a reader has, read to its end.
    ///
    /// It makes at most 134,217,729 reads. A read that fails or is interrupted ends it, as Read; else a text that is no trace
    /// is Trace with its first fault, and NoMemory comes where an allocation failed.
    pub fn read_from<R: Read>(alloc: Global, reader: &mut Counted<R>) -> Result<Trace, StreamFault>
        // What was read spells a trace, and nothing is left.
        ensures found { IfOk result (λ trace. IsTrace trace × ReadsAll (R.remaining reader.old.stream) (R.remaining reader.new.stream) (text_of trace)) }
        // The fault of a text is the one that the definitions give.
        ensures trace { IfErr result (λ fault. AtText fault (λ why. IfSome (R.remaining reader.old.stream) (λ text. reading text ≡ Err why))) }
        // The reader is read to its end, and a fault of reading comes of a read that failed.
        ensures reads { ReadsToEnd (ended stream_end result) reader.old reader.new }
    {
        let parser = parse_all(alloc, reader)?;
        Ok(parser.into_trace())
    }
}

/// What a reader's text gives, read to its end.
fn parse_all<R: Read>(alloc: Global, reader: &mut Counted<R>) -> Result<Parser, StreamFault>
    ensures found { IfOk result (λ parser. (text : List ℕ) × ReadsAll (R.remaining reader.old.stream) (R.remaining reader.new.stream) text × (reading text ≡ Ok parser)) }
    ensures trace { IfErr result (λ fault. AtText fault (λ why. IfSome (R.remaining reader.old.stream) (λ text. reading text ≡ Err why))) }
    ensures reads { ReadsToEnd (ended stream_end result) reader.old reader.new }
{
    let Ok(mut piece) = vec![in alloc; 0; PIECE] else {
        return Err(StreamFault::NoMemory);
    };
    read_by(alloc, reader, piece.as_mut_slice())
}

/// The same, by reads into this piece.
fn read_by<R: Read>(
    alloc: Global,
    reader: &mut Counted<R>,
    piece: &mut [u8],
) -> Result<Parser, StreamFault>
    requires { 0 < length piece.old }
    ensures found { IfOk result (λ parser. (text : List ℕ) × ReadsAll (R.remaining reader.old.stream) (R.remaining reader.new.stream) text × (reading text ≡ Ok parser)) }
    ensures trace { IfErr result (λ fault. AtText fault (λ why. IfSome (R.remaining reader.old.stream) (λ text. reading text ≡ Err why))) }
    ensures reads { ReadsToEnd (ended stream_end result) reader.old reader.new }
{
    let mut stream = Stream::new(alloc);
    if let Err(fault) = add_all(alloc, reader, piece, &mut stream) {
        return Err(fault);
    }
    match stream.finish(alloc) {
        Ok(parser) => Ok(parser),
        Err(fault) => Err(StreamFault::from(fault)),
    }
}

/// Adds all that a reader has to a stream that has nothing yet.
fn add_all<R: Read>(
    alloc: Global,
    reader: &mut Counted<R>,
    piece: &mut [u8],
    stream: &mut Stream,
) -> Result<(), StreamFault>
    requires piece { 0 < length piece.old }
    requires empty { stream.old ≡ record { parser = None; number = 1; held = [] } }
    ensures found { OnOk result ((text : List ℕ) × ReadsAll (R.remaining reader.old.stream) (R.remaining reader.new.stream) text × (reading text ≡ reading_after stream.new [])) }
    ensures some { OnOk result (1 ≤ stream.new.number) }
    ensures few { OnOk result (stream.new.number + length stream.new.held ≤ 134217729) }
    ensures trace { IfErr result (λ fault. AtText fault (λ why. IfSome (R.remaining reader.old.stream) (λ text. reading text ≡ Err why))) }
    ensures reads { ReadsToEnd (ended stream_end result) reader.old reader.new }
{
    let mut total = 0;
    loop {
        let count = match read_piece(reader, piece, total) {
            Ok(count) => count,
            Err(fault) => return Err(StreamFault::from(fault)),
        };
        if count == 0 {
            return Ok(());
        }
        total += count;
        if let Err(fault) = stream.add(alloc, &piece[..count]) {
            return match skip_rest(reader, piece, total) {
                Ok(()) => Err(StreamFault::from(fault)),
                Err(later) => Err(StreamFault::from(later)),
            };
        }
    }
}
