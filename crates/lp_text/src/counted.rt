//! A reader or a writer whose calls are counted, so that a contract can say which of them failed.
ghost use Rattle.std.specs.Prelude.{◌≡◌, ◌<◌, IfOk, OnErr, OnOk};
ghost use Rattle.std.specs.Io.{ReadsAtMost, WritesAtMost};
ghost use Rattle.std.specs.Io.KnownBytes.{ReadConsumes, WriteAppends};
ghost use Rattle.lp_text.specs.Counts.{next};

use std::io::{self, Read, Write};
use std::marker::Model;

/// A reader or a writer, and how often it was called, how often it failed, and how often a read gave no byte.
///
/// Each count has 64 bits and goes round: after the largest number comes 0.
#[derive(Drop)]
pub struct Counted<S> {
    stream: S,
    calls: u64,
    failures: u64,
    ends: u64,
}

impl<S> Model for Counted<S> {
    ghost use Rattle.lp_text.specs.Counts.{Counts};

    ghost Value = { Counts S };

    ghost view = { λ c. record { stream = c.stream; calls = c.calls; failures = c.failures; ends = c.ends } };
}

/// A count with one more.
fn next(count: u64) -> u64
    ensures { result ≡ next count }
{
    if count == u64::MAX { 0 } else { count + 1 }
}

impl<S> Counted<S> {
    /// A reader or a writer that was not called yet.
    pub fn new(stream: S) -> Counted<S>
        ensures { result ≡ record { stream = stream; calls = 0; failures = 0; ends = 0 } }
    {
        Counted {
            stream,
            calls: 0,
            failures: 0,
            ends: 0,
        }
    }

    /// The reader or the writer.
    pub fn stream(&self) -> &S
        ensures { result.now ≡ self.now.stream }
    {
        &self.stream
    }

    /// The reader or the writer, counted no more.
    pub fn into_stream(self) -> S
        ensures { result ≡ self.stream }
    {
        self.stream
    }
}

impl<R: Read> Counted<R> {
    /// Reads once, as the reader does.
    pub fn read(&mut self, piece: &mut [u8]) -> io::Result<usize>
        ensures bound { ReadsAtMost result piece.new }
        ensures bytes { ReadConsumes (R.remaining self.old.stream) (R.remaining self.new.stream) result piece.new }
        ensures calls { self.new.calls ≡ next self.old.calls }
        ensures failed { OnErr result (self.new.failures ≡ next self.old.failures) }
        ensures endless { OnErr result (self.new.ends ≡ self.old.ends) }
        ensures read { OnOk result (self.new.failures ≡ self.old.failures) }
        ensures some { IfOk result (λ count. 0 < count → self.new.ends ≡ self.old.ends) }
        ensures end { IfOk result (λ count. count ≡ 0 → self.new.ends ≡ next self.old.ends) }
    {
        self.calls = next(self.calls);
        match self.stream.read(piece) {
            Ok(0) => {
                self.ends = next(self.ends);
                Ok(0)
            }
            Ok(count) => Ok(count),
            Err(error) => {
                self.failures = next(self.failures);
                Err(error)
            }
        }
    }
}

impl<W: Write> Counted<W> {
    /// Writes once, as the writer does. A write that takes no byte is counted as one that failed.
    pub fn write(&mut self, bytes: &[u8]) -> io::Result<usize>
        ensures bound { WritesAtMost result bytes.now }
        ensures bytes { WriteAppends (W.contents self.old.stream) (W.contents self.new.stream) result bytes.now }
        ensures calls { self.new.calls ≡ next self.old.calls }
        ensures failed { OnErr result (self.new.failures ≡ next self.old.failures) }
        ensures some { IfOk result (λ count. 0 < count → self.new.failures ≡ self.old.failures) }
        ensures none { IfOk result (λ count. count ≡ 0 → self.new.failures ≡ next self.old.failures) }
        ensures ends { self.new.ends ≡ self.old.ends }
    {
        self.calls = next(self.calls);
        match self.stream.write(bytes) {
            Ok(0) => {
                self.failures = next(self.failures);
                Ok(0)
            }
            Ok(count) => Ok(count),
            Err(error) => {
                self.failures = next(self.failures);
                Err(error)
            }
        }
    }
}
