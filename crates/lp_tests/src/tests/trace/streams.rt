//! A reader and a writer in memory: such as give and take so many bytes at a time, and such as fail or have no end.
ghost use Rattle.std.specs.Prelude.{◌≡◌, IfOk};

use super::*;
use std::io::{self, ErrorKind, Read, Write};

/// How a stream ends.
#[derive(Clone, Copy)]
pub(super) enum End {
    /// It fails.
    Fails,
    /// It fails, and would then go on.
    FailsOnce,
    /// It is interrupted.
    Interrupted,
    /// It gives or takes nothing more.
    Nothing,
    /// It gives or takes nothing, and would then go on.
    NothingOnce,
}

impl End {
    /// How often it would go on after its end.
    fn further(self) -> usize {
        match self {
            End::FailsOnce | End::NothingOnce => usize::MAX,
            _ => 0,
        }
    }

    fn answer(self) -> io::Result<usize>
        ensures { IfOk result (λ count. count ≡ 0) }
    {
        match self {
            End::Fails | End::FailsOnce => Err(io::Error::from(ErrorKind::BrokenPipe)),
            End::Interrupted => Err(io::Error::from(ErrorKind::Interrupted)),
            End::Nothing | End::NothingOnce => Ok(0),
        }
    }
}

/// Gives its bytes, at most so many a read, for some reads, and then ends.
#[derive(Drop)]
pub(super) struct Source<'a> {
    rest: &'a [u8],
    most: usize,
    reads: usize,
    end: End,
}

impl<'a> Source<'a> {
    /// One that gives all its bytes.
    pub(super) fn new(bytes: &'a [u8], most: usize) -> Source<'a> {
        Source::broken(bytes, most, usize::MAX, End::Nothing)
    }

    /// One that ends after so many reads.
    pub(super) fn broken(bytes: &'a [u8], most: usize, reads: usize, end: End) -> Source<'a> {
        Source {
            rest: bytes,
            most,
            reads,
            end,
        }
    }

    /// Whether it has ended once, and was not read again.
    pub(super) fn is_left(&self) -> bool {
        self.reads == usize::MAX
    }
}

impl<'a> Read for Source<'a> {
    fn read(&mut self, buf: &mut [u8]) -> io::Result<usize> {
        if self.reads == 0 {
            self.reads = self.end.further();
            return self.end.answer();
        }
        self.reads -= 1;
        let count = self.rest.len().min(buf.len()).min(self.most);
        buf[..count].copy_from_slice(&self.rest[..count]);
        self.rest = &self.rest[count..];
        Ok(count)
    }
}

/// Gives so many bytes, in pieces of 65,536: what the buffers hold already.
#[derive(Drop)]
pub(super) struct Zeros {
    pub(super) left: u64,
}

impl Read for Zeros {
    fn read(&mut self, buf: &mut [u8]) -> io::Result<usize> {
        let most = buf.len().min(65_536);
        let count = if self.left < most as u64 {
            self.left as usize
        } else {
            most
        };
        self.left -= count as u64;
        Ok(count)
    }
}

/// Keeps what it takes, at most so much a write, for some writes, and then ends.
#[derive(Drop)]
pub(super) struct Sink {
    taken: Vec<u8>,
    most: usize,
    writes: usize,
    end: End,
}

impl Sink {
    /// One that takes everything.
    pub(super) fn new(alloc: Global, most: usize) -> Sink {
        Sink::full(alloc, most, usize::MAX, End::Nothing)
    }

    /// One that ends after so many writes.
    pub(super) fn full(alloc: Global, most: usize, writes: usize, end: End) -> Sink {
        Sink {
            taken: Vec::new(alloc),
            most,
            writes,
            end,
        }
    }

    /// Whether it has ended once, and was not written to again.
    pub(super) fn is_left(&self) -> bool {
        self.writes == usize::MAX
    }

    /// What it took.
    pub(super) fn taken(&self) -> &[u8] {
        self.taken.as_slice()
    }
}

impl Write for Sink {
    fn write(&mut self, buf: &[u8]) -> io::Result<usize> {
        if self.writes == 0 {
            self.writes = self.end.further();
            return self.end.answer();
        }
        self.writes -= 1;
        let count = buf.len().min(self.most);
        self.taken.extend_from_slice(&buf[..count])?;
        Ok(count)
    }

    fn flush(&mut self) -> io::Result<()> {
        Ok(())
    }
}
