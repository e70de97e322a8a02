//! A reader and a writer in memory, which give and take so many bytes at a time, and may fail after their last byte.

use std::alloc::Global;
use std::io::{self, ErrorKind, Read, Write};

/// Gives its bytes, at most so many a read, and then their end, or fails.
#[derive(Drop)]
pub struct Source<'a> {
    rest: &'a [u8],
    most: usize,
    /// Whether there is no end after the bytes, but a failure.
    is_broken: bool,
}

impl<'a> Source<'a> {
    pub fn new(bytes: &'a [u8], most: usize) -> Source<'a> {
        Source {
            rest: bytes,
            most,
            is_broken: false,
        }
    }

    /// One that fails where it is asked for more than its bytes.
    pub fn broken(bytes: &'a [u8], most: usize) -> Source<'a> {
        Source {
            rest: bytes,
            most,
            is_broken: true,
        }
    }
}

impl<'a> Read for Source<'a> {
    fn read(&mut self, buf: &mut [u8]) -> io::Result<usize> {
        if self.is_broken && self.rest.is_empty() {
            return Err(io::Error::from(ErrorKind::BrokenPipe));
        }
        let count = self.rest.len().min(buf.len()).min(self.most);
        buf[..count].copy_from_slice(&self.rest[..count]);
        self.rest = &self.rest[count..];
        Ok(count)
    }
}

/// Keeps what it takes, at most so much a write, and fails where there is no room.
#[derive(Drop)]
pub struct Sink {
    taken: Vec<u8>,
    most: usize,
    /// How many bytes it still takes.
    room: usize,
}

impl Sink {
    pub fn new(alloc: Global, most: usize) -> Sink {
        Sink::with_room(alloc, most, usize::MAX)
    }

    /// One that takes so many bytes in all.
    pub fn with_room(alloc: Global, most: usize, room: usize) -> Sink {
        Sink {
            taken: Vec::new(alloc),
            most,
            room,
        }
    }

    /// What it took, and what is pushed after it.
    pub fn into_taken(self) -> Vec<u8> {
        let Sink { taken, .. } = self;
        taken
    }
}

impl Write for Sink {
    fn write(&mut self, buf: &[u8]) -> io::Result<usize> {
        if self.room == 0 {
            return Err(io::Error::from(ErrorKind::StorageFull));
        }
        let count = buf.len().min(self.most).min(self.room);
        self.taken.extend_from_slice(&buf[..count])?;
        self.room = self.room.saturating_sub(count);
        Ok(count)
    }

    fn flush(&mut self) -> io::Result<()> {
        Ok(())
    }
}
