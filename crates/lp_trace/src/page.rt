//! Text that is gathered before it is written.
ghost use Rattle.std.specs.Prelude.{◌≡◌, ◌≤◌, ◌∷◌, ◌++◌, [], decimal, length, map, take, IfOk, OnOk};
ghost use Rattle.std.specs.List.{concat};
ghost use Rattle.lp_text.specs.Words.{line_of};
ghost use Rattle.lp_text.specs.inside.Writing.{Puts, line_rest, seen_of, Wrote};

use crate::held::{Held, LINE};
use crate::place::{SHORT, place_numbers};
use lp_text::{Counted, WriteFault, put};
use std::alloc::{AllocError, Global};
use std::io::Write;

/// Text that waits to be written. No call but `new` allocates.
#[derive(Drop)]
pub(crate) struct Page {
    pub(crate) held: Held,
}

impl Page {
    /// An empty page; AllocError where an allocation failed.
    pub(crate) fn new(alloc: Global) -> Result<Page, AllocError>
        ensures { IfOk result (λ page. page.held.items ≡ []) }
    {
        Ok(Page {
            held: Held::new(alloc)?,
        })
    }

    /// Writes what is held.
    pub(crate) fn flush<W: Write>(&mut self, writer: &mut Counted<W>) -> Result<(), WriteFault>
        ensures written { Wrote (seen_of W.contents writer.old) (seen_of W.contents writer.new) result self.old.held.items }
        ensures empty { OnOk result (self.new.held.items ≡ []) }
    {
        put(writer, self.held.as_slice())?;
        self.held.clear();
        Ok(())
    }

    /// Puts bytes after those that are held, and writes where there is no room.
    #[inline(always)]
    pub(crate) fn put<W: Write>(
        &mut self,
        writer: &mut Counted<W>,
        bytes: &[u8],
    ) -> Result<(), WriteFault>
        ensures { Puts (seen_of W.contents writer.old) (seen_of W.contents writer.new) self.old.held.items self.new.held.items result bytes.now }
    {
        if self.held.hold(bytes) {
            return Ok(());
        }
        self.put_flushed(writer, bytes)
    }

    /// The same, where there is no room.
    #[inline(never)]
    fn put_flushed<W: Write>(
        &mut self,
        writer: &mut Counted<W>,
        bytes: &[u8],
    ) -> Result<(), WriteFault>
        ensures { Puts (seen_of W.contents writer.old) (seen_of W.contents writer.new) self.old.held.items self.new.held.items result bytes.now }
    {
        self.flush(writer)?;
        if self.held.hold(bytes) {
            return Ok(());
        }
        put(writer, bytes)
    }

    /// Puts these pieces.
    #[inline(always)]
    pub(crate) fn put_all<W: Write>(
        &mut self,
        writer: &mut Counted<W>,
        pieces: &[&[u8]],
    ) -> Result<(), WriteFault>
        ensures { Puts (seen_of W.contents writer.old) (seen_of W.contents writer.new) self.old.held.items self.new.held.items result (concat (map (λ piece. piece.now) pieces.now)) }
    {
        for piece in pieces {
            self.put(writer, piece)?;
        }
        Ok(())
    }

    /// Puts a line of these words.
    pub(crate) fn put_line<W: Write>(
        &mut self,
        writer: &mut Counted<W>,
        first: &[u8],
        words: &[&[u8]],
    ) -> Result<(), WriteFault>
        ensures { Puts (seen_of W.contents writer.old) (seen_of W.contents writer.new) self.old.held.items self.new.held.items result (line_of (first.now ∷ map (λ word. word.now) words.now)) }
    {
        self.put(writer, first)?;
        for word in words {
            self.put_all(writer, &[b" ", word])?;
        }
        self.put(writer, b"\n")
    }

    /// Puts a line of a word, which is so many bytes of a short text, and of at most six numbers, where there may be no room to
    /// hold it.
    #[inline(never)]
    pub(crate) fn put_numbers<W: Write>(
        &mut self,
        writer: &mut Counted<W>,
        word: &[u8; SHORT],
        len: usize,
        numbers: &[u64],
    ) -> Result<(), WriteFault>
        requires short { len ≤ 16 }
        requires few { length numbers.now ≤ 6 }
        ensures { Puts (seen_of W.contents writer.old) (seen_of W.contents writer.new) self.old.held.items self.new.held.items result (take len word.now ++ line_rest (map decimal numbers.now)) }
    {
        let mut line = [b'\n'; LINE];
        let end = place_numbers(&mut line, 0, word, len, numbers);
        self.put(writer, &line[..end])
    }
}
