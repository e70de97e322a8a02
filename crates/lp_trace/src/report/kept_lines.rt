//! The first lines of a certificate, and their text.
ghost use Rattle.std.specs.Prelude.{◌≡◌, ◌<◌, ◌≤◌, ◌++◌, ◌∷◌, [], length, option_to_list, slice_get, take, IfNone, IfOk, IsFalse, IsTrue, List, Some};
ghost use Rattle.lp_definitions.specs.declared.cert.Cert.{Cert};
ghost use Rattle.lp_definitions.specs.declared.line.Line.{Line};
ghost use Rattle.lp_trace.specs.inside.KeptLines.{AreAdded, AreFirst, AreKept, text_of};

use super::reasons::hold_line;
use crate::held::Held;
use lp_cert::{CertLines, CertListRef, Line};
use std::alloc::{AllocError, Global};

/// How many lines are kept: more of them fill the room of their text.
const LINES: usize = 6_000;

/// The first lines of a certificate of the leg at hand, and their text.
///
/// A group that was born in a leg has the reasons of its ancestors in front of its own, and the certificate before mostly
/// begins with nearly the same ones: so their text is copied, where each line was written out again. No call but `new`
/// allocates: what there is no room for isn't kept.
#[derive(Drop)]
pub(crate) struct KeptLines {
    /// The place of the certificate.
    pub(super) place: usize,
    /// Where each line begins in the text.
    pub(super) starts: Vec<usize>,
    pub(super) text: Held,
}

impl KeptLines {
    /// No line, with room for some; AllocError where an allocation failed.
    pub(crate) fn new(alloc: Global) -> Result<KeptLines, AllocError>
        ensures { IfOk result (λ kept. AreKept [] kept.starts.items kept.text.items) }
    {
        let starts = Vec::with_capacity(alloc, LINES)?;
        let text = Held::new(alloc)?;
        Ok(KeptLines {
            place: 0,
            starts,
            text,
        })
    }

    /// Keeps no line, as another leg begins.
    pub(super) fn clear(&mut self)
        ensures place { self.new.place ≡ 0 }
        ensures none { AreKept [] self.new.starts.items self.new.text.items }
    {
        self.place = 0;
        self.starts.clear();
        self.text.clear();
    }

    /// Turns to the certificate at a place: keeps its lines but for a reason that continues, so many as there is room for.
    /// Gives the lines after those.
    #[inline(always)]
    pub(super) fn turn_to<'a>(
        &mut self,
        certs: &CertListRef<'a>,
        place: usize,
    ) -> (Option<Line>, CertLines<'a>)
        requires place { place < length certs.now }
        requires earlier { self.old.place ≤ place }
        requires first { AreFirst certs.now self.old.place self.old.starts.items self.old.text.items }
        ensures place { self.new.place ≡ place }
        ensures first { AreFirst certs.now place self.new.starts.items self.new.text.items }
        ensures lines { (cert : Cert) → slice_get certs.now place ≡ Some cert → text_of cert.lines ≡ self.new.text.items ++ text_of (option_to_list result.0 ++ result.1) }
        ensures none { IfNone result.0 (result.1 ≡ []) }
    {
        let (shared, mut lines) = certs.lines_beside(place, self.place, self.starts.len());
        self.truncate(shared);
        self.place = place;
        let next = self.add(&mut lines, certs.older_lines(place));
        (next, lines)
    }

    /// Keeps the first lines alone, so many.
    fn truncate(&mut self, count: usize)
        ensures first { (lines : List Line) → AreKept lines self.old.starts.items self.old.text.items → AreKept (take count lines) self.new.starts.items self.new.text.items }
        ensures place { self.new.place ≡ self.old.place }
    {
        if let Some(start) = self.starts.get(count) {
            self.text.truncate(*start);
            self.starts.truncate(count);
        }
    }

    /// Keeps these lines after the others, up to a number of them and while there is room, and gives the next one.
    fn add(&mut self, lines: &mut CertLines<'_>, most: usize) -> Option<Line>
        ensures lines { (before : List Line) → AreKept before self.old.starts.items self.old.text.items → AreAdded before lines.old (option_to_list result) lines.new self.new.starts.items self.new.text.items }
        ensures none { IfNone result (lines.new ≡ []) }
        ensures place { self.new.place ≡ self.old.place }
    {
        let mut next = lines.next();
        while let Some(line) = next {
            if self.starts.len() >= most || !self.push(&line) {
                break;
            }
            next = lines.next();
        }
        next
    }

    /// Keeps a line after the others if there is room, and says whether it did.
    #[inline(always)]
    fn push(&mut self, line: &Line) -> bool
        ensures taken { IsTrue result → (lines : List Line) → AreKept lines self.old.starts.items self.old.text.items → AreKept (lines ++ line.now ∷ []) self.new.starts.items self.new.text.items }
        ensures kept { IsFalse result → (lines : List Line) → AreKept lines self.old.starts.items self.old.text.items → AreKept lines self.new.starts.items self.new.text.items }
        ensures place { self.new.place ≡ self.old.place }
    {
        let start = self.text.len();
        if self.starts.len() >= self.starts.capacity() || !hold_line(&mut self.text, line) {
            return false;
        }
        self.starts.push(start).is_ok()
    }
}
