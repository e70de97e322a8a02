//! How far a list follows its part of the journal.
ghost use Rattle.std.specs.Prelude.{◌≡◌, ◌↔◌, [], ◌∷◌, ◌++◌, List, IsTrue, MatchBool, Some, slice_get};
ghost use Rattle.lp_log.specs.Entries.{Entry};
ghost use Rattle.lp_log.specs.Audits.{DifferAt};
ghost use Rattle.lp_log.specs.inside.Cursors.{Follows};

use crate::Entry;
use crate::same::same_entry;

/// How far a list was found to follow its part of the journal, of which the entries come one after another.
#[derive(Clone, Copy)]
pub(crate) struct Cursor {
    /// How many entries are alike.
    pub(crate) at: usize,
    /// Whether the next ones are known to differ.
    pub(crate) off: bool,
}

impl Cursor {
    /// Before the first entry.
    pub(crate) fn start() -> Cursor
        ensures { (sent : List Entry) → Follows sent [] result }
    {
        Cursor { at: 0, off: false }
    }

    /// After the next entry of the part.
    pub(crate) fn after(self, sent: &[Entry], entry: &Entry) -> Cursor
        ensures { (part : List Entry) → Follows sent.now part self → Follows sent.now (part ++ entry.now ∷ []) result }
    {
        if self.off {
            return self;
        }
        if is_next(sent, self.at, entry) {
            return Cursor {
                at: self.at + 1,
                off: false,
            };
        }
        Cursor {
            at: self.at,
            off: true,
        }
    }

    /// Whether the list and the whole part differ.
    pub(crate) fn differs(self, sent: &[Entry]) -> bool
        ensures { (part : List Entry) → Follows sent.now part self → MatchBool result (DifferAt sent.now part self.at) (sent.now ≡ part) }
    {
        self.off || self.at < sent.len()
    }
}

/// Whether the entry stands at this place of the list.
fn is_next(sent: &[Entry], at: usize, entry: &Entry) -> bool
    ensures { IsTrue result ↔ (slice_get sent.now at ≡ Some entry.now) }
{
    match sent.get(at) {
        Some(mine) => same_entry(mine, entry),
        None => false,
    }
}
