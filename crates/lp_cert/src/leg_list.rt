//! How the legs of a run ended.
ghost use Rattle.std.specs.Prelude.{◌≡◌, ◌↔◌, [], length, option_to_list, slice_get, IsTrue};
ghost use Rattle.lp_cert.specs.Ends.{ends_left};

use crate::leg_end::LegEndRef;
use crate::leg_rows::LegRows;
use std::marker::Model;

/// A list of ends of legs. Contracts see the list.
#[derive(Drop)]
pub struct LegList {
    pub(crate) rows: LegRows,
}

impl Model for LegList {
    ghost use Rattle.std.specs.Prelude.{List};
    ghost use Rattle.lp_definitions.specs.Ends.{LegEnd};

    ghost Value = { List LegEnd };

    ghost view = { λ l. l.rows.ends };
}

impl LegList {
    /// The ends, borrowed, one after the other.
    pub fn iter(&self) -> LegEnds<'_>
        ensures { ends_left result ≡ self.now }
    {
        LegEnds::of(&self.rows)
    }

    /// How many legs there were.
    pub fn len(&self) -> usize
        ensures { result ≡ length self.now }
    {
        self.rows.len()
    }

    /// Whether there was no leg.
    pub fn is_empty(&self) -> bool
        ensures { IsTrue result ↔ (self.now ≡ []) }
    {
        self.len() == 0
    }

    /// The list of the first end alone, if there is one. Never allocates.
    pub fn into_first(mut self) -> LegList
        ensures { result ≡ option_to_list (slice_get self 0) }
    {
        self.rows.keep_first();
        self
    }
}

/// The ends of legs that are left, borrowed, the earliest first. No call allocates.
#[derive(Clone, Copy)]
pub struct LegEnds<'a> {
    rows: &'a LegRows,
    /// How many ends are no longer left.
    passed: usize,
}

impl<'a> LegEnds<'a> {
    /// All ends that are kept so.
    pub(crate) fn of(rows: &'a LegRows) -> LegEnds<'a>
        ensures { ends_left result ≡ rows.now.ends }
    {
        LegEnds { rows, passed: 0 }
    }

    /// Whether no end is left.
    pub fn is_empty(&self) -> bool
        ensures { IsTrue result ↔ (ends_left self.now ≡ []) }
    {
        self.passed >= self.rows.len()
    }
}

impl<'a> Iterator for LegEnds<'a> {
    ghost use Rattle.std.specs.Iterator.{YieldsFirstBy, item_count};
    ghost use Rattle.lp_cert.specs.Ends.{end_in, ends_left};

    type Item = LegEndRef<'a>;

    ghost next_gives = { YieldsFirstBy end_in ends_left };

    ghost remaining = { item_count ends_left };

    fn next(&mut self) -> Option<LegEndRef<'a>> {
        if self.passed >= self.rows.len() {
            return None;
        }
        let end = self.rows.end(self.passed);
        self.passed += 1;
        Some(end)
    }
}

impl<'a> IntoIterator for &'a LegList {
    ghost use Rattle.lp_cert.specs.Ends.{ends_left};

    type Item = LegEndRef<'a>;

    type IntoIter = LegEnds<'a>;

    ghost into_iter_gives = { λ l it. ends_left it ≡ l.now };

    fn into_iter(self) -> LegEnds<'a> {
        self.iter()
    }
}
