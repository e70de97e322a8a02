//! The groups that the events of a run switched.
ghost use Rattle.std.specs.Prelude.{◌≡◌, ◌<◌, ◌∷◌, ◌++◌, [], drop, length, OnErr, OnOk};
ghost use Rattle.lp_definitions.specs.Events.{group_numbers};
ghost use Rattle.lp_replay.specs.Replies.{first_groups};
ghost use Rattle.lp_replay.specs.inside.GroupLists.{start_of};

use lp_stack::GroupId;
use std::alloc::{AllocError, Global};
use std::marker::Model;

/// Lists of groups, one after the other in one store: most are of one group, and an allocation for each
/// would take many times the memory of the group.
///
/// Contracts see the lists.
pub struct GroupLists {
    groups: Vec<GroupId>,
    /// For each list how many groups there are up to its end.
    ends: Vec<usize>,
}

/// By hand, so that the proof of who owns one lets go of it in one step, not field by field.
impl Drop for GroupLists {
    fn drop(self) {
        let GroupLists { groups: _, ends: _ } = self;
    }
}

impl Model for GroupLists {
    ghost use Rattle.std.specs.Prelude.{List, ℕ, length};
    ghost use Rattle.lp_replay.specs.inside.GroupLists.{lists_from, AreEnds};

    ghost Value = { List (List ℕ) };

    ghost view = { λ l. lists_from 0 l.ends.items l.groups.items };

    ghost invariant = { λ l. AreEnds 0 l.ends.items (length l.groups.items) };
}

impl GroupLists {
    /// No list. Never allocates.
    pub(super) fn new(alloc: Global) -> GroupLists
        ensures { result ≡ [] }
    {
        GroupLists {
            groups: Vec::new(alloc),
            ends: Vec::new(alloc),
        }
    }

    /// Adds a list; AllocError where an allocation failed, and then all is as it was.
    pub(super) fn push(&mut self, list: &[GroupId]) -> Result<(), AllocError>
        ensures ok { OnOk result (self.new ≡ self.old ++ group_numbers list.now ∷ []) }
        ensures err { OnErr result (self.new ≡ self.old) }
    {
        self.ends.reserve(1)?;
        self.groups.extend_from_slice(list)?;
        self.ends.push_reserved(self.groups.len());
        Ok(())
    }

    /// The groups of the list at a place, from 0; none after the last one.
    pub fn at(&self, place: usize) -> &[GroupId]
        ensures { group_numbers result.now ≡ first_groups (drop place self.now) }
    {
        let ends = self.ends.as_slice();
        if place >= ends.len() {
            return &[];
        }
        &self.groups[start_of(ends, place)..ends[place]]
    }

    /// The place after one, or the same after the last one.
    pub(super) fn place_after(&self, place: usize) -> usize
        ensures { drop result self.now ≡ drop 1 (drop place self.now) }
    {
        if place < self.ends.len() {
            return place + 1;
        }
        place
    }
}

/// Where the list at a place starts.
fn start_of(ends: &[usize], place: usize) -> usize
    requires { place < length ends.now }
    ensures { result ≡ start_of 0 ends.now place }
{
    if place == 0 { 0 } else { ends[place - 1] }
}
