//! The answer to an event.
ghost use Rattle.std.specs.Prelude.{◌≡◌, ◌↔◌, ◌<◌, ◌^◌, [], length, IsTrue, IfOk, Some};
ghost use Rattle.std.specs.Iterator.Runs.{EveryRun, ItemsMapTo};
ghost use Rattle.std.specs.Slice.Iter.{iter_rest, iter_steps};
ghost use Rattle.lp_stack.specs.declared.number.GroupId.{GroupId};
ghost use Rattle.lp_definitions.specs.Events.{group_numbers};
ghost use Rattle.lp_definitions.specs.Printed.{groups_text, reply_text, what_text};

use crate::Refusal;
use lp_stack::{GroupId, Level};
use std::alloc::{AllocError, Global};
use std::marker::Model;
use std::{fmt, slice};

/// A list of groups. Contracts see the list of their numbers.
///
/// The list is hidden by a pointer, so that replies stay small.
#[derive(Debug, Drop)]
pub struct GroupList {
    groups: Box<Vec<GroupId>>,
}

impl Model for GroupList {
    ghost use Rattle.std.specs.Prelude.{List, ℕ};
    ghost use Rattle.lp_definitions.specs.Events.{group_numbers};

    ghost Value = { List ℕ };

    ghost view = { λ l. group_numbers l.groups.value.items };
}

impl GroupList {
    /// The list of these groups; AllocError where an allocation failed.
    pub fn from_vec(alloc: Global, groups: Vec<GroupId>) -> Result<GroupList, AllocError>
        ensures { IfOk result (λ list. list ≡ group_numbers groups.items) }
    {
        let groups = Box::new(alloc, groups)?;
        Ok(GroupList { groups })
    }

    /// The groups, given back. Never allocates.
    pub fn into_vec(self) -> Vec<GroupId>
        ensures { group_numbers result.items ≡ self }
    {
        let Self { groups } = self;
        Box::into_inner(groups)
    }

    /// The groups, borrowed.
    pub fn as_slice(&self) -> &[GroupId]
        ensures { group_numbers result.now ≡ self.now }
    {
        self.groups.as_slice()
    }

    /// How many groups there are.
    pub fn len(&self) -> usize
        ensures { result ≡ length self.now }
    {
        self.groups.len()
    }

    /// Whether there is no group.
    pub fn is_empty(&self) -> bool
        ensures { IsTrue result ↔ (self.now ≡ []) }
    {
        self.groups.is_empty()
    }

    /// The same list once more; AllocError where an allocation failed.
    pub fn copy(&self, alloc: Global) -> Result<GroupList, AllocError>
        ensures { IfOk result (λ list. list ≡ self.now) }
    {
        let mut groups = Vec::with_capacity(alloc, self.len())?;
        groups.extend_from_slice(self.as_slice())?;
        GroupList::from_vec(alloc, groups)
    }
}

/// The groups, parted by a space.
impl fmt::Display for GroupList {
    ghost output = { λ groups. Some (groups_text groups) };

    fn fmt<W: fmt::Write>(&self, f: &mut fmt::Formatter<W>) -> fmt::Result {
        let Some((first, rest)) = self.as_slice().split_first() else {
            return Ok(());
        };
        write!(f, "{}", first.0)?;
        for group in rest {
            write!(f, " {}", group.0)?;
        }
        Ok(())
    }
}

impl<'a> IntoIterator for &'a GroupList {
    type Item = &'a GroupId;

    type IntoIter = slice::Iter<'a, GroupId>;

    ghost into_iter_gives = { λ l it. (group_numbers (iter_rest it) ≡ l.now) × (length (iter_rest it) < 2 ^ 64)
        × EveryRun (iter_steps {A = GroupId}) (λ p. ItemsMapTo p (λ x. x.now) (iter_rest p.from)) };

    fn into_iter(self) -> slice::Iter<'a, GroupId> {
        self.as_slice().iter()
    }
}

/// What an event did.
#[derive(Debug, Drop)]
pub enum What {
    /// The call runs the functions of this level, which is the task's.
    Ran(Level),
    /// The event was accepted, and no group switched.
    Done,
    /// These groups switched, in increasing order; there is at least one.
    Switched(GroupList),
    /// The event was refused and changed nothing.
    Refused(Refusal),
}

impl What {
    /// The same once more; AllocError where an allocation failed.
    pub fn copy(&self, alloc: Global) -> Result<What, AllocError>
        ensures { IfOk result (λ what. what ≡ self.now) }
    {
        match self {
            What::Ran(level) => Ok(What::Ran(*level)),
            What::Done => Ok(What::Done),
            What::Switched(groups) => Ok(What::Switched(groups.copy(alloc)?)),
            What::Refused(why) => Ok(What::Refused(*why)),
        }
    }
}

/// As the report of a stack of patches writes it.
impl fmt::Display for What {
    ghost output = { λ what. Some (what_text what) };

    fn fmt<W: fmt::Write>(&self, f: &mut fmt::Formatter<W>) -> fmt::Result {
        match self {
            What::Ran(level) => write!(f, "ran {}", level.0),
            What::Done => f.write_str("done"),
            What::Switched(groups) => write!(f, "over {groups}"),
            What::Refused(why) => write!(f, "refused {why}"),
        }
    }
}

/// The answer to an event.
#[derive(Debug, Drop)]
pub struct Reply {
    /// What the event did.
    pub what: What,
    /// Whether the transition under way is complete from this event on, and wasn't before.
    pub completed: bool,
}

impl Reply {
    /// The same reply once more; AllocError where an allocation failed.
    pub fn copy(&self, alloc: Global) -> Result<Reply, AllocError>
        ensures { IfOk result (λ reply. reply ≡ self.now) }
    {
        Ok(Reply {
            what: self.what.copy(alloc)?,
            completed: self.completed,
        })
    }
}

/// As the report of a stack of patches writes it, after the event's number.
impl fmt::Display for Reply {
    ghost output = { λ reply. Some (reply_text reply) };

    fn fmt<W: fmt::Write>(&self, f: &mut fmt::Formatter<W>) -> fmt::Result {
        let what = &self.what;
        write!(f, "{what}")?;
        if self.completed {
            f.write_str(" complete")?;
        }
        Ok(())
    }
}
