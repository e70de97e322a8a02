//! The replies of a run.
ghost use Rattle.std.specs.Prelude.{◌≡◌, ◌≤◌, ◌↔◌, ◌∷◌, ◌++◌, [], length, IsTrue, IfOk, OnErr, OnOk};
ghost use Rattle.lp_definitions.specs.Events.{group_numbers};
ghost use Rattle.lp_replay.specs.Replies.{lists_in, replies_of, what_of};

use lp_stack::{GroupId, Level};
use lp_transition::{GroupList, Refusal, Reply, What};
use std::alloc::{AllocError, Global};
use std::marker::Model;

mod group_lists;
mod kept;
mod packed;

pub use group_lists::GroupLists;
pub use kept::{KeptReply, Replies};
pub use packed::PackedReply;

/// What an event did, without the groups that it switched.
#[derive(Clone, Copy, Debug, PartialEq, Eq)]
pub enum ShortWhat {
    Ran(Level),
    Done,
    Switched,
    Refused(Refusal),
}

/// A reply without its groups.
#[derive(Clone, Copy, Debug, PartialEq, Eq)]
pub struct ShortReply {
    pub what: ShortWhat,
    pub completed: bool,
}

impl ShortReply {
    /// How many lists of groups belong to it: one if the event switched groups.
    #[inline(always)]
    pub fn lists(&self) -> usize
        ensures value { result ≡ lists_in self.now.what }
        ensures few { result ≤ 1 }
    {
        match self.what {
            ShortWhat::Switched => 1,
            _ => 0,
        }
    }
}

/// A list of replies. Contracts see the list.
///
/// A run has up to a million replies, of which few switched a group. So a reply takes two bytes, and
/// the lists of groups stand apart from them, for those that switched any.
pub struct ReplyList {
    short: Vec<PackedReply>,
    /// The groups of each event that switched some, in the order of the events.
    groups: GroupLists,
}

/// By hand, so that the proof of who owns one lets go of it in one step, not field by field.
impl Drop for ReplyList {
    fn drop(self) {
        let ReplyList {
            short: _,
            groups: _,
        } = self;
    }
}

impl Model for ReplyList {
    ghost use Rattle.std.specs.Prelude.{◌≡◌, List, length};
    ghost use Rattle.lp_definitions.specs.declared.reply.Reply.{Reply};
    ghost use Rattle.lp_replay.specs.Replies.{lists_of, replies_of};

    ghost Value = { List Reply };

    ghost view = { λ l. replies_of l.short.items l.groups };

    ghost invariant = { λ l. lists_of l.short.items ≡ length l.groups };
}

impl ReplyList {
    /// No reply, with room for so many; AllocError where an allocation failed.
    pub fn with_capacity(alloc: Global, replies: usize) -> Result<ReplyList, AllocError>
        ensures { IfOk result (λ list. list ≡ []) }
    {
        Ok(ReplyList {
            short: Vec::with_capacity(alloc, replies)?,
            groups: GroupLists::new(alloc),
        })
    }

    /// Adds a reply; AllocError where an allocation failed, and then the list is as it was.
    #[inline(always)]
    pub fn push(&mut self, reply: Reply) -> Result<(), AllocError>
        ensures ok { OnOk result (self.new ≡ self.old ++ reply ∷ []) }
        ensures err { OnErr result (self.new ≡ self.old) }
    {
        let Reply { what, completed } = reply;
        self.short.reserve(1)?;
        let what = match what {
            What::Ran(level) => ShortWhat::Ran(level),
            What::Done => ShortWhat::Done,
            What::Refused(why) => ShortWhat::Refused(why),
            What::Switched(groups) => {
                self.groups.push(groups.as_slice())?;
                ShortWhat::Switched
            }
        };
        let short = ShortReply { what, completed };
        self.short.push_reserved(PackedReply::of(short));
        Ok(())
    }

    /// The replies, each by itself; AllocError where an allocation failed.
    pub fn to_vec(&self, alloc: Global) -> Result<Vec<Reply>, AllocError>
        ensures { IfOk result (λ replies. replies.items ≡ self.now) }
    {
        let mut replies = Vec::with_capacity(alloc, self.short.len())?;
        let mut next = 0;
        for packed in self.short.as_slice() {
            let reply = packed.get();
            let what = what_of(alloc, reply.what, self.groups.at(next))?;
            replies.push(Reply {
                what,
                completed: reply.completed,
            })?;
            next += reply.lists();
        }
        Ok(replies)
    }

    /// How many replies there are.
    pub fn len(&self) -> usize
        ensures { result ≡ length self.now }
    {
        self.short.as_slice().len()
    }

    /// Whether there is no reply.
    pub fn is_empty(&self) -> bool
        ensures { IsTrue result ↔ (self.now ≡ []) }
    {
        self.len() == 0
    }

    /// The replies in short, and the groups of those events that switched some.
    pub fn parts(&self) -> (&[PackedReply], &GroupLists)
        ensures { replies_of result.0.now result.1.now ≡ self.now }
    {
        (self.short.as_slice(), &self.groups)
    }
}

/// What an event did that switched these groups, if it did so.
fn what_of(alloc: Global, what: ShortWhat, groups: &[GroupId]) -> Result<What, AllocError>
    ensures { IfOk result (λ found. found ≡ what_of what (group_numbers groups.now ∷ [])) }
{
    match what {
        ShortWhat::Ran(level) => Ok(What::Ran(level)),
        ShortWhat::Done => Ok(What::Done),
        ShortWhat::Refused(why) => Ok(What::Refused(why)),
        ShortWhat::Switched => {
            let groups = Vec::from_slice(alloc, groups)?;
            Ok(What::Switched(GroupList::from_vec(alloc, groups)?))
        }
    }
}
