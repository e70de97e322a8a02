//! The replies of a list, one after the other, as they are kept.
ghost use Rattle.std.specs.Prelude.{◌≡◌, drop};
ghost use Rattle.lp_replay.specs.Replies.{replies_of};

use super::{GroupLists, PackedReply, ReplyList, ShortReply, ShortWhat};
use lp_stack::GroupId;
use std::fmt;

/// A reply as a list keeps it.
#[derive(Clone, Copy, Debug)]
pub struct KeptReply<'a> {
    /// The reply without its groups.
    pub short: ShortReply,
    /// The groups that switched, as the reply had them; of no use where none did.
    pub groups: &'a [GroupId],
}

/// As the report of a stack of patches writes it, after the event's number.
impl fmt::Display for KeptReply<'_> {
    fn fmt<W: fmt::Write>(&self, f: &mut fmt::Formatter<W>) -> fmt::Result {
        fmt_what(self, f)?;
        if self.short.completed {
            f.write_str(" complete")?;
        }
        Ok(())
    }
}

fn fmt_what<W: fmt::Write>(reply: &KeptReply<'_>, f: &mut fmt::Formatter<W>) -> fmt::Result {
    match reply.short.what {
        ShortWhat::Ran(level) => write!(f, "ran {}", level.0),
        ShortWhat::Done => f.write_str("done"),
        ShortWhat::Refused(why) => write!(f, "refused {why}"),
        ShortWhat::Switched => fmt_over(reply.groups, f),
    }
}

fn fmt_over<W: fmt::Write>(groups: &[GroupId], f: &mut fmt::Formatter<W>) -> fmt::Result {
    f.write_str("over")?;
    for group in groups {
        write!(f, " {}", group.0)?;
    }
    Ok(())
}

/// The replies of a list that are left to be looked at.
#[derive(Clone, Copy)]
pub struct Replies<'a> {
    short: &'a [PackedReply],
    /// The groups of all that switched some.
    groups: &'a GroupLists,
    /// The place of the next list.
    next: usize,
}

impl<'a> Iterator for Replies<'a> {
    ghost use Rattle.std.specs.Prelude.{drop};
    ghost use Rattle.std.specs.Iterator.{YieldsFirstBy, item_count};
    ghost use Rattle.lp_replay.specs.Replies.{kept_reply, replies_of};

    type Item = KeptReply<'a>;

    ghost next_gives = { YieldsFirstBy kept_reply (λ s. replies_of s.short.now (drop s.next s.groups.now)) };

    ghost remaining = { item_count (λ s. replies_of s.short.now (drop s.next s.groups.now)) };

    fn next(&mut self) -> Option<KeptReply<'a>> {
        let (packed, others) = self.short.split_first()?;
        let short = packed.get();
        let groups = self.groups.at(self.next);
        self.short = others;
        if short.lists() == 1 {
            self.next = self.groups.place_after(self.next);
        }
        Some(KeptReply { short, groups })
    }
}

impl<'a> IntoIterator for &'a ReplyList {
    type Item = KeptReply<'a>;

    type IntoIter = Replies<'a>;

    ghost into_iter_gives = { λ l it. replies_of it.short.now (drop it.next it.groups.now) ≡ l.now };

    fn into_iter(self) -> Replies<'a> {
        let (short, groups) = self.parts();
        Replies {
            short,
            groups,
            next: 0,
        }
    }
}
