//! What a reply says, in short, as tests write it.

use lp_log::TurnedBy;
use lp_stack::GroupId;
use lp_transition::{Reply, What};

/// What a reply says.
#[derive(Clone, Copy, PartialEq, Eq)]
pub(super) enum Said {
    Ran(u8),
    Done,
    /// The transition is complete from here on, with no group switching.
    Complete,
    /// One group switches.
    Switched(u16),
    /// Several groups switch: the first of them, and how many.
    SwitchedAll(u16, usize),
    /// One group switches, and the transition is complete.
    SwitchedLast(u16),
    Refused(u8),
    /// The event is turned back.
    Turned(TurnedBy),
    /// Anything else.
    Other,
}

pub(super) fn in_short(reply: &Reply) -> Said {
    match &reply.what {
        What::Ran(level) => Said::Ran(level.0),
        What::Done if reply.completed => Said::Complete,
        What::Done => Said::Done,
        What::Switched(groups) => said_switched(groups.as_slice(), reply.completed),
        What::Refused(why) => Said::Refused(why.number()),
    }
}

fn said_switched(groups: &[GroupId], completed: bool) -> Said {
    match groups {
        [group] if completed => Said::SwitchedLast(group.0),
        [group] => Said::Switched(group.0),
        [first, ..] => Said::SwitchedAll(first.0, groups.len()),
        [] => Said::Other,
    }
}
