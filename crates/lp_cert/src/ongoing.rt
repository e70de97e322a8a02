//! The newest reason of a group, while it continues.

use lp_stack::TaskId;

/// A check that refused the group.
#[derive(Clone, Copy)]
pub(crate) struct Checked {
    /// The event of the check.
    pub(crate) at: u32,
    /// How many scans of the leg came before it: one more is a later check.
    pub(crate) scans: usize,
}

/// What continues with each scan at which the group waits.
#[derive(Clone, Copy)]
pub(crate) enum Ongoing {
    /// The group wasn't checked since its birth, or since the leg opened.
    Nothing,
    /// A frame of the member holds it, from a check on.
    Hold {
        /// The member.
        task: TaskId,
        /// The serial of its frame.
        serial: u64,
        /// The event of the check.
        from: u32,
        /// The last check that this is told of but for scans.
        last: Checked,
    },
    /// The member is busy at each scan from a place on among those of the leg. There may be none yet:
    /// then it was busy at its own check.
    Busy {
        /// The member.
        task: TaskId,
        /// The place of the first of these scans.
        first: usize,
    },
}
