//! The reasons why a group still waits, as they are kept.
ghost use Rattle.std.specs.Prelude.{◌≡◌};
ghost use Rattle.lp_cert.specs.inside.Chains.{reason_count};

use lp_definitions::Line;
use lp_stack::{GroupId, TaskId};

/// What keeps a group back: one line, or one line for each of several scans.
#[derive(Clone, Copy)]
pub(crate) enum Reason {
    /// One line.
    One(Line),
    /// The member is busy at the scans of a leg from a place on and before another.
    Busy {
        /// The group that waits.
        group: GroupId,
        /// The member that is on a CPU.
        task: TaskId,
        /// The place of the first such scan among those of the leg.
        first: usize,
        /// The place after the last one.
        end: usize,
    },
}

impl Reason {
    /// How many lines it has.
    #[inline(always)]
    pub(crate) fn lines(self) -> usize
        ensures { result ≡ reason_count self }
    {
        match self {
            Reason::One(_) => 1,
            Reason::Busy { first, end, .. } => end.saturating_sub(first),
        }
    }
}
