//! What a run came to.

use crate::replies::ReplyList;
use lp_cert::LegList;
use std::marker::Model;

/// What the run of a trace under a model came to.
///
/// Contracts see the record that the definitions have of it.
#[derive(Drop)]
pub struct Outcome {
    /// The reply to each event.
    pub replies: ReplyList,
    /// The legs in the order in which they opened.
    pub legs: LegList,
    /// How many stays there were in functions of a patch, of all tasks and of each patch by itself;
    /// unfinished ones count.
    pub stays: u64,
    /// In how many of them both sides of the patch ran.
    pub mixed: u64,
}

impl Model for Outcome {
    ghost use Rattle.lp_definitions.specs.Outcome.{Outcome as OutcomeOfRun};

    ghost Value = { OutcomeOfRun };

    ghost view = { λ o. record { replies = o.replies; legs = o.legs; stays = o.stays; mixed = o.mixed } };
}
