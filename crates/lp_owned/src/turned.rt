//! What comes back of an event that wasn't taken.
use lp_board::{DeskName, Told};
use lp_log::TurnedBy;

/// What was handed in, given back: nothing has happened.
#[derive(Drop)]
pub struct TurnedBack<P: Drop, N: DeskName> {
    /// The seat or the control.
    pub part: P,
    /// Why nothing has happened.
    pub cause: TurnedBy,
    /// All events that were published by then: where no event is left, 1,000,000.
    pub told: Told<N>,
}
