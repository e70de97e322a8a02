//! A called function.

use crate::Level;
use lp_symbols::SymId;

/// A function that was called and has not returned.
#[derive(Clone, Copy, Debug, Default, PartialEq, Eq)]
pub struct Frame {
    /// The function.
    pub func: SymId,
    /// The level of the task at the call.
    pub level: Level,
    /// The number of the event that made the call.
    pub serial: u32,
}
