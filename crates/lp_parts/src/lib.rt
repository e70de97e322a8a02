//! Who owns which part of a list that grows: tokens that carry what they own out of a lock.
#![tactic(auto)]

mod keeper;
mod names;
mod rule;

pub use keeper::{Blank, Keeper, Part};
pub use names::{Keying, Place};
pub use rule::{Parted, View};
