//! The patches, and which version of a function runs at a level.
//!
//! Costs: `has`, `version` and `stale` are constant, by a table of 17 versions for each symbol. `build` compares each
//! id with those before it, 256 at most. A patch takes a byte a symbol, the table 17.
#![tactic(auto)]

mod aim;
mod fault;
mod set;
mod stack;

pub use aim::Aim;
pub use fault::PatchFault;
pub use lp_stack::{Frame, Level};
pub use lp_symbols::{Numbering, SymId};
pub use set::{MOST_FUNCTIONS, PatchSet};
pub use stack::{MOST_PATCHES, PatchStack};
