//! Stays of tasks in a patch's functions, counted call by call and return by return.
//!
//! Costs: a call or a return looks at the patches that have the function, 16 at most, and never allocates. `new` takes
//! 3 bytes for each patch and task number, 192 KB a patch, and 2 bytes for each symbol.
#![tactic(auto)]

mod count;
mod holders;
pub mod laws;
mod present;

pub use count::StayCount;
pub use lp_patch::PatchStack;
pub use lp_stack::{Level, TaskId};
pub use lp_symbols::SymId;
