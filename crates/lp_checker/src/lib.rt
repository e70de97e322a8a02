//! The checker of certificates: whoever made one, its acceptance implies that no legal schedule
//! could have switched the group.
//!
//! Costs: a fold has 40 bytes for each number up to the greatest task's, and frames for each task that called. An
//! event is constant, a blame goes over the task's frames. A judgement makes four folds of the leg at most, two at
//! once for a moment, and one more for a line that is refused; it sorts the lines of each section, with 24 bytes for
//! each end of a line and 8 for each event.
#![tactic(auto)]

mod births;
mod cursor;
mod fold;
mod gaps;
mod groups;
mod judge;
pub mod laws;
mod lines;
mod marks;
mod sections;

pub use judge::{check_floor, check_waiting};
pub use lp_definitions::{Cert, CertFault, Event};
pub use lp_model::Consistency;
pub use lp_tasks::Opening;
