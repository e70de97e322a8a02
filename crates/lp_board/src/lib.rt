//! A board on which a desk publishes, an event at a time, where its tasks stand, and which readers read without waiting.
//!
//! Costs: a publication costs what the event changed, and a look at each reader's place; a snapshot costs the live
//! tasks. The two copies take 65,536 levels each.
#![tactic(auto)]

mod blank;
mod history;
mod launch;
mod levels;
mod name;
mod publisher;
mod reader;
mod sheet;
mod shown;
mod update;

pub use blank::{Blank, Parts};
pub use history::Prefix;
pub use launch::{LaunchFault, MOST_CREW};
pub use lp_model::Consistency;
pub use lp_patch::PatchStack;
pub use lp_stack::{Class, Level, TaskId};
pub use lp_transition::{BootFault, Core, Event, Step};
pub use name::DeskName;
pub use publisher::{AllTold, Publisher};
pub use reader::{BoardFault, BoardReader, Told};
pub use sheet::{Heading, Update};
pub use shown::Shown;
