//! A trace under each model: when its first transition completes, who waits, and how far births
//! carry the wait.
//!
//! Costs: a replay under each model of the events up to the completion or the end of the first leg, one after the
//! other; neither replies nor stays are kept.
#![tactic(auto)]

mod compares;
mod comparison;
mod first_end;
mod json;
mod runs;
mod text;

pub use compares::compare;
pub use comparison::{Comparison, Row, RowList};
pub use lp_models::ModelName;
pub use lp_replay::RunFault;
pub use lp_text::{Counted, Trace};
pub use runs::compare_run;
