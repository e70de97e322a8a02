//! The words of the program `lpt`, and what they ask for.
#![tactic(auto)]

mod words;

pub use lp_models::ModelName;
pub use words::{Job, WordsFault, job_of};
