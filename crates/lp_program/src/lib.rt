//! The program `lpt`: what its words ask for, what it does then, and how it ends.
#![tactic(auto)]

mod checks;
mod comparing;
mod fault;
mod playing;
mod process;
mod program;
mod runs;

pub use checks::{act_check, check};
pub use comparing::act_compare;
pub use fault::Fault;
pub use lp_models::ModelName;
pub use lp_threads::ThreadsFault;
pub use lp_trace::{Counted, RunFault, TraceFault};
pub use lp_words::{Job, WordsFault, job_of};
pub use playing::threads;
pub use process::start;
pub use program::{act, perform};
pub use runs::{act_run, run};
