//! `lpt threads`: a trace, dealt out to threads that share one desk.
//!
//! Costs: a table of scripts by task number, 1.5 MB, and each event once in its script, once in the journal and once
//! at its seat.
#![tactic(auto)]

mod fault;
mod hands;
mod play;
mod playing;
mod report;
mod scripts;
mod trace_name;

pub use fault::ThreadsFault;
pub use lp_model::Consistency;
pub use lp_replay::{Counted, ReplayFault, RunFault, WriteFault};
pub use playing::threads;
