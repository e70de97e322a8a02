//! Runs and checks: the bytes of a trace in, a report or an answer out.
//!
//! Costs: `run` keeps the trace, the replies, the reasons of the certificates, and of the text the unfinished line. It
//! writes the report from a buffer of its own, each certificate while it goes through its reasons; some 110 KB are
//! kept for lines that the next certificate begins with too.
#![tactic(auto)]

mod checks;
mod held;
pub mod laws;
mod page;
mod part;
mod place;
mod report;
mod runs;

pub use checks::check;
pub use lp_model::Consistency;
pub use lp_replay::{
    LegList, Outcome, ReplayFault, ReplyList, RunFault, read_trace, replay, stack,
};
pub use lp_text::{
    Cause, CheckInput, Counted, OfFault, ReadFault, StreamFault, Trace, TraceFault, TraceForm,
    WriteFault, put,
};
pub use runs::run;
