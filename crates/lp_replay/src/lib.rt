//! The replay of a trace under a model: the outcome, its legs, and the headline.
//!
//! Costs: for each event a step of the engine and a note for the certificates, which for all but scans, forks, switches
//! and control events is a number, and for each call and return a step of the count of stays. Each loop over the events
//! has an engine of a model of its own, so that it is the only caller of the engine's steps, and they are compiled into
//! it.
#![tactic(auto)]

pub mod laws;
mod outcome;
mod reading;
mod replays;
mod replies;
mod run_fault;

pub use lp_cert::{LegEndRef, LegEnds, LegList};
pub use lp_model::Consistency;
pub use lp_patch::PatchStack;
pub use lp_stack::{GroupId, Level};
pub use lp_text::{Counted, StreamFault, Trace, TraceFault, WriteFault};
pub use lp_transition::{Event, GroupList, Opening, Refusal, Reply};
pub use outcome::Outcome;
pub use reading::read_trace;
pub use replays::{ReplayFault, TraceLeg, first_leg_end, leg_numbered, replay, stack};
pub use replies::{GroupLists, KeptReply, PackedReply, Replies, ReplyList, ShortReply, ShortWhat};
pub use run_fault::RunFault;
