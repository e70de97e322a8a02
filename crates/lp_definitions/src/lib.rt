//! The definitions of a transition: what has to be believed. It has the types of events, replies,
//! refusals and certificates, and no engine.
#![tactic(auto)]

mod cert;
mod cert_fault;
mod event;
mod line;
mod refusal;
mod reply;

pub use cert::{Cert, Claim};
pub use cert_fault::CertFault;
pub use event::Event;
pub use line::{Line, LineList};
pub use refusal::Refusal;
pub use reply::{GroupList, Reply, What};

/// The most events that a run can have.
pub const MOST_EVENTS: u32 = 1_000_000;
