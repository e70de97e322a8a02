//! The journal of an engine that several threads feed, the seats by which they do so, and the audit of what they sent.
//!
//! Costs: an event is a step of the engine, and a copy of its reply for the journal and one for the seat; an entry
//! takes 32 bytes, and the list of a `Switched` its own. All allocation comes before the first change. The audit goes
//! over journal and seats twice, and takes 1 MB for a table of all task numbers.
#![tactic(auto)]

mod audit;
mod cursor;
mod entry;
mod journal;
mod log;
mod same;
mod seat;
mod sender;
mod turned_by;

pub use audit::CloseCause;
pub use entry::Entry;
pub use journal::Journal;
pub use log::{Commanding, Log, Opened, Ready, Sending};
pub use lp_model::{CheckKind, Consistency, Verdict};
pub use lp_patch::PatchStack;
pub use lp_scan::{Batch, Judged, OpenGate, ScanGate};
pub use lp_stack::{Class, TaskId};
pub use lp_transition::{BootFault, Core, Event, Halt, Reply, Step};
pub use seat::{Control, ControlAnswer, Seat, SeatAnswer, Turned, TurnedBy};
pub use sender::owner;
