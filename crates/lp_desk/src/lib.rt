//! The desk: one lock round a log and its board, to which threads send events from seats and from the control.
//!
//! Costs: a call is the log's, a lock and a publication. A walk takes the lock twice, and is judged between while
//! other threads go on sending; of a model that doesn't use walks it takes no copies.
#![tactic(auto)]

mod book;
mod closing;
mod desk;
mod held;
mod launch;

pub use book::{Book, Commanded, OpenedBook, Submitted};
pub use closing::{Closed, Unclosed};
pub use desk::Desk;
pub use launch::Launched;
pub use lp_board::{AllTold, Blank, BoardReader, DeskName, LaunchFault, Told};
pub use lp_log::{CloseCause, Control, Journal, Log, Seat, Turned};
pub use lp_model::{CheckKind, Consistency, Verdict};
pub use lp_scan::{Judged, OpenGate, ScanGate};
pub use lp_transition::{Event, Halt, Reply};
