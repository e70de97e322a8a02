//! A desk whose seats and control own their parts of the journal.
#![tactic(auto)]

mod blank;
mod book;
mod closing;
mod desk;
mod held;
mod launch;
mod opening;
mod seat;
mod turned;

pub use blank::OwnedBlank;
pub use book::{OwnedBook, OwnedCommanded, OwnedSubmitted};
pub use closing::SeatMissing;
pub use desk::OwnedDesk;
pub use launch::OwnedLaunched;
pub use lp_board::{AllTold, BoardReader, DeskName, LaunchFault, Told};
pub use lp_desk::Closed;
pub use lp_log::{Entry, Journal, TurnedBy};
pub use lp_model::Consistency;
pub use lp_parts::Place;
pub use lp_scan::{OpenGate, ScanGate};
pub use opening::OwnedOpened;
pub use seat::{ByOwner, OwnedControl, OwnedSeat};
pub use turned::TurnedBack;
