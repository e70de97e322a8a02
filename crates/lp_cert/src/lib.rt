//! Certificates: why a group still waits.
//!
//! Costs: the memory is linear in the events. Lists of reasons share their older parts, so a child has its parent's
//! reasons for one entry of 56 bytes, and what continues is kept by its beginning alone. Lines come to be only where a
//! certificate is written out. A scan costs what its verdicts cost; a control event that opens a leg goes over the groups; any
//! other event is constant. A `Maker` has room for 65,536 groups, and 48 bytes for each number up to the greatest group
//! that had a reason. The end of a leg keeps a copy of the leg's reasons; ends without a line are rows of numbers.
//! `CertLines` never allocates: a search of a list of n reasons finds the sixteen oldest that are left in some log n
//! steps.
#![tactic(auto)]

mod cert_head;
mod cert_lines;
mod cert_list;
mod chains;
mod explained;
mod head;
pub mod laws;
mod leg_end;
mod leg_list;
mod leg_rows;
mod maker;
mod oldest_first;
mod ongoing;
mod open_leg;
mod opening;
mod reason;
mod reasons;
mod waiters;

pub use cert_head::CertHead;
pub use cert_lines::{BusyScans, CertLines};
pub use cert_list::{CertList, CertListRef};
pub use explained::ExplainedCore;
pub use leg_end::{LegEnd, LegEndRef};
pub use leg_list::{LegEnds, LegList};
pub use lp_definitions::{Cert, Claim, Line, LineList};
pub use lp_model::Consistency;
pub use lp_stack::{GroupId, Level, TaskId};
pub use lp_transition::{Core, Event, Halt, Step};
pub use maker::Maker;
pub use opening::opens_leg;
