//! The livepatch transition engine under one name: all that a program over the engine needs.
//!
//! `Simulator` is one engine with why its groups wait; the crates below it are here by their names, and `models` has each
//! model that `ModelName` names.
//!
//! Costs: `step` is the engine's and the maker's. The first event of each leg copies the tasks, and every event takes
//! its place in the journal.
#![tactic(auto)]

mod any;
mod named;
mod simulator;

pub use any::AnySimulator;
pub use lp_cert::{
    Cert, CertLines, Claim, ExplainedCore, LegEnd, LegEndRef, LegEnds, LegList, Line, LineList,
    Maker,
};
pub use lp_checker::{CertFault, check_floor, check_waiting};
pub use lp_model::{Blame, CheckKind, Consistency, ForkKind, Verdict};
pub use lp_models as models;
pub use lp_models::{AllAtOnce, Hybrid, Immediate, LeaveKernel, ModelName};
pub use lp_patch::{Aim, PatchFault, PatchSet, PatchStack};
pub use lp_process::ProcessGroup;
pub use lp_stack::{Class, Frame, GroupId, Level, Mode, TaskId, View};
pub use lp_symbols::{Numbering, SymFault, SymId, Symbols};
pub use lp_transition::{
    BootFault, Core, Event, GroupList, Halt, MOST_EVENTS, Opening, Refusal, Reply, StandingBlame,
    Step, What,
};
pub use simulator::Simulator;
