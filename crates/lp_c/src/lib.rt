//! The engine, for C.
//!
//! C keeps a slot, a struct with one pointer that is null at first, and each call takes the slot.
//! `include/livepatch.h` says the same for C.
#![tactic(auto)]

mod codes;
mod count;
mod detached;
mod exports;
mod patches;
mod session;
mod slot;

pub use codes::{BlameCode, BootTask, CertCode, EngineState, EventCode, LineCode, TaskState, Told};
pub use exports::{
    lp_blame, lp_certificate, lp_create, lp_free, lp_group, lp_line, lp_state, lp_step, lp_task,
};
pub use session::Session;
pub use slot::Slot;
