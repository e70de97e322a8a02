//! The procedure of Linux livepatch (kernel/livepatch/transition.c of Linux 6.1 and of 6.12), the laws that tie it to the model
//! `hybrid`, and the procedure run on an engine. A law is the contract of a function that does nothing.
#![tactic(auto)]

mod follow;

ghost use Rattle.lp_linux.specs.Followed.{StartsSettled};
ghost use Rattle.lp_linux.specs.Laws.{DecidesAsHybrid};
ghost use Rattle.lp_linux.specs.Rows.{LinuxComputes};
ghost use Rattle.lp_linux.specs.Transition.{Release};

pub use follow::{TargetState, heard, next_target, step};

/// Linux decides as `hybrid`, 6.1 and 6.12: after each list of events that the release has its tasks stand as the definitions
/// say, each event switches the same tasks, and the kernel completes a transition at the first walk after the leg is complete.
pub fn linux_decides_as_hybrid()
    ensures { (release : Release) → DecidesAsHybrid release }
{}

/// Short runs of the kernel's procedure whose states are known, computed from the definition.
pub fn linux_computes()
    ensures { LinuxComputes }
{}

/// Before the first event no transition is under way.
pub fn linux_starts_settled()
    ensures { StartsSettled }
{}
