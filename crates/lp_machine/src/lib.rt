//! The machine that an engine is: a state, and what an event makes of it. What ties it to the
//! definitions is in lp_machine_laws, which is proved beside lp_tasks.
#![tactic(auto)]

mod standing_blame;

pub use standing_blame::StandingBlame;
