//! How the machine is tied to the definitions, for every lawful model.
//!
//! The functions do nothing: each has a law as its contract, so a call of one at a model gives
//! the law there.
#![tactic(auto)]

ghost use Rattle.lp_machine_laws.specs.Laws.{StatesAreSound, StepsAsDefined};

use lp_model::Consistency;

/// The machine that an engine is steps as every run does.
pub fn the_machine_steps_as_defined<M: Consistency>()
    ensures { StepsAsDefined M.rules }
{}

/// A state tells all that matters for what comes, so a leg may be cut anywhere.
pub fn a_leg_may_be_cut<M: Consistency>()
    ensures { StatesAreSound M.rules }
{}
