//! The laws of a transition, for every lawful model. All but the last are said of the definitions
//! and of the machine.
//!
//! The functions do nothing: each has a law as its contract, so a call of one at a model gives
//! the law there.
ghost use Rattle.lp_transition.specs.Laws.{StatesTell};

pub use lp_laws::{
    chains_are_sound, legs_open_soundly, no_earlier_completion, no_earlier_switch,
    no_stay_is_mixed, no_wait_without_a_reason, one_first_check, one_version,
    permissive_models_never_lose, the_past_stays,
};
pub use lp_machine_laws::{a_leg_may_be_cut, the_machine_steps_as_defined};
use lp_model::Consistency;

/// What an engine's readers tell, by words of the machine, is what the definitions say where it stands.
pub fn states_tell<M: Consistency>()
    ensures { StatesTell M.rules }
{}
