//! The laws at the models as they are built.
//!
//! The functions do nothing: each has what holds of its models as its contract.
ghost use Rattle.lp_model.specs.Row.{rules_of};
ghost use Rattle.lp_models.specs.Models.{hybrid, leave_kernel, all_at_once, immediate};
ghost use Rattle.lp_process.specs.Models.{process_group};
ghost use Rattle.lp_definitions.specs.Order.{IsAtLeastAsPermissive};
ghost use Rattle.lp_tests.specs.ModelLaws.{IsNeverLaterThan, KeepsAllLaws};

use lp_model::Consistency;
use lp_models::{AllAtOnce, Hybrid, Immediate, LeaveKernel};
use lp_process::ProcessGroup;
use lp_transition::laws;

/// Every law, at any lawful model.
fn keeps_all_laws<M: Consistency>()
    ensures { KeepsAllLaws M.rules }
{
    laws::one_first_check::<M>();
    laws::the_past_stays::<M>();
    laws::no_earlier_switch::<M>();
    laws::no_earlier_completion::<M>();
    laws::no_wait_without_a_reason::<M>();
    laws::chains_are_sound::<M>();
    laws::legs_open_soundly::<M>();
    laws::one_version::<M>();
    laws::no_stay_is_mixed::<M>();
    laws::the_machine_steps_as_defined::<M>();
    laws::a_leg_may_be_cut::<M>();
    laws::states_tell::<M>();
}

fn hybrid_keeps_all_laws()
    ensures { KeepsAllLaws (rules_of hybrid) }
{
    keeps_all_laws::<Hybrid>();
}

fn leave_kernel_keeps_all_laws()
    ensures { KeepsAllLaws (rules_of leave_kernel) }
{
    keeps_all_laws::<LeaveKernel>();
}

fn all_at_once_keeps_all_laws()
    ensures { KeepsAllLaws (rules_of all_at_once) }
{
    keeps_all_laws::<AllAtOnce>();
}

fn immediate_keeps_all_laws()
    ensures { KeepsAllLaws (rules_of immediate) }
{
    keeps_all_laws::<Immediate>();
}

fn process_group_keeps_all_laws()
    ensures { KeepsAllLaws (rules_of process_group) }
{
    keeps_all_laws::<ProcessGroup>();
}

/// `hybrid` never completes a leg later than `leave-kernel`.
fn hybrid_is_never_later_than_leave_kernel()
    ensures permissive { IsAtLeastAsPermissive (rules_of hybrid) (rules_of leave_kernel) }
    ensures never_later { IsNeverLaterThan (rules_of hybrid) (rules_of leave_kernel) }
{
    laws::permissive_models_never_lose::<Hybrid, LeaveKernel>();
}

/// `immediate` never completes a leg later than `hybrid`.
fn immediate_is_never_later_than_hybrid()
    ensures permissive { IsAtLeastAsPermissive (rules_of immediate) (rules_of hybrid) }
    ensures never_later { IsNeverLaterThan (rules_of immediate) (rules_of hybrid) }
{
    laws::permissive_models_never_lose::<Immediate, Hybrid>();
}

/// `immediate` never completes a leg later than `leave-kernel`.
fn immediate_is_never_later_than_leave_kernel()
    ensures permissive { IsAtLeastAsPermissive (rules_of immediate) (rules_of leave_kernel) }
    ensures never_later { IsNeverLaterThan (rules_of immediate) (rules_of leave_kernel) }
{
    laws::permissive_models_never_lose::<Immediate, LeaveKernel>();
}

#[test]
fn laws_hold_at_each_model(_rt: HostRuntime) {
    hybrid_keeps_all_laws();
    leave_kernel_keeps_all_laws();
    all_at_once_keeps_all_laws();
    immediate_keeps_all_laws();
    process_group_keeps_all_laws();
    hybrid_is_never_later_than_leave_kernel();
    immediate_is_never_later_than_hybrid();
    immediate_is_never_later_than_leave_kernel();
}
