//! The laws of a transition, of certificates and of a whole run, for every lawful model. They are
//! said of the definitions alone, with no engine.
//!
//! The functions do nothing: each has a law as its contract, so a call of one at a model gives
//! the law there.
#![tactic(auto)]

ghost use Rattle.lp_definitions.specs.Headline.{HeadlineHolds};
ghost use Rattle.lp_laws.specs.CertLaws.{AcceptsWhatIsMade, TrustsCertificates};
ghost use Rattle.lp_laws.specs.Laws.{KeepsThePast, HasOneFirstCheck, SwitchesNoneLater, CompletesNoneLater, NeverLoses, WaitsForAReason, OpensSoundly, KeepsOneVersion, MixesNoStay, TrustsChains};

use lp_model::Consistency;

/// A leg has exactly one first-check schedule.
pub fn one_first_check<M: Consistency>()
    ensures { HasOneFirstCheck M.rules }
{}

/// No legal schedule switches a group earlier than the first-check schedule does.
pub fn no_earlier_switch<M: Consistency>()
    ensures { SwitchesNoneLater M.rules }
{}

/// No legal schedule completes a leg earlier than the first-check schedule does.
pub fn no_earlier_completion<M: Consistency>()
    ensures { CompletesNoneLater M.rules }
{}

/// A model that is at least as permissive as another never completes a leg later.
pub fn permissive_models_never_lose<A: Consistency, B: Consistency>()
    ensures { NeverLoses A.rules B.rules }
{}

/// Who waits was refused at each check so far, back to a group that waited at the opening.
pub fn no_wait_without_a_reason<M: Consistency>()
    ensures { WaitsForAReason M.rules }
{}

/// Where a chain of refusals and births leads to a group, the group waits under every legal
/// schedule, whoever found the chain.
pub fn chains_are_sound<M: Consistency>()
    ensures { TrustsChains M.rules }
{}

/// Each leg of a run begins with a sound opening.
pub fn legs_open_soundly<M: Consistency>()
    ensures { OpensSoundly M.rules }
{}

/// Under a whole-call model no stack mixes versions.
pub fn one_version<M: Consistency>()
    ensures { KeepsOneVersion M.rules }
{}

/// Under a whole-call model no stay of a task in a patch's functions runs both sides of the patch,
/// and the count of such stays is 0.
pub fn no_stay_is_mixed<M: Consistency>()
    ensures { MixesNoStay M.rules }
{}

/// A further event changes nothing of what the first-check schedule says so far.
pub fn the_past_stays<M: Consistency>()
    ensures { KeepsThePast M.rules }
{}

/// Where a certificate has no fault its group waits under every legal schedule of the leg, and no
/// legal schedule has completed the leg by then, whoever made it.
pub fn accepted_certificates_hold<M: Consistency>()
    ensures { TrustsCertificates M.rules }
{}

/// Each certificate that is made has no fault: for each group that waits after some events of a
/// leg that opens soundly, and so at the end of each leg of a run of up to 1,000,000 events.
pub fn made_certificates_are_accepted<M: Consistency>()
    ensures { AcceptsWhatIsMade M.rules }
{}

/// The headline, of every run: in each leg every group switched at its first check that the model
/// allows; no legal schedule switches any group, or completes the leg, earlier; each waiting group
/// has a certificate that the checker accepts; and under a whole-call model each stay runs one
/// version.
pub fn headline_holds<M: Consistency>()
    ensures { HeadlineHolds M.rules }
{}
