//! The laws of worked rows: what the definitions make of short runs under the models as they are built. The functions do
//! nothing: each has a law as its contract.
#![tactic(auto)]

ghost use Rattle.lp_model.specs.Row.{rules_of};
ghost use Rattle.lp_models.specs.Models.{all_at_once, hybrid, immediate, leave_kernel};
ghost use Rattle.lp_process.specs.Models.{process_group};
ghost use Rattle.lp_worked_laws.specs.CertRows.{CertificatesCompute};
ghost use Rattle.lp_worked_laws.specs.HeadlineRows.{HeadlineRefuses};
ghost use Rattle.lp_worked_laws.specs.Rows.{RowsCompute};
ghost use Rattle.lp_worked_laws.specs.FaultRows.{FaultsCompute};

/// Short runs whose replies and stays are known, computed from the definitions.
pub fn worked_rows()
    ensures { RowsCompute (rules_of hybrid) (rules_of leave_kernel) (rules_of all_at_once) (rules_of immediate) (rules_of process_group) }
{}

/// Short runs whose certificates are known, computed from the definitions.
pub fn worked_certificates()
    ensures { CertificatesCompute (rules_of hybrid) (rules_of leave_kernel) (rules_of all_at_once) (rules_of immediate) (rules_of process_group) }
{}

/// Certificates whose faults are known, computed from the definitions.
pub fn worked_faults()
    ensures { FaultsCompute (rules_of hybrid) (rules_of all_at_once) (rules_of process_group) }
{}

/// Short runs: the headline holds of the answer to each, and refuses what a wrong engine would
/// answer. In these a group switches at its second check that the model allows; a check looks at
/// the top frame alone; a child is on the target from birth; a leg is complete at checks alone; a
/// call runs the new version before its task has switched, or the old one afterwards; the end of a
/// leg names another target, or another event as its opening.
pub fn headline_refuses()
    ensures { HeadlineRefuses (rules_of hybrid) }
{}
