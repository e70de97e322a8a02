//! The laws of texts and reports, and the headline. The functions do nothing: each has a law as
//! its contract.
ghost use Rattle.lp_trace.specs.Laws.{OneOutcomeAReport, ReportsTellRuns, RunsFitReports};

use lp_model::Consistency;
pub use lp_replay::laws::headline_holds;
pub use lp_text::laws::{
    inputs_are_read_as_spelled, one_input_a_text, one_trace_a_text, what_is_spelled_is_read,
    worked_inputs, worked_parts, worked_texts,
};

/// Equal reports are of the same form, model's name and outcome, where no number of the outcomes
/// is too long to be written whole, and the names have no line end.
pub fn one_outcome_a_report()
    ensures { OneOutcomeAReport }
{}

/// A report shows what the run of any trace comes to whole.
pub fn runs_fit_reports<M: Consistency>()
    ensures { RunsFitReports M.rules }
{}

/// The runs of two traces that have equal reports came to the same.
pub fn reports_tell_runs<A: Consistency, B: Consistency>()
    ensures { ReportsTellRuns A.rules B.rules }
{}
