//! The comparison of a trace.
ghost use Rattle.std.specs.Prelude.{◌≡◌, IfOk, map};
ghost use Rattle.std.specs.Option.{option_map};
ghost use Rattle.lp_models.specs.Models.{rules_named};
ghost use Rattle.lp_compare.specs.Comparison.{comparison, first_enable, first_end, opening, row_of};
ghost use Rattle.lp_compare.specs.Permissive.{CompletesNoLater};
ghost use Rattle.lp_compare.specs.inside.FirstEnds.{kept_end, row_with};
ghost use Rattle.lp_text.specs.Traces.{IsTrace};

use crate::comparison::{Comparison, Row, RowList};
use crate::first_end::{FirstEnd, first_end};
use lp_models::{ModelName, with_model};
use lp_text::Trace;
use std::alloc::{AllocError, Global};

/// What the first transition of a trace comes to under each model: the numbers of its first leg,
/// from the control event that opens it to the next that is accepted. AllocError where an allocation
/// failed.
pub fn compare(alloc: Global, trace: &Trace) -> Result<Comparison, AllocError>
    ensures comparison { IfOk result (λ found. found ≡ comparison trace.now) }
    // The leg is that of the trace's first `enable`.
    ensures leg { IfOk result (λ found. found.leg ≡ first_enable trace.now) }
    // Under each model the trace's first leg is this one.
    ensures same { IfOk result (λ found. (model : ModelName) → opening (rules_named model) trace.now ≡ found.leg) }
    // A model that admits whomever another admits never completes the leg later.
    ensures hybrid { IfOk result (CompletesNoLater ModelName.Hybrid ModelName.LeaveKernel) }
    ensures immediate { IfOk result (CompletesNoLater ModelName.Immediate ModelName.Hybrid) }
{
    compared(alloc, trace)
}

/// The rows, model by model.
fn compared(alloc: Global, trace: &Trace) -> Result<Comparison, AllocError>
    ensures comparison { IfOk result (λ found. found ≡ comparison trace.now) }
    ensures limits { IsTrace trace.now }
{
    // Asked for its limits alone: they bound what is counted.
    let _ = trace.events();
    let hybrid = end_under(alloc, ModelName::Hybrid, trace)?;
    let rows = rows_under(alloc, &ModelName::all(), trace, hybrid)?;
    Ok(Comparison {
        leg: opened(hybrid),
        rows: RowList::from_vec(rows),
    })
}

/// The rows of these models, of which `hybrid` has this end.
fn rows_under(
    alloc: Global,
    models: &[ModelName],
    trace: &Trace,
    hybrid: Option<FirstEnd>,
) -> Result<Vec<Row>, AllocError>
    requires limits { IsTrace trace.now }
    requires hybrid { hybrid ≡ option_map kept_end (first_end (rules_named ModelName.Hybrid) trace.now) }
    ensures { IfOk result (λ rows. rows.items ≡ map (λ model. row_of model (first_end (rules_named model) trace.now)) models.now) }
{
    let mut rows = Vec::new(alloc);
    for model in models {
        rows.push(row_under(alloc, *model, trace, hybrid)?)?;
    }
    Ok(rows)
}

/// The row of a model. The trace isn't run once more under `hybrid`, which has this end.
fn row_under(
    alloc: Global,
    model: ModelName,
    trace: &Trace,
    hybrid: Option<FirstEnd>,
) -> Result<Row, AllocError>
    requires limits { IsTrace trace.now }
    requires hybrid { hybrid ≡ option_map kept_end (first_end (rules_named ModelName.Hybrid) trace.now) }
    ensures { IfOk result (λ row. row ≡ row_of model (first_end (rules_named model) trace.now)) }
{
    match model {
        ModelName::Hybrid => Ok(row(model, hybrid)),
        _ => Ok(row(model, end_under(alloc, model, trace)?)),
    }
}

/// How the first leg of a trace ended under the model of a name; None where no event opened one.
fn end_under(alloc: Global, model: ModelName, trace: &Trace) -> Result<Option<FirstEnd>, AllocError>
    requires { IsTrace trace.now }
    ensures { IfOk result (λ found. found ≡ option_map kept_end (first_end (rules_named model) trace.now)) }
{
    with_model!(model, model => first_end(alloc, model, trace))
}

/// The row of a model under which the first leg ended so.
fn row(model: ModelName, end: Option<FirstEnd>) -> Row
    ensures { result ≡ row_with model end }
{
    match end {
        Some(end) => Row {
            model,
            complete: end.complete,
            waiting: end.waiting,
            births: end.births,
        },
        None => Row {
            model,
            complete: None,
            waiting: 0,
            births: 0,
        },
    }
}

/// The number of the event that opened the leg.
fn opened(end: Option<FirstEnd>) -> Option<u64>
    ensures { result ≡ option_map (λ end. end.opened) end }
{
    match end {
        Some(end) => Some(end.opened),
        None => None,
    }
}
