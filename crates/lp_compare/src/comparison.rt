//! What a trace comes to under each model.
ghost use Rattle.std.specs.Prelude.{◌≡◌};

use lp_models::ModelName;
use std::marker::Model;

/// What the first transition of a trace comes to under each model.
#[derive(Drop)]
pub struct Comparison {
    /// The number of the event that opened it; None where none opened one. It is the same under each
    /// model, since before it nothing is in transition.
    pub leg: Option<u64>,
    /// A row for each model, in the order of `ModelName::all`.
    pub rows: RowList,
}

/// What the transition comes to under one model. Where there is none the numbers are 0.
#[derive(Clone, Copy, Debug, PartialEq, Eq)]
pub struct Row {
    /// The model.
    pub model: ModelName,
    /// The number of the event of completion, if the leg completed.
    pub complete: Option<u64>,
    /// How many groups wait at the end of the leg: before the next control event that is accepted, else after the last event.
    pub waiting: u64,
    /// The greatest number of births in a certificate of the leg.
    pub births: u64,
}

/// A list of rows. Contracts see the list.
#[derive(Drop)]
pub struct RowList {
    rows: Vec<Row>,
}

impl Model for RowList {
    ghost use Rattle.std.specs.Prelude.{List};
    ghost use Rattle.lp_compare.specs.declared.comparison.Row.{Row};

    ghost Value = { List Row };

    ghost view = { λ l. l.rows.items };
}

impl RowList {
    /// The list of these rows. Never allocates.
    pub fn from_vec(rows: Vec<Row>) -> RowList
        ensures { result ≡ rows.items }
    {
        RowList { rows }
    }

    /// The rows, borrowed.
    pub fn as_slice(&self) -> &[Row]
        ensures { result.now ≡ self.now }
    {
        self.rows.as_slice()
    }
}
