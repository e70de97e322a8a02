//! A comparison as JSON.
ghost use Rattle.std.specs.Prelude.{◌≡◌, ◌++◌, map, string_bytes, IfOk};
ghost use Rattle.serde_json.specs.View.{view};
ghost use Rattle.lp_compare.specs.Text.{data_of, event_data, json, row_data};

use crate::comparison::{Comparison, Row};
use serde_json::{Value, json};
use std::alloc::{AllocError, Global};

impl Comparison {
    /// The JSON text, compact, with a line end after it. AllocError where an allocation failed.
    pub fn json(&self, alloc: Global) -> Result<String, AllocError>
        ensures { IfOk result (λ written. string_bytes written ≡ json self.now) }
    {
        let value = value_of(alloc, self)?;
        let mut text = value.to_string(alloc)?;
        text.push_str("\n")?;
        Ok(text)
    }
}

/// The value of a comparison.
fn value_of(alloc: Global, found: &Comparison) -> Result<Value, AllocError>
    ensures { IfOk result (λ value. view value ≡ data_of found.now) }
{
    let models = row_values(alloc, found.rows.as_slice())?;
    let leg = event_value(found.leg);
    json!(in alloc; {"leg": leg, "models": Value::Array(models), "version": 1u64})
}

/// The values of rows.
fn row_values(alloc: Global, rows: &[Row]) -> Result<Vec<Value>, AllocError>
    ensures { IfOk result (λ values. map view values.items ≡ map row_data rows.now) }
{
    let mut values = Vec::new(alloc);
    for row in rows {
        values.push(row_value(alloc, row)?)?;
    }
    Ok(values)
}

/// The value of a row.
fn row_value(alloc: Global, row: &Row) -> Result<Value, AllocError>
    ensures { IfOk result (λ value. view value ≡ row_data row.now) }
{
    let complete = event_value(row.complete);
    let name = row.model.name();
    json!(in alloc; {"births": row.births, "complete": complete, "model": name, "waiting": row.waiting})
}

/// The value of an event's number; null where there is none.
fn event_value(event: Option<u64>) -> Value
    ensures { view result ≡ event_data event }
{
    match event {
        Some(event) => Value::from(event),
        None => Value::Null,
    }
}
