//! The values after which a page begins.
ghost use Rattle.std.specs.Prelude.{◌≡◌, IfOk, option_map};
ghost use Rattle.serde_json.specs.View.{items_view, view};
ghost use Rattle.search_json.specs.Sorts.{after_of, after_value, after_values};

use crate::value::value_of;
use es_sort::Keys;
use es_types::{Items, NoMemory, Value as RowValue};
use serde_json::Value;
use std::alloc::Global;

// A null is a missing value.
fn after_value(alloc: Global, value: &Value) -> Result<Option<RowValue>, NoMemory>
    ensures { IfOk result (λ found. found ≡ after_value (view value.now)) }
{
    if value.is_null() {
        return Ok(Some(RowValue::Missing));
    }
    value_of(alloc, value)
}

fn after_values(alloc: Global, values: &[Value]) -> Result<Option<Vec<RowValue>>, NoMemory>
    ensures { IfOk result (λ found. option_map (λ all. all.items) found ≡ after_values (items_view values.now)) }
{
    let mut all = Vec::with_capacity(alloc, values.len())?;
    for value in values {
        match after_value(alloc, value)? {
            Some(value) => all.push(value)?,
            None => return Ok(None),
        }
    }
    Ok(Some(all))
}

/// The values that a search goes on after, where it is given some.
#[tactic(auto, unfolding(crate::specs::Sorts::after_of))]
pub(crate) fn after_of(alloc: Global, value: &Value) -> Result<Option<Option<Keys>>, NoMemory>
    ensures { IfOk result (λ after. after ≡ after_of (view value.now)) }
{
    let Some(after) = value.get("search_after") else {
        return Ok(Some(None));
    };
    let Some(values) = after.as_array() else {
        return Ok(None);
    };
    let Some(values) = after_values(alloc, values)? else {
        return Ok(None);
    };
    let values = Items::of(values);
    Ok(Some(Some(Keys { values })))
}
