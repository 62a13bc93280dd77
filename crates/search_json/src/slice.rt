//! The slice of a search.
ghost use Rattle.std.specs.Prelude.{◌≡◌, IfSome, IsFalse};
ghost use Rattle.serde_json.specs.View.{view};
ghost use Rattle.slice_rule.specs.Parts.{IsSlice};
ghost use Rattle.search_json.specs.Slices.{breaks_slice, number_in, slice_in, slice_of};

use crate::value::small_of;
use doc_json::is_form;
use serde_json::Value;
use slice_rule::Slice;

// The number that a member gives.
#[tactic(auto, unfolding(crate::specs::Slices::number_in))]
fn number_in(name: &str, value: &Value) -> Option<u32>
    ensures { result ≡ number_in name.now (view value.now) }
{
    small_of(value.get(name)?)
}

#[tactic(auto, unfolding(crate::specs::Slices::slice_in))]
fn slice_in(value: &Value) -> Option<Slice>
    ensures { result ≡ slice_in (view value.now) }
{
    if !is_form(value, &["id", "max"]) {
        return None;
    }
    let id = number_in("id", value)?;
    let max = number_in("max", value)?;
    Some(Slice { id, max })
}

/// The slice that a body names, before it is said whether there can be such a one.
#[tactic(auto, unfolding(crate::specs::Slices::slice_of))]
pub(crate) fn slice_of(value: &Value) -> Option<Option<Slice>>
    ensures { result ≡ slice_of (view value.now) }
{
    match value.get("slice") {
        Some(slice) => Some(Some(slice_in(slice)?)),
        None => Some(None),
    }
}

/// Whether there can be no such slice.
pub(crate) fn breaks_slice(slice: Option<Slice>) -> bool
    ensures is { result ≡ breaks_slice slice }
    ensures one { IsFalse result → IfSome slice IsSlice }
{
    match slice {
        Some(slice) => Slice::make(slice.id, slice.max).is_err(),
        None => false,
    }
}
