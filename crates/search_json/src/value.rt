//! Terms, ranges and their values.
ghost use Rattle.std.specs.Prelude.{◌≡◌, IfOk, option_map};
ghost use Rattle.serde_json.specs.View.{members_view, view};
ghost use Rattle.search_json.specs.Values.{edge_of, edges_in, only, only_of, range_of, small_of, term_of, value_of, wanted};

use crate::names::side_of;
use es_query::{Edge, Query};
use es_types::{Items, NoMemory, Text, Value as RowValue};
use serde_json::{Map, Value};
use std::alloc::Global;

fn only(members: &Map<String, Value>) -> Option<(&str, &Value)>
    ensures { option_map (λ pair. (pair.0.now, view pair.1.now)) result ≡ only (members_view members.now.entries) }
{
    if members.len() != 1 {
        return None;
    }
    let (name, value) = members.first_key_value()?;
    Some((name.as_str(), value))
}

/// The name and the value of the only member of an object.
pub(crate) fn only_of(value: &Value) -> Option<(&str, &Value)>
    ensures { option_map (λ pair. (pair.0.now, view pair.1.now)) result ≡ only_of (view value.now) }
{
    only(value.as_object()?)
}

/// A whole number of 0 to 2^31 - 1.
pub(crate) fn small_of(value: &Value) -> Option<u32>
    ensures { result ≡ small_of (view value.now) }
{
    match value.as_u64() {
        Some(n) if n < 1 << 31 => Some(n as u32),
        _ => None,
    }
}

/// A text or a whole number.
pub(crate) fn value_of(alloc: Global, value: &Value) -> Result<Option<RowValue>, NoMemory>
    ensures { IfOk result (λ found. found ≡ value_of (view value.now)) }
{
    match value {
        Value::Null => Ok(None),
        Value::Bool(_) => Ok(None),
        Value::Number(number) => Ok(number.as_i64().map(RowValue::Long)),
        Value::String(text) => Ok(Some(RowValue::Key(Text::of(String::from_str(alloc, text)?)))),
        Value::Array(_) => Ok(None),
        Value::Object(_) => Ok(None),
    }
}

// ---- terms

#[tactic(auto, unfolding(crate::specs::Values::wanted))]
fn wanted(alloc: Global, value: &Value) -> Result<Option<RowValue>, NoMemory>
    ensures { IfOk result (λ found. found ≡ wanted (view value.now)) }
{
    match value.as_object() {
        Some(members) => match only(members) {
            Some((name, value)) if name == "value" => value_of(alloc, value),
            _ => Ok(None),
        },
        None => value_of(alloc, value),
    }
}

/// The query of a term: a field with the value that it shall have.
#[tactic(auto, unfolding(crate::specs::Values::term_of))]
pub(crate) fn term_of(alloc: Global, value: &Value) -> Result<Option<Query>, NoMemory>
    ensures { IfOk result (λ query. query ≡ term_of (view value.now)) }
{
    let Some((field, value)) = only_of(value) else {
        return Ok(None);
    };
    let Some(value) = wanted(alloc, value)? else {
        return Ok(None);
    };
    let field = Text::of(String::from_str(alloc, field)?);
    Ok(Some(Query::Term { field, value }))
}

// ---- ranges

// No edge at a null.
#[tactic(auto, unfolding(crate::specs::Values::edge_of))]
fn edge_of(alloc: Global, name: &str, value: &Value) -> Result<Option<Option<Edge>>, NoMemory>
    ensures { IfOk result (λ edge. edge ≡ edge_of name.now (view value.now)) }
{
    let Some(side) = side_of(name) else {
        return Ok(None);
    };
    if value.is_null() {
        return Ok(Some(None));
    }
    match value_of(alloc, value)? {
        Some(value) => Ok(Some(Some(Edge { side, value }))),
        None => Ok(None),
    }
}

fn edges_in(alloc: Global, members: &Map<String, Value>) -> Result<Option<Vec<Edge>>, NoMemory>
    ensures { IfOk result (λ edges. option_map (λ all. all.items) edges ≡ edges_in (members_view members.now.entries)) }
{
    let mut edges = Vec::new(alloc);
    for (name, value) in members.iter() {
        match edge_of(alloc, name, value)? {
            Some(Some(edge)) => edges.push(edge)?,
            Some(None) => {}
            None => return Ok(None),
        }
    }
    Ok(Some(edges))
}

/// The query of a range: a field with the edges that its value shall keep to.
#[tactic(auto, unfolding(crate::specs::Values::range_of))]
pub(crate) fn range_of(alloc: Global, value: &Value) -> Result<Option<Query>, NoMemory>
    ensures { IfOk result (λ query. query ≡ range_of (view value.now)) }
{
    let Some((field, value)) = only_of(value) else {
        return Ok(None);
    };
    let Some(members) = value.as_object() else {
        return Ok(None);
    };
    let Some(edges) = edges_in(alloc, members)? else {
        return Ok(None);
    };
    let field = Text::of(String::from_str(alloc, field)?);
    let edges = Items::of(edges);
    Ok(Some(Query::Range { field, edges }))
}
