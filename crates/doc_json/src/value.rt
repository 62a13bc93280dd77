//! JSON values, and the shapes that bodies ask of them.
ghost use Rattle.std.specs.Prelude.{◌≡◌, map, reverse, count_by, is_some, option_map, IfOk};
ghost use Rattle.serde_json.specs.Find.{get};
ghost use Rattle.serde_json.specs.View.{view};
ghost use Rattle.doc_json.specs.Json.{data_of, is_form, is_white, only_member, skip_white, trimmed};

use es_types::NoMemory;
use serde_json::Value;
use std::alloc::Global;

/// The bytes without JSON white space at the ends.
pub(crate) fn trimmed(bytes: &[u8]) -> &[u8]
    ensures { result.now ≡ trimmed bytes.now }
{
    skip_back(skip_front(bytes))
}

fn white(b: u8) -> bool
    ensures { result ≡ is_white b }
{
    b == b' ' || b == b'\t' || b == b'\n' || b == b'\r'
}

fn skip_front(bytes: &[u8]) -> &[u8]
    ensures { result.now ≡ skip_white bytes.now }
{
    let mut rest = bytes;
    'front: while let [first, after @ ..] = rest {
        if !white(*first) {
            break;
        }
        rest = after;
    }
    rest
}

fn skip_back(bytes: &[u8]) -> &[u8]
    ensures { result.now ≡ reverse (skip_white (reverse bytes.now)) }
{
    let mut rest = bytes;
    'back: while let [before @ .., last] = rest {
        if !white(*last) {
            break;
        }
        rest = before;
    }
    rest
}

/// What the bytes are, where they are JSON.
#[tactic(auto, unfolding(crate::specs::Json::data_of))]
pub fn read_data(alloc: Global, bytes: &[u8]) -> Result<Option<Value>, NoMemory>
    ensures { IfOk result (λ read. option_map view read ≡ data_of bytes.now) }
{
    match Value::from_slice(alloc, bytes) {
        Ok(value) => Ok(Some(value)),
        Err(e) => {
            if e.is_memory() {
                Err(NoMemory)
            } else {
                Ok(None)
            }
        }
    }
}

/// Whether a value is an object that has no members but those of these names, which differ.
pub fn is_form(value: &Value, names: &[&str]) -> bool
    ensures { result ≡ is_form (map (λ name. name.now) names.now) (view value.now) }
{
    match value.as_object() {
        Some(members) => members.len() == count_given(value, names),
        None => false,
    }
}

fn count_given(value: &Value, names: &[&str]) -> usize
    ensures { result ≡ count_by (λ name. is_some (get name.now (view value.now))) names.now }
{
    names
        .iter()
        .filter(|name| value.get(**name).is_some())
        .count()
}

/// The value of the only member of an object, where that has this name.
pub(crate) fn only_member<'v>(value: &'v Value, name: &str) -> Option<&'v Value>
    ensures { option_map (λ v. view v.now) result ≡ only_member name.now (view value.now) }
{
    if is_form(value, &[name]) {
        value.get(name)
    } else {
        None
    }
}
