//! The sort of a search.
ghost use Rattle.std.specs.Prelude.{◌≡◌, IfOk, map, option_map};
ghost use Rattle.std.specs.List.{list_any};
ghost use Rattle.serde_json.specs.View.{items_view, view};
ghost use Rattle.search_json.specs.Sorts.{breaks_sort, falls, is_barred, key_at, key_of, keys_in, named, sets_first, setting, settings_of, sort_by, sort_key, sort_of};

use crate::value::only_of;
use doc_json::is_form;
use es_sort::{SortBy, SortKey};
use es_types::{NoMemory, SORT_KEYS, Text};
use serde_json::Value;
use std::alloc::Global;

/// A key of a sort by its name, before it is said what the name means.
#[derive(Drop)]
pub(crate) struct NamedKey {
    pub name: Text,
    pub down: bool,
    pub missing_first: bool,
}

// ---- one key

fn named(alloc: Global, name: &str, down: bool, missing_first: bool) -> Result<NamedKey, NoMemory>
    ensures { IfOk result (λ key. key ≡ named name.now down missing_first) }
{
    Ok(NamedKey {
        name: Text::of(String::from_str(alloc, name)?),
        down,
        missing_first,
    })
}

fn falls(word: &str) -> Option<bool>
    ensures { result ≡ falls word.now }
{
    if word == "asc" {
        return Some(false);
    }
    if word == "desc" {
        return Some(true);
    }
    None
}

fn sets_first(word: &str) -> Option<bool>
    ensures { result ≡ sets_first word.now }
{
    if word == "_last" {
        return Some(false);
    }
    if word == "_first" {
        return Some(true);
    }
    None
}

// The setting of the order.
fn order_in(value: Option<&Value>) -> Option<bool>
    ensures { result ≡ setting falls (option_map (λ it. view it.now) value.entry) }
{
    match value {
        Some(value) => match value.as_str() {
            Some(word) => falls(word),
            None => None,
        },
        None => Some(false),
    }
}

// The setting of missing values.
fn missing_in(value: Option<&Value>) -> Option<bool>
    ensures { result ≡ setting sets_first (option_map (λ it. view it.now) value.entry) }
{
    match value {
        Some(value) => match value.as_str() {
            Some(word) => sets_first(word),
            None => None,
        },
        None => Some(false),
    }
}

#[tactic(auto, unfolding(crate::specs::Sorts::settings_of))]
fn settings_of(alloc: Global, name: &str, value: &Value) -> Result<Option<NamedKey>, NoMemory>
    ensures { IfOk result (λ key. key ≡ settings_of name.now (view value.now)) }
{
    if !is_form(value, &["order", "missing"]) {
        return Ok(None);
    }
    let Some(down) = order_in(value.get("order")) else {
        return Ok(None);
    };
    let Some(missing_first) = missing_in(value.get("missing")) else {
        return Ok(None);
    };
    Ok(Some(named(alloc, name, down, missing_first)?))
}

fn key_at(alloc: Global, name: &str, value: &Value) -> Result<Option<NamedKey>, NoMemory>
    ensures { IfOk result (λ key. key ≡ key_at (name.now, view value.now)) }
{
    let Some(word) = value.as_str() else {
        return settings_of(alloc, name, value);
    };
    let Some(down) = falls(word) else {
        return Ok(None);
    };
    Ok(Some(named(alloc, name, down, false)?))
}

#[tactic(auto, unfolding(crate::specs::Sorts::key_of))]
fn key_of(alloc: Global, value: &Value) -> Result<Option<NamedKey>, NoMemory>
    ensures { IfOk result (λ key. key ≡ key_of (view value.now)) }
{
    if let Some(name) = value.as_str() {
        return Ok(Some(named(alloc, name, false, false)?));
    }
    let Some((name, value)) = only_of(value) else {
        return Ok(None);
    };
    key_at(alloc, name, value)
}

// ---- the keys

fn keys_in(alloc: Global, values: &[Value]) -> Result<Option<Vec<NamedKey>>, NoMemory>
    ensures { IfOk result (λ keys. option_map (λ all. all.items) keys ≡ keys_in (items_view values.now)) }
{
    let mut keys = Vec::with_capacity(alloc, values.len())?;
    for value in values {
        match key_of(alloc, value)? {
            Some(key) => keys.push(key)?,
            None => return Ok(None),
        }
    }
    Ok(Some(keys))
}

/// By which keys a body sorts.
#[tactic(auto, unfolding(crate::specs::Sorts::sort_of))]
pub(crate) fn sort_of(alloc: Global, value: &Value) -> Result<Option<Vec<NamedKey>>, NoMemory>
    ensures { IfOk result (λ keys. option_map (λ all. all.items) keys ≡ sort_of (view value.now)) }
{
    let Some(sort) = value.get("sort") else {
        return Ok(Some(Vec::new(alloc)));
    };
    if let Some(values) = sort.as_array() {
        return keys_in(alloc, values);
    }
    match key_of(alloc, sort)? {
        Some(key) => Ok(Some(Vec::from_array(alloc, [key])?)),
        None => Ok(None),
    }
}

fn is_barred(in_pit: bool, key: &NamedKey) -> bool
    ensures { result ≡ is_barred in_pit key.now }
{
    let name = key.name.as_str();
    name == "_score" || (!in_pit && name == "_shard_doc")
}

fn has_barred(in_pit: bool, keys: &[NamedKey]) -> bool
    ensures { result ≡ list_any (is_barred in_pit) keys.now }
{
    keys.iter().any(|key| is_barred(in_pit, key))
}

/// Whether there are too many keys, or one that nothing is sorted by.
pub(crate) fn breaks_sort(in_pit: bool, keys: &[NamedKey]) -> bool
    ensures { result ≡ breaks_sort in_pit keys.now }
{
    keys.len() > SORT_KEYS || has_barred(in_pit, keys)
}

fn sort_by(name: Text) -> SortBy
    ensures { result ≡ sort_by name }
{
    if name.as_str() == "_shard_doc" || name.as_str() == "_doc" {
        SortBy::Place
    } else {
        SortBy::Field(name)
    }
}

fn sort_key(key: NamedKey) -> SortKey
    ensures { result ≡ sort_key key }
{
    let NamedKey {
        name,
        down,
        missing_first,
    } = key;
    SortKey {
        by: sort_by(name),
        down,
        missing_first,
    }
}

/// What the names of the keys mean.
pub(crate) fn sort_keys(alloc: Global, keys: Vec<NamedKey>) -> Result<Vec<SortKey>, NoMemory>
    ensures { IfOk result (λ all. all.items ≡ map sort_key keys.items) }
{
    let mut all = Vec::with_capacity(alloc, keys.len())?;
    for key in keys {
        all.push(sort_key(key))?;
    }
    Ok(all)
}
