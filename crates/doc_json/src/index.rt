//! The body of a new index.
ghost use Rattle.std.specs.Prelude.{◌≡◌, [], IfOk, IsFalse, IsTrue, MatchOption, option_map};
ghost use Rattle.std.specs.Char.{is_ascii_digit};
ghost use Rattle.std.specs.List.{list_all};
ghost use Rattle.serde_json.specs.View.{members_view, view};
ghost use Rattle.es_types.specs.Fail.{Answers};
ghost use Rattle.doc_json.specs.Indexes.{are_fields, are_mappings, are_named, are_settings, fields_of, filled, has_form, index_in, index_of, is_field, is_false, is_interval, is_numeral, is_type, kind_of, limited, mapping_of, named_field, number_at, properties_in, properties_of, setting, shards_in, shards_of, small, whole_in, whole_of};

use crate::fault::BodyFault;
use crate::value::{is_form, only_member, read_data};
use es_types::{
    Fail, Field, FieldKind, FieldName, INDEX_SHARDS, Items, LimitName, MAPPING_FIELDS, Mapping,
    NoMemory, Text,
};
use serde_json::{Map, Value};
use std::alloc::Global;

/// What a new index shall be: with how many shards, and which fields.
#[derive(Drop)]
pub struct IndexSpec {
    pub shards: u32,
    pub mapping: Mapping,
}

/// What the body of a new index asks for. An empty body counts as `{}`.
#[tactic(auto, unfolding(crate::specs::Indexes::index_of))]
pub fn read_index(alloc: Global, body: &[u8]) -> Result<IndexSpec, Fail<BodyFault>>
    ensures { Answers result (index_of body.now) }
{
    match read_data(alloc, filled(body))? {
        Some(value) => index_in(alloc, &value),
        None => Err(Fail::Is(BodyFault::NotJson)),
    }
}

/// A body, where an empty one counts as `{}`.
pub fn filled(body: &[u8]) -> &[u8]
    ensures { result.now ≡ filled body.now }
{
    if body.is_empty() { b"{}" } else { body }
}

#[tactic(auto, unfolding(crate::specs::Indexes::index_in))]
fn index_in(alloc: Global, value: &Value) -> Result<IndexSpec, Fail<BodyFault>>
    ensures { Answers result (index_in (view value.now)) }
{
    if !is_form(value, &["settings", "mappings"]) {
        return Err(Fail::Is(BodyFault::Shape));
    }
    let Some(shards) = shards_of(value.get("settings")) else {
        return Err(Fail::Is(BodyFault::Shape));
    };
    let none = Map::new(alloc);
    let Some(properties) = properties_of(&none, value.get("mappings")) else {
        return Err(Fail::Is(BodyFault::Shape));
    };
    limited(alloc, shards, properties)
}

// What is asked for, where it breaks no limit.
#[tactic(auto, unfolding(crate::specs::Indexes::limited))]
fn limited(
    alloc: Global,
    shards: u32,
    properties: &Map<String, Value>,
) -> Result<IndexSpec, Fail<BodyFault>>
    ensures { Answers result (limited shards (members_view properties.now.entries)) }
{
    if shards < 1 || shards > INDEX_SHARDS {
        return Err(Fail::Is(BodyFault::Limit(LimitName::Shards)));
    }
    match mapping_of(alloc, properties)? {
        Some(mapping) => Ok(IndexSpec { shards, mapping }),
        None => Err(Fail::Is(BodyFault::Limit(LimitName::Fields))),
    }
}

// ---- settings

fn shards_of(settings: Option<&Value>) -> Option<u32>
    ensures { result ≡ shards_of (option_map (λ v. view v.now) settings.entry) }
{
    match settings {
        Some(settings) => shards_in(settings),
        None => Some(1),
    }
}

#[tactic(auto, unfolding(crate::specs::Indexes::shards_in))]
fn shards_in(settings: &Value) -> Option<u32>
    ensures { result ≡ shards_in (view settings.now) }
{
    if are_settings(settings) {
        number_at(settings, "number_of_shards")
    } else {
        None
    }
}

#[tactic(auto, unfolding(crate::specs::Indexes::are_settings))]
fn are_settings(settings: &Value) -> bool
    ensures { result ≡ are_settings (view settings.now) }
{
    has_form(settings)
        && number_at(settings, "number_of_replicas").is_some()
        && is_interval(settings)
}

#[tactic(auto, unfolding(crate::specs::Indexes::has_form))]
fn has_form(settings: &Value) -> bool
    ensures { result ≡ has_form (view settings.now) }
{
    let outer = is_form(
        settings,
        &[
            "number_of_shards",
            "number_of_replicas",
            "refresh_interval",
            "index",
        ],
    );
    match settings.get("index") {
        Some(inner) => {
            outer
                && is_form(
                    inner,
                    &["number_of_shards", "number_of_replicas", "refresh_interval"],
                )
        }
        None => outer,
    }
}

// The value of a setting, which stands in the settings or in their `index`. `None` where it stands in both.
#[tactic(auto, unfolding(crate::specs::Indexes::setting))]
fn setting<'v>(settings: &'v Value, name: &str) -> Option<Option<&'v Value>>
    ensures { option_map (option_map (λ v. view v.now)) result ≡ setting name.now (view settings.now) }
{
    let outer = settings.get(name);
    let inner = match settings.get("index") {
        Some(index) => index.get(name),
        None => None,
    };
    match (outer, inner) {
        (None, inner) => Some(inner),
        (outer, None) => Some(outer),
        (Some(_), Some(_)) => None,
    }
}

#[tactic(auto, unfolding(crate::specs::Indexes::number_at))]
fn number_at(settings: &Value, name: &str) -> Option<u32>
    ensures { result ≡ number_at name.now (view settings.now) }
{
    match setting(settings, name) {
        Some(Some(value)) => whole_of(value),
        Some(None) => Some(1),
        None => None,
    }
}

#[tactic(auto, unfolding(crate::specs::Indexes::is_interval))]
fn is_interval(settings: &Value) -> bool
    ensures { result ≡ is_interval (view settings.now) }
{
    match setting(settings, "refresh_interval") {
        Some(Some(value)) => value.is_string(),
        Some(None) => true,
        None => false,
    }
}

// A whole number of 0 to 2^31 - 1, or its decimal text.
#[tactic(auto, unfolding(crate::specs::Indexes::whole_of))]
fn whole_of(value: &Value) -> Option<u32>
    ensures { result ≡ whole_of (view value.now) }
{
    match value.as_str() {
        Some(text) => whole_in(text),
        None => match value.as_u64() {
            Some(n) => small(n),
            None => None,
        },
    }
}

fn small(n: u64) -> Option<u32>
    ensures { result ≡ small n }
{
    if n < 1 << 31 { Some(n as u32) } else { None }
}

#[tactic(auto, unfolding(crate::specs::Indexes::whole_in))]
fn whole_in(text: &str) -> Option<u32>
    ensures { result ≡ whole_in text.now }
{
    if !is_numeral(text.as_bytes()) {
        return None;
    }
    match text.parse::<u64>() {
        Ok(n) => small(n),
        Err(_) => None,
    }
}

fn is_numeral(text: &[u8]) -> bool
    ensures { result ≡ is_numeral text.now }
{
    match text {
        [] => false,
        [first, rest @ ..] => {
            if *first == b'0' {
                rest.is_empty()
            } else {
                all_digits(text)
            }
        }
    }
}

fn all_digits(text: &[u8]) -> bool
    ensures { result ≡ list_all is_ascii_digit text.now }
{
    text.iter().all(|b| b.is_ascii_digit())
}

// ---- mappings

// The properties that mappings give: `none` where there are none.
fn properties_of<'v>(
    none: &'v Map<String, Value>,
    mappings: Option<&'v Value>,
) -> Option<&'v Map<String, Value>>
    requires { none.now.entries ≡ [] }
    ensures { option_map (λ m. members_view m.now.entries) result
        ≡ properties_of (option_map (λ v. view v.now) mappings.entry) }
{
    match mappings {
        Some(mappings) => {
            if are_mappings(mappings) {
                properties_in(none, mappings.get("properties"))
            } else {
                None
            }
        }
        None => Some(none),
    }
}

#[tactic(auto, unfolding(crate::specs::Indexes::are_mappings))]
fn are_mappings(mappings: &Value) -> bool
    ensures { result ≡ are_mappings (view mappings.now) }
{
    let form = is_form(mappings, &["dynamic", "properties"]);
    match mappings.get("dynamic") {
        Some(dynamic) => form && is_false(dynamic),
        None => form,
    }
}

fn is_false(value: &Value) -> bool
    ensures { result ≡ is_false (view value.now) }
{
    match value.as_str() {
        Some(text) => text == "false",
        None => match value.as_bool() {
            Some(truth) => !truth,
            None => false,
        },
    }
}

fn properties_in<'v>(
    none: &'v Map<String, Value>,
    properties: Option<&'v Value>,
) -> Option<&'v Map<String, Value>>
    requires { none.now.entries ≡ [] }
    ensures { option_map (λ m. members_view m.now.entries) result
        ≡ properties_in (option_map (λ v. view v.now) properties.entry) }
{
    match properties {
        Some(properties) => match properties.as_object() {
            Some(members) if are_fields(members) => Some(members),
            _ => None,
        },
        None => Some(none),
    }
}

fn are_fields(members: &Map<String, Value>) -> bool
    ensures { result ≡ are_fields (members_view members.now.entries) }
{
    for (_, value) in members.iter() {
        if !is_field(value) {
            return false;
        }
    }
    true
}

fn is_field(value: &Value) -> bool
    ensures { result ≡ is_field (view value.now) }
{
    is_type(value, "keyword") || is_type(value, "long")
}

#[tactic(auto, unfolding(crate::specs::Indexes::is_type))]
fn is_type(value: &Value, name: &str) -> bool
    ensures { result ≡ is_type name.now (view value.now) }
{
    match only_member(value, "type") {
        Some(kind) => match kind.as_str() {
            Some(kind) => kind == name,
            None => false,
        },
        None => false,
    }
}

fn kind_of(value: &Value) -> FieldKind
    ensures { result ≡ kind_of (view value.now) }
{
    if is_type(value, "long") {
        FieldKind::Long
    } else {
        FieldKind::Key
    }
}

// The mapping of these fields, where there are few enough and all have names that a field may have.
fn mapping_of(alloc: Global, members: &Map<String, Value>) -> Result<Option<Mapping>, NoMemory>
    ensures { IfOk result (λ mapping. mapping ≡ mapping_of (members_view members.now.entries)) }
{
    if members.len() > MAPPING_FIELDS {
        return Ok(None);
    }
    let Some(fields) = fields_of(alloc, members)? else {
        return Ok(None);
    };
    match Mapping::make(Items::of(fields)) {
        Ok(mapping) => Ok(Some(mapping)),
        Err(_) => unreachable!("the names differ and are in order"),
    }
}

// The fields of these names, where all are names that a field may have.
fn fields_of(alloc: Global, members: &Map<String, Value>) -> Result<Option<Vec<Field>>, NoMemory>
    ensures { IfOk result (λ found. MatchOption found
        (IsFalse (are_named (fields_of (members_view members.now.entries))))
        (λ fields. (fields.items ≡ fields_of (members_view members.now.entries))
        × IsTrue (are_named fields.items))) }
{
    let mut fields = Vec::new(alloc);
    for (name, value) in members.iter() {
        match field_of(alloc, name, value)? {
            Some(field) => fields.push(field)?,
            None => return Ok(None),
        }
    }
    Ok(Some(fields))
}

fn field_of(alloc: Global, name: &str, value: &Value) -> Result<Option<Field>, NoMemory>
    ensures { IfOk result (λ field. field ≡ named_field name.now (view value.now)) }
{
    let kind = kind_of(value);
    match FieldName::make(Text::of(String::from_str(alloc, name)?)) {
        Ok(name) => Ok(Some(Field { name, kind })),
        Err(_) => Ok(None),
    }
}
