//! The key of a row.
ghost use Rattle.std.specs.Prelude.{◌≡◌, ◌<◌, ◌^◌, not, ◌&&◌, take, IfOk};
ghost use Rattle.es_sort.specs.Keys.{full_key, is_place, lists_place, shown, shown_key, value_by, values_by};

use crate::{Keys, SortBy, SortKey, SortSpec};
use es_types::{Copied, Items, Mapping, NoMemory, Row, Value};
use std::alloc::Global;

impl SortSpec {
    /// The key of a row at that place: the value of each key of the sort, and the place where it is none of them. The first
    /// `shown` of them are shown.
    pub fn key_of(
        &self,
        alloc: Global,
        mapping: &Mapping,
        row: &Row,
        place: u64,
    ) -> Result<Keys, NoMemory>
        requires { place < 2 ^ 63 }
        ensures key { IfOk result (λ it. it ≡ full_key mapping.now self.now row.now.values place) }
        ensures shown { IfOk result (λ it. take (shown self.now) it.values ≡ shown_key mapping.now self.now row.now.values place) }
    {
        let keys = self.keys.as_slice();
        let mut values = values_by(alloc, mapping, row.values.as_slice(), place, keys)?;
        if !lists_place(keys) {
            values.push(Value::Long(place as i64))?;
        }
        Ok(Keys {
            values: Items::of(values),
        })
    }

    /// How many of the first values of a key a hit shows.
    pub fn shown(&self) -> usize
        ensures { result ≡ shown self.now }
    {
        let listed = self.keys.as_slice().len();
        if shows_implied(self) {
            listed + 1
        } else {
            listed
        }
    }
}

// Whether a key is the place.
pub fn lists_place(keys: &[SortKey]) -> bool
    ensures { result ≡ lists_place keys.now }
{
    keys.iter().any(|key| is_place(&key.by))
}

fn is_place(by: &SortBy) -> bool
    ensures { result ≡ is_place by.now }
{
    match by {
        SortBy::Field(_) => false,
        SortBy::Place => true,
    }
}

// Whether a place is shown that is no key of the sort.
pub fn shows_implied(sort: &SortSpec) -> bool
    ensures { result ≡ (sort.now.show_place && not (lists_place sort.now.keys)) }
{
    sort.show_place && !lists_place(sort.keys.as_slice())
}

// The values of a row for these keys, with room for the place after them.
fn values_by(
    alloc: Global,
    mapping: &Mapping,
    values: &[Value],
    place: u64,
    keys: &[SortKey],
) -> Result<Vec<Value>, NoMemory>
    requires { place < 2 ^ 63 }
    ensures { IfOk result (λ all. all.items ≡ values_by mapping.now values.now place keys.now) }
{
    let mut all = Vec::with_capacity(alloc, keys.len() + 1)?;
    for key in keys {
        all.push(value_by(alloc, mapping, values, place, &key.by)?)?;
    }
    Ok(all)
}

// The value of a row for a key.
fn value_by(
    alloc: Global,
    mapping: &Mapping,
    values: &[Value],
    place: u64,
    by: &SortBy,
) -> Result<Value, NoMemory>
    requires { place < 2 ^ 63 }
    ensures { IfOk result (λ it. it ≡ value_by mapping.now values.now place by.now) }
{
    match by {
        SortBy::Field(name) => match mapping.value_of(values, name.as_str()) {
            Some(value) => value.copy(alloc),
            None => Ok(Value::Missing),
        },
        SortBy::Place => Ok(Value::Long(place as i64)),
    }
}
