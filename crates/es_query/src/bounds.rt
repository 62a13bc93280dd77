//! The bounds of rows, field by field.
ghost use Rattle.std.specs.Prelude.{◌≡◌, [], ◌∷◌, drop, IfOk, MatchOption};
ghost use Rattle.std.specs.Int.{int_max, int_min};
ghost use Rattle.es_query.specs.Limits.{bound_of, bounds_of, first_of, greater, lesser, values_at};

use es_types::{Bound, Bounds, Copied, FieldKind, Items, Mapping, NoMemory, Row, Text, Value};
use std::alloc::Global;

/// The least and the greatest value that rows of that mapping have of each field: what a search looks at first, to leave out a
/// shard that cannot match.
///
/// Takes one step for each row and field, and copies only the texts that are bounds.
pub fn bounds_of(alloc: Global, mapping: &Mapping, rows: &[Row]) -> Result<Bounds, NoMemory>
    ensures { IfOk result (λ it. it ≡ bounds_of mapping.now rows.now) }
{
    let fields = mapping.fields();
    let mut bounds = Vec::with_capacity(alloc, fields.len())?;
    for i in 0..fields.len() {
        bounds.push(bound_at(alloc, fields[i].kind, rows, i)?)?;
    }
    Ok(Bounds {
        rows: rows.len() as u64,
        fields: Items::of(bounds),
    })
}

// The bound of the values of that kind that the rows have at a place.
fn bound_at(alloc: Global, kind: FieldKind, rows: &[Row], place: usize) -> Result<Bound, NoMemory>
    ensures { IfOk result (λ it. it ≡ bound_of (values_at kind place rows.now)) }
{
    match kind {
        FieldKind::Key => match keys_at(rows, place) {
            Some((least, greatest)) => Ok(Bound::Keys {
                least: least.copy(alloc)?,
                greatest: greatest.copy(alloc)?,
            }),
            None => Ok(Bound::Nothing),
        },
        FieldKind::Long => match longs_at(rows, place) {
            Some((least, greatest)) => Ok(Bound::Longs { least, greatest }),
            None => Ok(Bound::Nothing),
        },
    }
}

// The least and the greatest text at a place.
fn keys_at<'a>(rows: &'a [Row], place: usize) -> Option<(&'a Text, &'a Text)>
    ensures { let bound = bound_of (values_at FieldKind.Key place rows.now) in
        MatchOption result (bound ≡ Bound.Nothing) (λ it. bound ≡ Bound.Keys it.0.now it.1.now) }
{
    let mut found = None;
    for i in (0..rows.len()).rev() {
        if let Some(text) = key_at(rows[i].values.as_slice(), place) {
            found = Some(with_text(found, text));
        }
    }
    found
}

fn longs_at(rows: &[Row], place: usize) -> Option<(i64, i64)>
    ensures { let bound = bound_of (values_at FieldKind.Long place rows.now) in
        MatchOption result (bound ≡ Bound.Nothing) (λ it. bound ≡ Bound.Longs it.0 it.1) }
{
    let mut found = None;
    for i in (0..rows.len()).rev() {
        if let Some(number) = long_at(rows[i].values.as_slice(), place) {
            found = Some(with_number(found, number));
        }
    }
    found
}

// The text at a place.
fn key_at<'a>(values: &'a [Value], place: usize) -> Option<&'a Text>
    ensures { let first = first_of FieldKind.Key (drop place values.now) in
        MatchOption result (first ≡ []) (λ text. first ≡ Value.Key text.now ∷ []) }
{
    match values.get(place) {
        Some(Value::Key(text)) => Some(text),
        _ => None,
    }
}

fn long_at(values: &[Value], place: usize) -> Option<i64>
    ensures { let first = first_of FieldKind.Long (drop place values.now) in
        MatchOption result (first ≡ []) (λ number. first ≡ Value.Long number ∷ []) }
{
    match values.get(place) {
        Some(Value::Long(number)) => Some(*number),
        _ => None,
    }
}

// The least and the greatest text with one more.
fn with_text<'a>(found: Option<(&'a Text, &'a Text)>, text: &'a Text) -> (&'a Text, &'a Text)
    ensures { MatchOption found.entry ((result.0.now ≡ text.now) × (result.1.now ≡ text.now))
        (λ it. (result.0.now ≡ lesser text.now it.0.now) × (result.1.now ≡ greater text.now it.1.now)) }
{
    match found {
        None => (text, text),
        Some((least, greatest)) => (lesser(text, least), greater(text, greatest)),
    }
}

fn with_number(found: Option<(i64, i64)>, number: i64) -> (i64, i64)
    ensures { MatchOption found ((result.0 ≡ number) × (result.1 ≡ number))
        (λ it. (result.0 ≡ int_min number it.0) × (result.1 ≡ int_max number it.1)) }
{
    match found {
        None => (number, number),
        Some((least, greatest)) => (number.min(least), number.max(greatest)),
    }
}

fn lesser<'a>(a: &'a Text, b: &'a Text) -> &'a Text
    ensures { result.now ≡ lesser a.now b.now }
{
    if b.as_str().cmp(a.as_str()).is_lt() {
        b
    } else {
        a
    }
}

fn greater<'a>(a: &'a Text, b: &'a Text) -> &'a Text
    ensures { result.now ≡ greater a.now b.now }
{
    if a.as_str().cmp(b.as_str()).is_lt() {
        b
    } else {
        a
    }
}
