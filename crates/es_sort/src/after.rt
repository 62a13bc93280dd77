//! Values after which a page begins.
ghost use Rattle.std.specs.Prelude.{◌≡◌, MatchResult, IsTrue, IsFalse};
ghost use Rattle.es_sort.specs.Fits.{after_fits, is_of_or_missing, take_each, takes};
ghost use Rattle.es_sort.specs.Keys.{with_place};

use crate::key::shows_implied;
use crate::{Keys, SortBy, SortKey, SortSpec};
use es_types::{FieldKind, Mapping, Value};

/// Values after which no page of the sort can begin: too many or too few, or one of another kind than its key's.
#[derive(Drop)]
pub struct BadAfter;

impl SortSpec {
    /// Whether these are values as a hit shows them: one for each shown key, of its field's kind or missing, and a number for
    /// the place.
    pub fn after_ok(&self, mapping: &Mapping, after: &Keys) -> Result<(), BadAfter>
        ensures { MatchResult result (λ _. IsTrue (after_fits mapping.now self.now after.now)) (λ _. IsFalse (after_fits mapping.now self.now after.now)) }
    {
        let implied = shows_implied(self);
        if take_each(
            self.keys.as_slice(),
            implied,
            mapping,
            after.values.as_slice(),
        ) {
            Ok(())
        } else {
            Err(BadAfter)
        }
    }
}

// Whether the values are one for each key, and one for the place after them where it counts.
fn take_each(keys: &[SortKey], place: bool, mapping: &Mapping, values: &[Value]) -> bool
    ensures { result ≡ take_each mapping.now (with_place place keys.now) values.now }
{
    for at in 0..keys.len() {
        let key = &keys[at];
        let Some(value) = values.get(at) else {
            return false;
        };
        if !takes(mapping, &key.by, value) {
            return false;
        }
    }
    match &values[keys.len()..] {
        [] => !place,
        [value] => place && value.is_of(FieldKind::Long),
        _ => false,
    }
}

// Whether a value is of a key's kind, as those of rows are.
fn takes(mapping: &Mapping, by: &SortBy, value: &Value) -> bool
    ensures { result ≡ takes mapping.now by.now value.now }
{
    match by {
        SortBy::Field(name) => is_of_or_missing(mapping.kind_of(name.as_str()), value),
        SortBy::Place => value.is_of(FieldKind::Long),
    }
}

// Whether it is a value of that kind, or a missing one. A field that isn't mapped takes none.
fn is_of_or_missing(kind: Option<FieldKind>, value: &Value) -> bool
    ensures { result ≡ is_of_or_missing kind value.now }
{
    match (kind, value) {
        (None, _) => false,
        (Some(_), Value::Missing) => true,
        (Some(kind), _) => value.is_of(kind),
    }
}
