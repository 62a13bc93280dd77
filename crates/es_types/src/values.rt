//! The value that a row has of a field, and that a document gives it.
ghost use Rattle.std.specs.Prelude.{◌≡◌, [], ◌∷◌, MatchOption};
ghost use Rattle.es_types.specs.Values.{is_kind, kind_in, values_in};

use crate::{FieldKind, Mapping, Value};

impl Value {
    /// Whether it is of that kind. A missing value is of none.
    pub fn is_of(&self, kind: FieldKind) -> bool
        ensures { result ≡ is_kind kind self.now }
    {
        match (kind, self) {
            (FieldKind::Key, Value::Key(_)) => true,
            (FieldKind::Long, Value::Long(_)) => true,
            _ => false,
        }
    }
}

impl Mapping {
    /// The kind of the field of that name.
    pub fn kind_of(&self, name: &str) -> Option<FieldKind>
        ensures { result ≡ kind_in self.now name.now }
    {
        let place = self.place_of(name)?;
        Some(self.fields()[place].kind)
    }

    /// The value that a row with these values has of the field of that name.
    pub fn value_of<'a>(&self, values: &'a [Value], name: &str) -> Option<&'a Value>
        ensures { MatchOption result (values_in self.now values.now name.now ≡ [])
            (λ value. values_in self.now values.now name.now ≡ value.now ∷ []) }
    {
        let place = self.place_of(name)?;
        let value = values.get(place)?;
        let kind = self.fields()[place].kind;
        if value.is_of(kind) { Some(value) } else { None }
    }
}
