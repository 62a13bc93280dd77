//! The fields of an index.
ghost use Rattle.std.specs.Prelude.{◌≡◌, ◌+◌, ◌<◌, [], bytes_eq, length, slice_index_or, MatchResult, IsTrue, IsFalse};
ghost use Rattle.std.specs.Cmp.Lexicographic.{slice_cmp};
ghost use Rattle.std.specs.List.{position};
ghost use Rattle.std.specs.Ordering.{nat_cmp};
ghost use Rattle.es_types.specs.Fields.{is_mapping, names_rise};

use crate::{Copied, FieldName, Items, MAPPING_FIELDS, NoMemory};
use std::alloc::Global;
use std::marker::Model;

/// What the values of a field are: texts that are compared as a whole, or whole numbers.
#[derive(Clone, Copy)]
pub enum FieldKind {
    Key,
    Long,
}

/// A field of the documents of an index.
#[derive(Drop)]
pub struct Field {
    pub name: FieldName,
    pub kind: FieldKind,
}

/// The fields of the documents of an index: at most 1,000, of different names, in the order of their names' bytes.
#[derive(Drop)]
pub struct Mapping {
    fields: Items<Field>,
}

impl Model for Mapping {
    ghost use Rattle.std.specs.Prelude.{List, IsTrue};
    ghost use Rattle.es_types.specs.declared.mapping.Field.{Field};
    ghost use Rattle.es_types.specs.Fields.{is_mapping};

    ghost Value = { List Field };

    ghost view = { λ m. m.fields };

    ghost invariant = { λ m. IsTrue (is_mapping m.fields) };
}

impl Mapping {
    /// Hands the fields back where they are no mapping.
    pub fn make(fields: Items<Field>) -> Result<Mapping, Items<Field>>
        ensures { MatchResult result
            (λ mapping. (mapping ≡ fields) × IsTrue (is_mapping fields))
            (λ back. (back ≡ fields) × IsFalse (is_mapping fields)) }
    {
        if are_mapping(fields.as_slice()) {
            Ok(Mapping { fields })
        } else {
            Err(fields)
        }
    }

    /// The mapping without fields.
    pub fn empty(alloc: Global) -> Mapping
        ensures { result ≡ [] }
    {
        Mapping {
            fields: Items::of(Vec::new(alloc)),
        }
    }

    pub fn fields(&self) -> &[Field]
        ensures value { result.now ≡ self.now }
        ensures valid { IsTrue (is_mapping self.now) }
    {
        self.fields.as_slice()
    }

    /// The place of the field of that name, by a search by halves.
    pub fn place_of(&self, name: &str) -> Option<usize>
        ensures { result ≡ position (λ field. bytes_eq field.name name.now) self.now }
    {
        self.fields()
            .binary_search_by(|field| field.name.text().as_str().cmp(name))
            .ok()
    }
}

fn are_mapping(fields: &[Field]) -> bool
    ensures { result ≡ is_mapping fields.now }
{
    fields.len() <= MAPPING_FIELDS && do_names_rise(fields)
}

fn do_names_rise(fields: &[Field]) -> bool
    ensures { result ≡ names_rise fields.now }
{
    let mut rest = fields;
    while let [first, second, ..] = rest {
        let order = first.name.text().as_str().cmp(second.name.text().as_str());
        if !order.is_lt() {
            return false;
        }
        rest = &rest[1..];
    }
    true
}

impl Copied for FieldKind {
    fn copy(&self, _alloc: Global) -> Result<FieldKind, NoMemory> {
        Ok(*self)
    }
}

impl Copied for Field {
    fn copy(&self, alloc: Global) -> Result<Field, NoMemory> {
        Ok(Field {
            name: self.name.copy(alloc)?,
            kind: self.kind,
        })
    }
}

impl Copied for Mapping {
    fn copy(&self, alloc: Global) -> Result<Mapping, NoMemory> {
        Ok(Mapping {
            fields: self.fields.copy(alloc)?,
        })
    }
}
