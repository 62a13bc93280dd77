//! The values that a document gives the fields of a mapping.
ghost use Rattle.std.specs.Prelude.{◌≡◌, ◌≤◌, length, map, List, IfOk, IsTrue};
ghost use Rattle.es_types.specs.declared.limits.TheConstants.{MAPPING_FIELDS};
ghost use Rattle.es_types.specs.declared.doc.Member.{Member};
ghost use Rattle.es_types.specs.Fields.{fit, value_of};
ghost use Rattle.es_types.specs.Fail.{Answers};
ghost use Rattle.es_types.specs.Fit.{values_named};
ghost use Rattle.es_types.specs.Values.{AreValuesOf};

use crate::{
    Copied, Doc, DocValue, Fail, Field, FieldKind, Items, Mapping, Member, NoMemory, Value,
};
use std::alloc::Global;

/// The longest text of a keyword, in bytes.
const LONGEST_KEY: usize = 32766;

/// Why a value is not one of its field.
#[derive(Clone, Copy)]
pub enum DocCause {
    /// It is of another kind.
    Kind,
    /// A keyword has more than 32,766 bytes.
    TooLong,
}

/// The first field of a mapping, by its place from 0, that a document has no value for, and why.
#[derive(Clone, Copy)]
pub struct DocFault {
    pub field: u32,
    pub cause: DocCause,
}

/// The values that a document gives the fields of a mapping: one a field, in the order of the fields, and `Missing` where it has
/// no member of that name or a null. The first member of a name counts. Where a field's member is no value of it, the fault of
/// the first such field.
///
/// Takes a search by halves among the fields for each member, and one step for each field.
pub fn fit_doc(alloc: Global, mapping: &Mapping, doc: &Doc) -> Result<Items<Value>, Fail<DocFault>>
    ensures fits { Answers result (fit mapping.now doc.now.members) }
    ensures kinds { IfOk result (AreValuesOf mapping.now) }
{
    let null = DocValue::Null;
    let given = given_values(alloc, &null, mapping, doc.members.as_slice())?;
    values_of(alloc, mapping.fields(), &given)
}

// The value of each field's first member, or `null`. The members are gone through from the last to the first, so that of two of
// one name the first stays.
fn given_values<'a>(
    alloc: Global,
    null: &'a DocValue,
    mapping: &Mapping,
    members: &'a [Member],
) -> Result<Vec<&'a DocValue>, NoMemory>
    requires { null.now ≡ DocValue.Null }
    ensures { IfOk result (λ given. map (λ value. value.now) given.items ≡ values_named mapping.now members.now) }
{
    let mut given = vec![in alloc; null; mapping.fields().len()]?;
    for i in (0..members.len()).rev() {
        let member = &members[i];
        if let Some(place) = mapping.place_of(member.name.as_str()) {
            given[place] = &member.value;
        }
    }
    Ok(given)
}

// The values of the fields, from what they are given.
fn values_of(
    alloc: Global,
    fields: &[Field],
    given: &[&DocValue],
) -> Result<Items<Value>, Fail<DocFault>>
    requires few { length fields.now ≤ MAPPING_FIELDS }
    requires one_each { length given.now ≡ length fields.now }
    ensures { (members : List Member) → map (λ value. value.now) given.now ≡ values_named fields.now members → Answers result (fit fields.now members) }
{
    let mut values = Vec::with_capacity(alloc, fields.len())?;
    for i in 0..fields.len() {
        match value_of(alloc, fields[i].kind, given[i]) {
            Ok(value) => values.push(value)?,
            Err(Fail::Is(cause)) => {
                return Err(Fail::Is(DocFault {
                    field: i as u32,
                    cause,
                }));
            }
            Err(Fail::NoMemory) => return Err(Fail::NoMemory),
        }
    }
    Ok(Items::of(values))
}

// What is given, as the value of a field of that kind.
fn value_of(alloc: Global, kind: FieldKind, value: &DocValue) -> Result<Value, Fail<DocCause>>
    ensures { Answers result (value_of kind value.now) }
{
    match (kind, value) {
        (FieldKind::Key, DocValue::Key(text)) => {
            if text.as_str().len() <= LONGEST_KEY {
                Ok(Value::Key(text.copy(alloc)?))
            } else {
                Err(Fail::Is(DocCause::TooLong))
            }
        }
        (FieldKind::Long, DocValue::Long(number)) => Ok(Value::Long(*number)),
        (_, DocValue::Null) => Ok(Value::Missing),
        _ => Err(Fail::Is(DocCause::Kind)),
    }
}
