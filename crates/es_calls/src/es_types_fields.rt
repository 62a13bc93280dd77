//! The calls of `es_types` on mappings, documents and shards.
use crate::es_types_calls::{bytes, copies, text};
use es_types::{
    Doc, DocCause, DocFault, DocId, DocValue, Fail as Failure, Field, FieldKind, FieldName, Items,
    Mapping, Member, Value, fit_doc, shard_of,
};
use std::alloc::Global;
use std::fmt;
use std::process::Abort;
use std::test::Fail;

fn field(alloc: Global, name: &str, kind: FieldKind) -> Result<Field, Fail> {
    Ok(Field {
        name: FieldName::make(text(alloc, name)?).ok().ok_or("a field")?,
        kind,
    })
}

// The mapping of the whole number `n`.
pub(crate) fn mapping_of_n(alloc: Global) -> Result<Mapping, Fail> {
    let n = field(alloc, "n", FieldKind::Long)?;
    Ok(
        Mapping::make(Items::of(vec![in alloc; n]?))
            .ok()
            .ok_or("a mapping")?,
    )
}

// A member, as `n=5`: a whole number, `null`, `{}` for what no field takes, or else a text.
fn member(alloc: Global, given: &str) -> Result<Member, Fail> {
    let (name, value) = given.split_once('=').ok_or("a member")?;
    let value = match value {
        "null" => DocValue::Null,
        "{}" => DocValue::Other,
        _ => match value.parse::<i64>() {
            Ok(number) => DocValue::Long(number),
            Err(_) => DocValue::Key(text(alloc, value)?),
        },
    };
    let name = text(alloc, name)?;
    Ok(Member { name, value })
}

fn members(alloc: Global, given: &str) -> Result<Items<Member>, Fail> {
    let mut members = Vec::new(alloc);
    for given in given.split(' ') {
        if !given.is_empty() {
            members.push(member(alloc, given)?)?;
        }
    }
    Ok(Items::of(members))
}

// A document with these members, which stand in a line.
pub(crate) fn document(alloc: Global, given: &str) -> Result<Doc, Fail> {
    let members = members(alloc, given)?;
    let source = bytes(alloc, b"{}")?;
    Ok(Doc { source, members })
}

fn cause(cause: DocCause) -> &'static str {
    match cause {
        DocCause::Kind => "kind",
        DocCause::TooLong => "long",
    }
}

// What a document gives the fields: each value in brackets, or the fault.
#[derive(Drop)]
struct FittedText<'a> {
    fitted: &'a Result<Items<Value>, Failure<DocFault>>,
}

impl fmt::Display for FittedText<'_> {
    fn fmt<W: fmt::Write>(&self, f: &mut fmt::Formatter<W>) -> fmt::Result {
        match self.fitted {
            Ok(values) => {
                for value in values.as_slice() {
                    match value {
                        Value::Key(key) => write!(f, "[{}]", key.as_str())?,
                        Value::Long(number) => write!(f, "[{number}]")?,
                        Value::Missing => write!(f, "[]")?,
                    }
                }
                Ok(())
            }
            Err(Failure::Is(fault)) => write!(f, "{} {}", cause(fault.cause), fault.field),
            Err(Failure::NoMemory) => write!(f, "no memory"),
        }
    }
}

// What a document with these members gives the fields.
fn fitted_text(alloc: Global, mapping: &Mapping, given: &str) -> Result<String, Fail> {
    let doc = document(alloc, given)?;
    let fitted = fit_doc(alloc, mapping, &doc);
    Ok(format!(in alloc; "{}", FittedText { fitted: &fitted })?)
}

// A line has the members of a document, and what they have to give the fields.
fn gives(rt: &impl Abort, alloc: Global, mapping: &Mapping, lines: &str) -> Result<(), Fail> {
    for line in lines.lines() {
        let (given, want) = line.split_once("-> ").ok_or("values")?;
        let found = fitted_text(alloc, mapping, given)?;
        assert_eq!(rt; found.as_str(), want, "of {given}");
    }
    Ok(())
}

const ON_ONE_FIELD: &str = "\
n=5 -> [5]
n=x -> kind 0
-> []
";

#[test]
fn a_document_on_one_field(rt: HostRuntime) -> Result<(), Fail> {
    let alloc = rt.alloc();
    let n = mapping_of_n(alloc)?;
    gives(&rt, alloc, &n, ON_ONE_FIELD)
}

const ON_TWO_FIELDS: &str = "\
tag=x n=-5 -> [-5][x]
n=null N={} -> [][]
tag={} -> kind 1
n=1 n={} -> [1][]
tag=null n={} -> kind 0
";

#[test]
fn a_document_on_two_fields(rt: HostRuntime) -> Result<(), Fail> {
    let alloc = rt.alloc();
    let tag = field(alloc, "tag", FieldKind::Key)?;
    let n = field(alloc, "n", FieldKind::Long)?;
    let both = Mapping::make(Items::of(vec![in alloc; n, tag]?))
        .ok()
        .ok_or("a mapping")?;
    gives(&rt, alloc, &both, ON_TWO_FIELDS)
}

#[test]
fn copies_of_mappings(rt: HostRuntime) -> Result<(), Fail> {
    let alloc = rt.alloc();
    assert!(rt; Mapping::empty(alloc).fields().is_empty());
    let n = mapping_of_n(alloc)?;
    assert!(rt; copies(alloc, &n));
    for field in n.fields() {
        assert!(rt; copies(alloc, field));
        assert!(rt; copies(alloc, &field.kind));
    }
    Ok(())
}

// Whether a mapping can have these two fields, in this order.
fn makes(alloc: Global, one: &str, other: &str) -> Result<bool, Fail> {
    let one = field(alloc, one, FieldKind::Key)?;
    let other = field(alloc, other, FieldKind::Long)?;
    Ok(Mapping::make(Items::of(vec![in alloc; one, other]?)).is_ok())
}

#[test]
fn orders_of_fields(rt: HostRuntime) -> Result<(), Fail> {
    for (one, other, made) in [
        ("a", "b", true),
        ("b", "a", false),
        ("a", "a", false),
        ("B", "a", true),
        ("a", "aa", true),
    ] {
        let found = makes(rt.alloc(), one, other)?;
        assert!(rt; found == made, "fields {one} and {other}");
    }
    Ok(())
}

#[test]
fn shards_of_ids(rt: HostRuntime) -> Result<(), Fail> {
    let alloc = rt.alloc();
    for (id, shards, home) in [
        ("a", 2, 0),
        ("b", 2, 1),
        ("a", 5, 0),
        ("f", 5, 1),
        ("b", 5, 2),
        ("c", 5, 3),
        ("d", 5, 3),
        ("e", 5, 4),
        ("e", 1, 0),
    ] {
        let name = DocId::make(text(alloc, id)?).ok().ok_or("an id")?;
        assert_eq!(rt; shard_of(&name, shards), home, "{id} of {shards}");
    }
    Ok(())
}
