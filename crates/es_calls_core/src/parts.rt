//! The parts of events, made of texts.
ghost use Rattle.std.specs.Prelude.{IfOk};
ghost use Rattle.list_machine.specs.Objects.{IsObject};

use es_types::{
    Bytes, Doc, DocId, DocValue, Field, FieldKind, FieldName, IndexName, Items, Mapping, Member,
    NoMemory, Text,
};
use std::alloc::Global;
use std::test::Fail;

pub(crate) fn text(alloc: Global, text: &str) -> Result<Text, NoMemory> {
    Ok(Text::of(String::from_str(alloc, text)?))
}

// The object without members.
pub(crate) fn braces(alloc: Global) -> Result<Bytes, NoMemory>
    ensures { IfOk result IsObject }
{
    Ok(Bytes::of(Vec::from_slice(alloc, b"{}")?))
}

pub(crate) fn doc_id(alloc: Global, id: &str) -> Result<DocId, Fail> {
    Ok(DocId::make(text(alloc, id)?).ok().ok_or("an id")?)
}

pub(crate) fn index(alloc: Global, name: &str) -> Result<IndexName, Fail> {
    Ok(IndexName::make(text(alloc, name)?).ok().ok_or("a name")?)
}

// The mapping of the whole number `n`.
pub(crate) fn mapping_of_n(alloc: Global) -> Result<Mapping, Fail> {
    let name = FieldName::make(text(alloc, "n")?).ok().ok_or("a field")?;
    let n = Field {
        name,
        kind: FieldKind::Long,
    };
    Ok(
        Mapping::make(Items::of(vec![in alloc; n]?))
            .ok()
            .ok_or("a mapping")?,
    )
}

// A whole number, or else a text.
fn doc_value(alloc: Global, word: &str) -> Result<DocValue, NoMemory> {
    match word.parse::<i64>() {
        Ok(number) => Ok(DocValue::Long(number)),
        Err(_) => Ok(DocValue::Key(text(alloc, word)?)),
    }
}

// The member that a word gives, as `n=5`, if it is one.
fn members(alloc: Global, word: &str) -> Result<Vec<Member>, NoMemory> {
    match word.split_once('=') {
        None => Ok(Vec::new(alloc)),
        Some((name, value)) => {
            let value = doc_value(alloc, value)?;
            let name = text(alloc, name)?;
            Ok(vec![in alloc; Member { name, value }]?)
        }
    }
}

// A document with the member that the word gives, or with none.
pub(crate) fn document(alloc: Global, word: &str) -> Result<Doc, NoMemory>
    ensures { IfOk result (λ doc. IsObject doc.source) }
{
    let members = members(alloc, word)?;
    let source = braces(alloc)?;
    Ok(Doc {
        source,
        members: Items::of(members),
    })
}
