//! The body of a document.
ghost use Rattle.std.specs.Prelude.{◌≡◌, IfOk};
ghost use Rattle.serde_json.specs.View.{members_view, view};
ghost use Rattle.es_types.specs.Fail.{Answers};
ghost use Rattle.doc_json.specs.Documents.{IsDocument, doc_of, members_of, value_of};

use crate::fault::BodyFault;
use crate::value::{read_data, trimmed};
use es_types::{Bytes, Doc, DocValue, Fail, Items, Member, NoMemory, Text};
use serde_json::{Map, Value};
use std::alloc::Global;

/// The document that a text is: its members at the top level, and the text without white space at the ends.
#[tactic(auto, unfolding(crate::specs::Documents::doc_of))]
pub fn read_doc(alloc: Global, text: &[u8]) -> Result<Doc, Fail<BodyFault>>
    ensures answer { Answers result (doc_of text.now) }
    ensures object { IfOk result IsDocument }
{
    let source = trimmed(text);
    match read_data(alloc, source)? {
        None => Err(Fail::Is(BodyFault::NotJson)),
        Some(Value::Object(members)) => {
            let members = members_of(alloc, members)?;
            Ok(Doc {
                source: Bytes::of(Vec::from_slice(alloc, source)?),
                members: Items::of(members),
            })
        }
        Some(_) => Err(Fail::Is(BodyFault::Shape)),
    }
}

fn members_of(alloc: Global, members: Map<String, Value>) -> Result<Vec<Member>, NoMemory>
    ensures { IfOk result (λ all. all.items ≡ members_of (members_view members.entries)) }
{
    let mut all = Vec::with_capacity(alloc, members.len())?;
    for (name, value) in members {
        all.push(Member {
            name: Text::of(name),
            value: value_of(value),
        })?;
    }
    Ok(all)
}

fn value_of(value: Value) -> DocValue
    ensures { result ≡ value_of (view value) }
{
    match value {
        Value::Null => DocValue::Null,
        Value::Number(number) => match number.as_i64() {
            Some(number) => DocValue::Long(number),
            None => DocValue::Other,
        },
        Value::String(text) => DocValue::Key(Text::of(text)),
        Value::Bool(_) => DocValue::Other,
        Value::Array(_) => DocValue::Other,
        Value::Object(_) => DocValue::Other,
    }
}
