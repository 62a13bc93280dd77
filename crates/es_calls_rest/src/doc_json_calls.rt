//! The calls of `doc_json`.
use crate::given::text;
use doc_json::{
    ActionKind, BodyFault, BulkAction, BulkChange, BulkItem, next_action, next_bulk, read_data,
    read_doc, read_index,
};
use es_types::{DocValue, Fail as Failure, FieldKind, LimitName, Text};
use std::alloc::Global;
use std::process::Abort;
use std::test::Fail;

fn word_of(fault: &Failure<BodyFault>) -> &'static str {
    match fault {
        Failure::Is(BodyFault::BadId) => "bad id",
        Failure::Is(BodyFault::NotJson) => "no json",
        Failure::Is(BodyFault::Shape) => "shape",
        Failure::Is(BodyFault::Limit(LimitName::Shards)) => "shards",
        Failure::Is(BodyFault::Limit(LimitName::Fields)) => "fields",
        Failure::Is(BodyFault::Limit(_)) => "another limit",
        Failure::NoMemory => "no memory",
    }
}

// How many shards a body asks for, and its fields with the letters of their kinds.
fn index_text(alloc: Global, body: &str) -> Result<String, Fail> {
    let spec = match read_index(alloc, body.as_bytes()) {
        Ok(spec) => spec,
        Err(fault) => return Ok(String::from_str(alloc, word_of(&fault))?),
    };
    let mut found = format!(in alloc; "{}", spec.shards)?;
    for field in spec.mapping.fields() {
        found.push_str(match field.kind {
            FieldKind::Key => " k:",
            FieldKind::Long => " l:",
        })?;
        found.push_str(field.name.text().as_str())?;
    }
    Ok(found)
}

const INDEXES: &str = r#"
 -> 1
 {}  -> 1
  -> no json
[ -> no json
[] -> shape
{"settings":{},"mappings":{}} -> 1
{"settings":{"number_of_shards":1024,"refresh_interval":"-1"}} -> 1024
{"settings":{"index":{"number_of_shards":"7","number_of_replicas":"0"}}} -> 7
{"settings":{"number_of_replicas":9,"index":{"number_of_shards":2}}} -> 2
{"mappings":{"dynamic":"false","properties":{"b":{"type":"long"},"B":{"type":"keyword"}}}} -> 1 k:B l:b
{"mappings":{"dynamic":false}} -> 1
{"settings":{},"x":1} -> shape
{"settings":[]} -> shape
{"settings":{"number_of_shards":"07"}} -> shape
{"settings":{"number_of_shards":"+7"}} -> shape
{"settings":{"number_of_shards":""}} -> shape
{"settings":{"number_of_shards":1.0}} -> shape
{"settings":{"number_of_replicas":2147483648}} -> shape
{"settings":{"number_of_replicas":2147483647}} -> 1
{"settings":{"refresh_interval":1}} -> shape
{"settings":{"number_of_shards":1,"index":{"number_of_shards":1}}} -> shape
{"settings":{"index":{"index":{}}}} -> shape
{"mappings":{"dynamic":true}} -> shape
{"mappings":{"properties":{"a":{"type":"text"}}}} -> shape
{"mappings":{"properties":{"a":{"type":"long","x":1}}}} -> shape
{"settings":{"number_of_shards":0},"mappings":{"x":1}} -> shape
{"settings":{"number_of_shards":0}} -> shards
{"settings":{"number_of_shards":"1025"}} -> shards
{"mappings":{"properties":{"_x":{"type":"long"}}}} -> fields
{"mappings":{"properties":{".":{"type":"long"}}}} -> fields
{"mappings":{"properties":{"":{"type":"keyword"}}}} -> fields
{"settings":{"number_of_shards":0},"mappings":{"properties":{"_x":{"type":"long"}}}} -> shards
"#;

#[test]
fn indexes(rt: HostRuntime) -> Result<(), Fail> {
    let alloc = rt.alloc();
    for line in INDEXES.lines() {
        if !line.is_empty() {
            let (body, want) = line.split_once(" -> ").ok_or("an index")?;
            let found = index_text(alloc, body)?;
            assert_eq!(rt; found.as_str(), want, "{body}");
        }
    }
    Ok(())
}

// The body of an index with so many fields.
fn many_fields(alloc: Global, count: u32) -> Result<String, Fail> {
    let mut body = String::from_str(
        alloc,
        "{\"mappings\":{\"properties\":{\"a\":{\"type\":\"long\"}",
    )?;
    for number in 1..count {
        body.push_str(&format!(in alloc; ",\"{number}\":{{\"type\":\"long\"}}")?)?;
    }
    body.push_str("}}}")?;
    Ok(body)
}

#[test]
fn fields_at_the_limit(rt: HostRuntime) -> Result<(), Fail> {
    let alloc = rt.alloc();
    let most = many_fields(alloc, 1000)?;
    let spec = read_index(alloc, most.as_bytes()).ok().ok_or("an index")?;
    assert_eq!(rt; spec.mapping.fields().len(), 1000);
    let more = index_text(alloc, &many_fields(alloc, 1001)?)?;
    assert_eq!(rt; more.as_str(), "fields");
    Ok(())
}

// A document's text, and what its members have.
fn doc_text(alloc: Global, body: &str) -> Result<String, Fail> {
    let doc = match read_doc(alloc, body.as_bytes()) {
        Ok(doc) => doc,
        Err(fault) => return Ok(String::from_str(alloc, word_of(&fault))?),
    };
    let mut found = format!(in alloc; "{}", doc.source.as_slice().len())?;
    for member in doc.members.as_slice() {
        let value = match &member.value {
            DocValue::Key(key) => format!(in alloc; "'{}'", key.as_str())?,
            DocValue::Long(number) => format!(in alloc; "{number}")?,
            DocValue::Null => String::from_str(alloc, "null")?,
            DocValue::Other => String::from_str(alloc, "other")?,
        };
        found.push_str(&format!(in alloc; " {}={value}", member.name.as_str())?)?;
    }
    Ok(found)
}

const DOCUMENTS: &str = r#"
{} -> 2
[ -> no json
[] -> shape
 -> no json
{"b":"x","a":-5,"b":null} -> 25 a=-5 b=null
{"a":1.5,"b":true,"c":[1],"d":{"e":1}} -> 38 a=other b=other c=other d=other
{"a":9223372036854775807,"b":9223372036854775808} -> 49 a=9223372036854775807 b=other
{"":""} -> 7 =''
"#;

#[test]
fn documents(rt: HostRuntime) -> Result<(), Fail> {
    let alloc = rt.alloc();
    for line in DOCUMENTS.lines() {
        if !line.is_empty() {
            let (body, want) = line.split_once(" -> ").ok_or("a document")?;
            let found = doc_text(alloc, body)?;
            assert_eq!(rt; found.as_str(), want, "{body}");
        }
    }
    let found = doc_text(alloc, " \r\n\t{ } \n")?;
    assert_eq!(rt; found.as_str(), "3");
    Ok(())
}

// What an item does, and to what.
fn item_text(alloc: Global, item: &BulkItem) -> Result<String, Fail> {
    let done = match &item.change {
        BulkChange::Put(source) => source.as_slice().len(),
        BulkChange::Remove => 0,
    };
    Ok(format!(in alloc;
        "{}/{}:{done},{} ",
        item.index.as_str(),
        item.id.as_str(),
        item.next
    )?)
}

// The items of a bulk up to its end or the first fault.
fn bulk_text(alloc: Global, index: Option<&Text>, body: &str) -> Result<String, Fail> {
    let mut found = String::new(alloc);
    let mut at = 0;
    'items: for _ in 0..9 {
        match next_bulk(alloc, body.as_bytes(), at, index) {
            Ok(Some(item)) => {
                found.push_str(&item_text(alloc, &item)?)?;
                at = item.next;
            }
            Ok(None) => return Ok(found),
            Err(fault) => {
                found.push_str(word_of(&fault))?;
                return Ok(found);
            }
        }
    }
    Ok(found)
}

// A stroke stands for a line feed.
const BULKS: &str = r#"
 -> 
{"index":{"_id":"a"}}|{"n":1}|{"delete":{"_id":"b"}}| -> r/a:7,30 r/b:0,53 
{"delete":{"_id":"","_index":"-"}}| -> -/:0,35 
{"index":{"_id":"a"}}| | -> r/a:1,24 
{"index":{"_id":"a"}}|{} -> shape
{"index":{"_id":"a"}}|| -> shape
{"index":{"_id":"a"}}| -> shape
{"delete":{"_id":"a"}}|| -> r/a:0,23 shape
{"delete":{"_id":"a"}} -> shape
| -> shape
{| -> no json
[]| -> shape
{}| -> shape
{"create":{"_id":"a"}}| -> shape
{"delete":{"_id":"a"},"index":{"_id":"a"}}| -> shape
{"delete":{"_id":1}}| -> shape
{"delete":{"_index":"x"}}| -> shape
{"delete":{"_id":"a","_index":null}}| -> shape
{"delete":{"_id":"a","x":1}}| -> shape
"#;

#[test]
fn bulks(rt: HostRuntime) -> Result<(), Fail> {
    let alloc = rt.alloc();
    let r = text(alloc, "r")?;
    for line in BULKS.lines() {
        if !line.is_empty() {
            let (body, want) = line.split_once(" -> ").ok_or("items")?;
            let body = body.replace(alloc, "|", "\n")?;
            let found = bulk_text(alloc, Some(&r), body.as_str())?;
            assert_eq!(rt; found.as_str(), want, "{body}");
        }
    }
    let found = bulk_text(alloc, None, "{\"delete\":{\"_id\":\"a\"}}\n")?;
    assert_eq!(rt; found.as_str(), "shape");
    Ok(())
}

// What an action does, and where its document's line stands.
fn action_text(alloc: Global, action: &BulkAction) -> Result<String, Fail> {
    let (index, id) = (action.index.as_str(), action.id.as_str());
    Ok(match action.kind {
        ActionKind::Put(line) => {
            format!(in alloc; "{index}/{id} {}..{},{} ", line.from, line.to, action.next)?
        }
        ActionKind::Remove => format!(in alloc; "{index}/{id} goes,{} ", action.next)?,
    })
}

// The actions of a bulk up to its end or the first fault.
fn actions_text(alloc: Global, index: Option<&Text>, body: &str) -> Result<String, Fail> {
    let mut found = String::new(alloc);
    let mut at = 0;
    'items: for _ in 0..9 {
        match next_action(alloc, body.as_bytes(), at, index) {
            Ok(Some(action)) => {
                found.push_str(&action_text(alloc, &action)?)?;
                at = action.next;
            }
            Ok(None) => return Ok(found),
            Err(fault) => {
                found.push_str(word_of(&fault))?;
                return Ok(found);
            }
        }
    }
    Ok(found)
}

// A stroke stands for a line feed.
const ACTIONS: &str = r#"
 -> 
{"index":{"_id":"a"}}|{"n":1}|{"delete":{"_id":"b","_index":"s"}}| -> r/a 22..29,30 s/b goes,66 
{"delete":{"_id":"a"}}|{"index":{"_id":"a"}}|{|| -> r/a goes,23 r/a 45..46,47 shape
{"index":{"_id":"a"}}|{} -> shape
[| -> no json
"#;

#[test]
fn actions(rt: HostRuntime) -> Result<(), Fail> {
    let alloc = rt.alloc();
    let r = text(alloc, "r")?;
    for line in ACTIONS.lines() {
        if !line.is_empty() {
            let (body, want) = line.split_once(" -> ").ok_or("actions")?;
            let body = body.replace(alloc, "|", "\n")?;
            let found = actions_text(alloc, Some(&r), body.as_str())?;
            assert_eq!(rt; found.as_str(), want, "{body}");
        }
    }
    Ok(())
}

#[test]
fn data(rt: HostRuntime) -> Result<(), Fail> {
    let alloc = rt.alloc();
    assert!(rt; read_data(alloc, b"[1]")?.is_some());
    assert!(rt; read_data(alloc, b"[1")?.is_none());
    assert!(rt; read_data(alloc, b"\"\xff\"")?.is_none());
    Ok(())
}
