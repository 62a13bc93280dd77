//! The body of a bulk.
ghost use Rattle.std.specs.Prelude.{◌≡◌, ◌+◌, ◌<◌, ◌≤◌, ◌==◌, length, position, option_map, IfOk, IfSome};
ghost use Rattle.serde_json.specs.View.{view};
ghost use Rattle.es_types.specs.Fail.{Answers};
ghost use Rattle.doc_json.specs.Bulks.{KindLiesIn, LiesIn, LineLiesIn, action_at, change_of, index_in, item_at, item_of, kind_at, line_at, target_of, text_of, verb_of};

use crate::fault::BodyFault;
use crate::value::{is_form, only_member, read_data};
use es_types::{Bytes, Fail, NoMemory, Text};
use serde_json::Value;
use std::alloc::Global;

/// What an item of a bulk does to a document.
#[derive(Drop)]
pub enum BulkChange {
    /// The document's line, which isn't read yet.
    Put(Bytes),
    Remove,
}

/// An item of a bulk. Neither the name of its index nor its id is judged.
#[derive(Drop)]
pub struct BulkItem {
    pub index: Text,
    pub id: Text,
    pub change: BulkChange,
    /// Where the next item begins in the body.
    pub next: usize,
}

/// Where a line stands in a body: from its first byte up to its line feed.
#[derive(Clone, Copy)]
pub struct Line {
    pub from: usize,
    pub to: usize,
}

impl Line {
    /// The bytes of the line.
    pub fn of(self, body: &[u8]) -> &[u8]
        requires { LineLiesIn body.now self }
        ensures { result.now ≡ text_of body.now self }
    {
        &body[self.from..self.to]
    }
}

/// What an action of a bulk does to a document.
#[derive(Clone, Copy)]
pub enum ActionKind {
    /// The document's line.
    Put(Line),
    Remove,
}

/// An action of a bulk, with its document's line where that stands in the body. Neither the name of its index nor its id
/// is judged.
#[derive(Drop)]
pub struct BulkAction {
    pub index: Text,
    pub id: Text,
    pub kind: ActionKind,
    /// Where the next item begins in the body.
    pub next: usize,
}

/// The item of a bulk that begins there, unless the body ends there. An item that names no index is of the one that is
/// handed in. Each line ends with a line feed, and none is empty.
///
/// Looks at the lines of this item alone.
#[tactic(auto, unfolding(crate::specs::Bulks::item_at))]
pub fn next_bulk(
    alloc: Global,
    body: &[u8],
    at: usize,
    index: Option<&Text>,
) -> Result<Option<BulkItem>, Fail<BodyFault>>
    requires { at ≤ length body.now }
    ensures answer { Answers result (item_at (option_map (λ name. name.now) index.entry) body.now at) }
    ensures onward { IfOk result (λ found. IfSome found
        (λ item. (at < item.next) × (item.next ≤ length body.now))) }
{
    match next_action(alloc, body, at, index)? {
        Some(action) => Ok(Some(item_of(alloc, body, action)?)),
        None => Ok(None),
    }
}

/// The action of a bulk that begins there, as `next_bulk` has it, with the place of its document's line in place of a copy.
#[tactic(auto, unfolding(crate::specs::Bulks::action_at))]
pub fn next_action(
    alloc: Global,
    body: &[u8],
    at: usize,
    index: Option<&Text>,
) -> Result<Option<BulkAction>, Fail<BodyFault>>
    requires { at ≤ length body.now }
    ensures answer { Answers result (action_at (option_map (λ name. name.now) index.entry) body.now at) }
    ensures onward { IfOk result (λ found. IfSome found
        (λ action. (at < action.next) × (action.next ≤ length body.now))) }
    ensures within { IfOk result (λ found. IfSome found (LiesIn body.now)) }
{
    if at == body.len() {
        return Ok(None);
    }
    let Some(line) = line_at(body, at) else {
        return Err(Fail::Is(BodyFault::Shape));
    };
    let Some(value) = read_data(alloc, line)? else {
        return Err(Fail::Is(BodyFault::NotJson));
    };
    let Some((puts, index, id)) = target_of(&value, index) else {
        return Err(Fail::Is(BodyFault::Shape));
    };
    let Some((kind, next)) = kind_at(puts, body, at + line.len() + 1) else {
        return Err(Fail::Is(BodyFault::Shape));
    };
    Ok(Some(BulkAction {
        index: text(alloc, index)?,
        id: text(alloc, id)?,
        kind,
        next,
    }))
}

// The item that an action is, with a copy of its document's line.
fn item_of(alloc: Global, body: &[u8], action: BulkAction) -> Result<BulkItem, NoMemory>
    requires { LiesIn body.now action }
    ensures { IfOk result (λ item. item ≡ item_of body.now action) }
{
    let change = change_of(alloc, body, action.kind)?;
    let BulkAction {
        index,
        id,
        kind: _,
        next,
    } = action;
    Ok(BulkItem {
        index,
        id,
        change,
        next,
    })
}

fn change_of(alloc: Global, body: &[u8], kind: ActionKind) -> Result<BulkChange, NoMemory>
    requires { KindLiesIn body.now kind }
    ensures { IfOk result (λ change. change ≡ change_of body.now kind) }
{
    match kind {
        ActionKind::Put(line) => {
            let document = Vec::from_slice(alloc, line.of(body))?;
            Ok(BulkChange::Put(Bytes::of(document)))
        }
        ActionKind::Remove => Ok(BulkChange::Remove),
    }
}

// The line up to the next line feed, where there is one and the line isn't empty.
#[tactic(auto, unfolding(crate::specs::Bulks::line_at))]
fn line_at(body: &[u8], at: usize) -> Option<&[u8]>
    requires { at ≤ length body.now }
    ensures line { option_map (λ line. line.now) result ≡ line_at body.now at }
    ensures within { IfSome result (λ line. at + length line.now < length body.now) }
{
    let (_, rest) = body.split_at(at);
    match line_end(rest) {
        Some(len) => { if len == 0 { None } else { Some(&rest[..len]) } }
        None => None,
    }
}

fn line_end(bytes: &[u8]) -> Option<usize>
    ensures place { result ≡ position (λ b. b == 10) bytes.now }
    ensures within { IfSome result (λ len. len < length bytes.now) }
{
    bytes.iter().position(|b| *b == b'\n')
}

// Whether a line puts a document or removes one, in which index, and of which id.
#[tactic(auto, unfolding(crate::specs::Bulks::target_of))]
fn target_of<'v>(value: &'v Value, index: Option<&'v Text>) -> Option<(bool, &'v str, &'v str)>
    ensures { option_map (λ a. (a.0, a.1.now, a.2.now)) result
        ≡ target_of (option_map (λ name. name.now) index.entry) (view value.now) }
{
    let (puts, target) = verb_of(value)?;
    if !is_form(target, &["_index", "_id"]) {
        return None;
    }
    let id = target.get("_id")?.as_str()?;
    Some((puts, index_in(index, target.get("_index"))?, id))
}

#[tactic(auto, unfolding(crate::specs::Bulks::verb_of))]
fn verb_of(value: &Value) -> Option<(bool, &Value)>
    ensures { option_map (λ verb. (verb.0, view verb.1.now)) result ≡ verb_of (view value.now) }
{
    match only_member(value, "index") {
        Some(target) => Some((true, target)),
        None => match only_member(value, "delete") {
            Some(target) => Some((false, target)),
            None => None,
        },
    }
}

fn index_in<'v>(given: Option<&'v Text>, named: Option<&'v Value>) -> Option<&'v str>
    ensures { option_map (λ name. name.now) result
        ≡ index_in (option_map (λ name. name.now) given.entry) (option_map (λ v. view v.now) named.entry) }
{
    match named {
        Some(name) => name.as_str(),
        None => match given {
            Some(name) => Some(name.as_str()),
            None => None,
        },
    }
}

// What is done after the action line, and where the next item begins.
#[tactic(auto, unfolding(crate::specs::Bulks::kind_at))]
fn kind_at(puts: bool, body: &[u8], at: usize) -> Option<(ActionKind, usize)>
    requires { at ≤ length body.now }
    ensures kind { result ≡ kind_at puts body.now at }
    ensures onward { IfSome result (λ found. (at ≤ found.1) × (found.1 ≤ length body.now)) }
    ensures within { IfSome result (λ found. KindLiesIn body.now found.0) }
{
    if !puts {
        return Some((ActionKind::Remove, at));
    }
    let to = at + line_at(body, at)?.len();
    Some((ActionKind::Put(Line { from: at, to }), to + 1))
}

fn text(alloc: Global, name: &str) -> Result<Text, NoMemory>
    ensures { IfOk result (λ text. text ≡ name.now) }
{
    Ok(Text::of(String::from_str(alloc, name)?))
}
