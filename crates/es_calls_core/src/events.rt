//! Events, as lines of text say them.
ghost use Rattle.std.specs.Prelude.{◌≡◌, ◌≤◌, IfOk, IfSome, length};
ghost use Rattle.slice_rule.specs.Parts.{IsSlice};
ghost use Rattle.list_machine.specs.Run.{IsBounded, IsWithinLimits, PutsObject};

use crate::parts::{doc_id, document, index, mapping_of_n, text};
use es_query::Query;
use es_sort::{Keys, SortBy, SortKey, SortSpec};
use es_types::{Items, KeepAlive, Moment, NoMemory, Value};
use list_machine::{Change, Event, SearchRequest, Target, Which};
use slice_rule::Slice;
use std::alloc::Global;
use std::test::Fail;

// A word of a line, counted from 0. It is empty where the line has no such word.
pub(crate) fn word(line: &str, at: usize) -> &str {
    let mut left = at;
    for word in line.split(' ') {
        if left == 0 {
            return word;
        }
        left -= 1;
    }
    ""
}

// What a line says of a name, as `5m` of `keep=5m`. It is empty where the line says nothing of it.
fn given<'a>(line: &'a str, name: &str) -> &'a str {
    for word in line.split(' ') {
        if let Some((key, value)) = word.split_once('=') {
            if key == name {
                return value;
            }
        }
    }
    ""
}

pub(crate) fn moment(line: &str) -> Result<Moment, Fail> {
    let millis = word(line, 0).parse::<u64>()?;
    Ok(Moment::make(millis).ok_or("a moment")?)
}

fn create(alloc: Global, line: &str) -> Result<Event, Fail>
    ensures object { IfOk result PutsObject }
    ensures bounded { IfOk result IsBounded }
{
    let index = index(alloc, word(line, 2))?;
    let mapping = mapping_of_n(alloc)?;
    Ok(Event::Create {
        index,
        shards: 5,
        mapping,
    })
}

fn put(alloc: Global, line: &str) -> Result<Event, Fail>
    ensures object { IfOk result PutsObject }
    ensures bounded { IfOk result IsBounded }
{
    let index = index(alloc, word(line, 2))?;
    let id = doc_id(alloc, word(line, 3))?;
    let doc = document(alloc, word(line, 4))?;
    Ok(Event::Write {
        index,
        id,
        change: Change::Put(doc),
    })
}

fn remove(alloc: Global, line: &str) -> Result<Event, Fail>
    ensures object { IfOk result PutsObject }
    ensures bounded { IfOk result IsBounded }
{
    let index = index(alloc, word(line, 2))?;
    let id = doc_id(alloc, word(line, 3))?;
    Ok(Event::Write {
        index,
        id,
        change: Change::Remove,
    })
}

fn publish(alloc: Global, line: &str) -> Result<Event, Fail>
    ensures object { IfOk result PutsObject }
    ensures bounded { IfOk result IsBounded }
{
    let shard = word(line, 3).parse::<u32>()?;
    let upto = word(line, 4).parse::<u64>()?;
    let index = index(alloc, word(line, 2))?;
    Ok(Event::Publish { index, shard, upto })
}

fn open(alloc: Global, line: &str) -> Result<Event, Fail>
    ensures object { IfOk result PutsObject }
    ensures bounded { IfOk result IsBounded }
{
    let keep = keep(word(line, 3))?.ok_or("a time")?;
    let index = index(alloc, word(line, 2))?;
    Ok(Event::OpenPit { index, keep })
}

// The numbers stand from the third word on.
pub(crate) fn pits(alloc: Global, line: &str) -> Result<Which, Fail> {
    let mut numbers = Vec::new(alloc);
    for word in line.split(' ').skip(2) {
        numbers.push(word.parse::<u64>()?)?;
    }
    Ok(Which::Pits(Items::of(numbers)))
}

fn seal(alloc: Global, line: &str) -> Result<Event, Fail>
    ensures object { IfOk result PutsObject }
    ensures bounded { IfOk result IsBounded }
{
    let index = index(alloc, word(line, 2))?;
    Ok(Event::Seal { index })
}

fn keep(time: &str) -> Result<Option<KeepAlive>, Fail> {
    if time.is_empty() {
        return Ok(None);
    }
    Ok(Some(KeepAlive::read(time.as_bytes()).ok().ok_or("a time")?))
}

// A number of a slice and how many there are, as `0/2`.
fn slice(numbers: &str) -> Result<Option<Slice>, Fail>
    ensures { IfOk result (λ slice. IfSome slice IsSlice) }
{
    match numbers.split_once('/') {
        None => Ok(None),
        Some((id, max)) => {
            let slice = Slice::make(id.parse::<u32>()?, max.parse::<u32>()?);
            Ok(Some(slice.ok().ok_or("a slice")?))
        }
    }
}

// A word as a whole number, or else as a text.
fn value(alloc: Global, word: &str) -> Result<Value, NoMemory> {
    match word.parse::<i64>() {
        Ok(number) => Ok(Value::Long(number)),
        Err(_) => Ok(Value::Key(text(alloc, word)?)),
    }
}

// The values to go on after, as `1` or `1,x`.
fn after(alloc: Global, words: &str) -> Result<Option<Keys>, NoMemory> {
    if words.is_empty() {
        return Ok(None);
    }
    let mut values = Vec::new(alloc);
    for word in words.split(',') {
        values.push(value(alloc, word)?)?;
    }
    let values = Items::of(values);
    Ok(Some(Keys { values }))
}

// A field and the value that it has to have, as `n/1`, or all documents.
fn query(alloc: Global, words: &str) -> Result<Query, NoMemory> {
    match words.split_once('/') {
        None => Ok(Query::All),
        Some((field, word)) => {
            let field = text(alloc, field)?;
            let value = value(alloc, word)?;
            Ok(Query::Term { field, value })
        }
    }
}

// A field and its direction, as `n/desc`, or no field.
fn keys(alloc: Global, words: &str) -> Result<Vec<SortKey>, NoMemory>
    ensures { IfOk result (λ keys. length keys.items ≤ 1) }
{
    match words.split_once('/') {
        None => Ok(Vec::new(alloc)),
        Some((field, direction)) => {
            let key = SortKey {
                by: SortBy::Field(text(alloc, field)?),
                down: direction == "desc",
                missing_first: false,
            };
            Ok(vec![in alloc; key]?)
        }
    }
}

// How many hits a search by a field, if it is one, leaves out.
fn left_out(by: &str) -> u32
    ensures { result ≤ 1 }
{
    if by.is_empty() { 0 } else { 1 }
}

// How many shards such a search brings together at a time.
fn batch(by: &str) -> u32
    ensures least { 2 ≤ result }
    ensures most { result ≤ 512 }
{
    if by.is_empty() { 512 } else { 2 }
}

// What a search asks for: two documents of those that match (`find=n/1`), by a field (`sort=n/asc`), after some values
// (`after=1`), of a slice (`slice=0/2`). By a field the first one is left out, and two shards are brought together at a time.
pub(crate) fn request(alloc: Global, line: &str, show_place: bool) -> Result<SearchRequest, Fail>
    ensures { IfOk result IsWithinLimits }
{
    let slice = slice(given(line, "slice"))?;
    let by = given(line, "sort");
    let from = left_out(by);
    let batch = batch(by);
    let keys = Items::of(keys(alloc, by)?);
    let after = after(alloc, given(line, "after"))?;
    let query = query(alloc, given(line, "find"))?;
    Ok(SearchRequest {
        query,
        sort: SortSpec { keys, show_place },
        from,
        size: 2,
        after,
        slice,
        batch,
    })
}

// The point in time of that number, or else an index.
fn target(alloc: Global, line: &str) -> Result<Target, Fail> {
    let keep = keep(given(line, "keep"))?;
    match word(line, 2).parse::<u64>() {
        Ok(number) => Ok(Target::Pit { number, keep }),
        Err(_) => Ok(Target::Index(index(alloc, word(line, 2))?)),
    }
}

// A search of a point in time shows the places.
fn search(alloc: Global, line: &str) -> Result<Event, Fail>
    ensures object { IfOk result PutsObject }
    ensures bounded { IfOk result IsBounded }
{
    let target = target(alloc, line)?;
    let show_place = matches!(&target, Target::Pit { .. });
    let request = request(alloc, line, show_place)?;
    Ok(Event::Search { target, request })
}

// What a line asks for, after its milliseconds. An index is made with five shards and the whole number `n`:
// create INDEX, put INDEX ID [n=N], remove INDEX ID, publish INDEX SHARD UPTO, seal INDEX, open INDEX TIME, close PIT..,
// search PIT [keep=TIME] [..], search INDEX [..], quiet [end]. `request` says what else a search may say.
pub(crate) fn event(alloc: Global, line: &str) -> Result<Event, Fail>
    ensures object { IfOk result PutsObject }
    ensures bounded { IfOk result IsBounded }
{
    match word(line, 1) {
        "create" => create(alloc, line),
        "put" => put(alloc, line),
        "remove" => remove(alloc, line),
        "publish" => publish(alloc, line),
        "seal" => seal(alloc, line),
        "open" => open(alloc, line),
        "close" => Ok(Event::Close {
            which: pits(alloc, line)?,
        }),
        "search" => search(alloc, line),
        "quiet" => Ok(Event::Quiet),
        _ => Err("an event")?,
    }
}
