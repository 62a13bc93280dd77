//! The calls of `context_book`.
ghost use Rattle.std.specs.Prelude.{◌≡◌, ℕ, All, IfOk};
ghost use Rattle.context_book.specs.Books.{CanLend};

use crate::events::{moment, pits, word};
use crate::parts::{braces, doc_id, mapping_of_n};
use context_book::{ContextBook, LendFault, Refused, ShardView, View, Why};
use es_types::{Bound, Items, Moment, Row, Value};
use list_machine::docs;
use reader_gate::{Owner, make_reader};
use std::alloc::Global;
use std::process::Abort;
use std::sync::Arc;
use std::test::Fail;

// A document of that name and number.
fn row(alloc: Global, id: &str, n: i64) -> Result<Row, Fail> {
    Ok(Row {
        seq: 1,
        id: doc_id(alloc, id)?,
        source: braces(alloc)?,
        values: Items::of(vec![in alloc; Value::Long(n)]?),
    })
}

fn shard(alloc: Global) -> Result<ShardView, Fail> {
    let rows = vec![in alloc; row(alloc, "a", 7)?, row(alloc, "b", 5)?]?;
    Ok(ShardView::of_rows(alloc, &mapping_of_n(alloc)?, Items::of(rows))?)
}

#[test]
fn what_a_reader_sees(rt: HostRuntime) -> Result<(), Fail> {
    let alloc = rt.alloc();
    let shard = shard(alloc)?;
    assert_eq!(rt; shard.rows(), 2);
    assert_eq!(rt; shard.as_slice().len(), 2);
    let second = match shard.row_at(1) {
        Some(row) => row.id.text().as_str(),
        None => "",
    };
    assert_eq!(rt; second, "b");
    assert!(rt; shard.row_at(2).is_none());
    assert_eq!(rt; shard.bounds().rows, 2);
    let is_bounded = match shard.bounds().fields.as_slice() {
        [Bound::Longs { least, greatest }] => *least == 5 && *greatest == 7,
        _ => false,
    };
    assert!(rt; is_bounded);
    Ok(())
}

// The view of no shards.
fn view(alloc: Global) -> Result<Arc<View>, Fail> {
    let mapping = Arc::new(alloc, mapping_of_n(alloc)?)?;
    let view = View::make(docs(alloc)?, mapping, Items::of(Vec::new(alloc)));
    Ok(Arc::new(alloc, view)?)
}

fn owner(alloc: Global) -> Result<Owner<View>, Fail>
    ensures { IfOk result (λ owner. owner.lent ≡ 0) }
{
    match make_reader(alloc, view(alloc)?) {
        Ok(owner) => Ok(owner),
        Err(_) => Err("a reader")?,
    }
}

fn at(millis: u64) -> Moment {
    Moment::make(millis).unwrap_or(Moment::zero())
}

// A book that may have one live point in time, and has one up to the moment 10.
fn book_of_one(alloc: Global) -> Result<ContextBook, Fail>
    ensures limit { IfOk result (λ book. book.limit ≡ 1) }
    ensures number { IfOk result (λ book. All (λ context. context.number ≡ 3) book.contexts) }
    ensures lends { IfOk result (λ book. (number now : ℕ) → CanLend number now book.contexts) }
{
    let mut book = ContextBook::make(alloc, 1);
    match book.open_context(3, owner(alloc)?, 10, at(0)) {
        Ok(()) => Ok(book),
        Err(_) => Err("room")?,
    }
}

fn how_many(owners: Items<Owner<View>>) -> u64 {
    owners.as_slice().len() as u64
}

// What a line asks a book, which answers a number, or nothing where none is live: `find NUMBER`, the last moment;
// `touch NUMBER EXPIRY`, the new one; `remove NUMBER`, how often it is lent; `close NUMBER..` and `reap`, how many; `pop`, 1.
fn ask(alloc: Global, book: &mut ContextBook, line: &str) -> Result<Option<u64>, Fail> {
    let now = moment(line)?;
    let number = word(line, 2).parse::<u64>().unwrap_or(0);
    let expiry = word(line, 3).parse::<u64>().unwrap_or(0);
    match word(line, 1) {
        "find" => match book.find(number, now) {
            Ok(context) => Ok(Some(context.expiry)),
            Err(_) => Ok(None),
        },
        "touch" => match book.touch(number, now, expiry) {
            Ok(()) => Ok(Some(expiry)),
            Err(_) => Ok(None),
        },
        "remove" => match book.remove(number, now) {
            Ok(owner) => Ok(Some(owner.lent())),
            Err(_) => Ok(None),
        },
        "pop" => match book.pop() {
            Some(_) => Ok(Some(1)),
            None => Ok(None),
        },
        "reap" => Ok(Some(how_many(book.reap(now)?))),
        _ => Ok(Some(how_many(book.close(&pits(alloc, line)?, now)?))),
    }
}

// Each begins with the point in time 3, which is live up to the moment 10.
const CALLS: [&str; 4] = [
    "\
10 find 3 -> 10
11 find 3 -> missing
0 find 2 -> missing
10 touch 3 20 -> 20
20 touch 3 15 -> 15
21 touch 3 30 -> missing
20 find 3 -> 20
20 reap -> 0
21 close 2 3 -> 0
20 close 2 3 -> 1
20 close 2 3 -> 0
0 pop -> missing",
    "\
10 reap -> 0
11 reap -> 1
11 reap -> 0",
    "\
11 remove 3 -> missing
10 remove 3 -> 0
10 remove 3 -> missing",
    "\
0 pop -> 1
0 pop -> missing",
];

fn answers(rt: &impl Abort, alloc: Global, lines: &str) -> Result<(), Fail> {
    let mut book = book_of_one(alloc)?;
    for line in lines.lines() {
        let (asked, want) = line.split_once(" -> ").ok_or("an answer")?;
        let found = ask(alloc, &mut book, asked)?;
        assert_eq!(rt; found, want.parse::<u64>().ok(), "{asked}");
    }
    Ok(())
}

#[test]
fn contexts_by_their_numbers(rt: HostRuntime) -> Result<(), Fail> {
    for lines in CALLS {
        answers(&rt, rt.alloc(), lines)?;
    }
    Ok(())
}

// One more is refused with its owner while the one is live, and not after its last moment.
#[test]
fn one_too_many(rt: HostRuntime) -> Result<(), Fail> {
    let alloc = rt.alloc();
    let mut book = book_of_one(alloc)?;
    let Err(Refused { why, owner: back }) = book.open_context(4, owner(alloc)?, 60, at(10)) else {
        return Err("a refusal".into());
    };
    assert!(rt; matches!(why, Why::TooMany { limit: 1 }));
    assert_eq!(rt; back.lent(), 0);
    assert!(rt; book.open_context(4, back, 60, at(11)).is_ok());
    assert!(rt; book.find(4, at(60)).is_ok());
    Ok(())
}

#[test]
fn a_pass_is_lent(rt: HostRuntime) -> Result<(), Fail> {
    let mut book = book_of_one(rt.alloc())?;
    assert!(rt; matches!(book.lend(3, at(11)), Err(LendFault::Missing)));
    let pass = book.lend(3, at(10)).ok().ok_or("a pass")?;
    assert_eq!(rt; pass.body().index().text().as_str(), "docs");
    assert_eq!(rt; book.find(3, at(10)).ok().ok_or("one")?.owner.lent(), 1);
    assert!(rt; pass.leave().is_none());
    Ok(())
}
