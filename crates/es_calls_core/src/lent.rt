//! The calls that `list_machine` lends to the core and to what runs its plans.
ghost use Rattle.std.specs.Prelude.{◌≤◌, vec_len};

use crate::events::request;
use crate::parts::{braces, doc_id, mapping_of_n};
use crate::replies::said;
use es_types::{Copied, Items, Mapping, NoMemory, Op, Row};
use list_machine::{
    Answer, Reply, SearchRequest, ViewRef, answer, apply_ops, docs, enter, lasts_of, refused,
};
use std::alloc::Global;
use std::collections::BTreeSet;
use std::test::Fail;

fn put_op(alloc: Global, id: &str) -> Result<Op, Fail> {
    let id = doc_id(alloc, id)?;
    let source = braces(alloc)?;
    let values = Items::of(Vec::new(alloc));
    Ok(Op::Put { id, source, values })
}

// `+b` puts, and `a` removes.
fn op(alloc: Global, word: &str) -> Result<Op, Fail> {
    match word.strip_prefix("+") {
        Some(id) => put_op(alloc, id),
        None => Ok(Op::Remove {
            id: doc_id(alloc, word)?,
        }),
    }
}

fn ops(alloc: Global, line: &str) -> Result<Vec<Op>, Fail> {
    let mut ops = Vec::new(alloc);
    for word in line.split(' ') {
        ops.push(op(alloc, word)?)?;
    }
    Ok(ops)
}

// What operations make of no rows. The first has the number 7.
fn applied(alloc: Global, ops: Vec<Op>) -> Result<Vec<Row>, NoMemory>
    requires { vec_len ops ≤ 4 }
{
    let mut rows = Vec::with_capacity(alloc, 4)?;
    let lasts = lasts_of(alloc, &ops)?;
    apply_ops(&mut rows, 6, ops, lasts);
    Ok(rows)
}

// The first page of a view without shards. The request can be copied.
fn empty_page(alloc: Global) -> Result<Answer, Fail> {
    let view = ViewRef {
        index: &docs(alloc)?,
        mapping: &mapping_of_n(alloc)?,
        shards: &[],
    };
    let request = request(alloc, "", true)?;
    let _ = request.copy(alloc)?;
    Ok(answer(alloc, &view, &request, request.from as u64)?)
}

// How a search of an index is refused.
fn refusal(mapping: &Mapping, request: &SearchRequest) -> &'static str {
    match refused(mapping, request) {
        None => "not refused",
        Some(Reply::BadAfter) => "bad after",
        Some(_) => "another",
    }
}

#[test]
fn an_id_is_new_once(rt: HostRuntime) -> Result<(), Fail> {
    let alloc = rt.alloc();
    let mut ids = BTreeSet::new(alloc);
    let id = doc_id(alloc, "a")?;
    assert!(rt; enter(alloc, &mut ids, &id)?);
    assert!(rt; !enter(alloc, &mut ids, &id)?);
    Ok(())
}

#[test]
fn operations(rt: HostRuntime) -> Result<(), Fail> {
    let alloc = rt.alloc();
    let ops = ops(alloc, "+b +a +b a")?;
    assert!(rt; ops.len() <= 4);
    let rows = applied(alloc, ops)?;
    for row in rows.as_slice() {
        assert_eq!(rt; row.seq, 9);
    }
    assert_eq!(rt; rows.as_slice().len(), 1);
    Ok(())
}

#[test]
fn a_page_of_nothing(rt: HostRuntime) -> Result<(), Fail> {
    let alloc = rt.alloc();
    let page = said(alloc, Reply::Found(empty_page(alloc)?))?;
    assert_eq!(rt; page.as_str(), "0 of 0");
    Ok(())
}

// Of the place alone, one value to go on after fits.
#[test]
fn a_refused_search(rt: HostRuntime) -> Result<(), Fail> {
    let mapping = mapping_of_n(rt.alloc())?;
    for (line, want) in [("after=1", "not refused"), ("after=1,1", "bad after")] {
        let request = request(rt.alloc(), line, true)?;
        assert_eq!(rt; refusal(&mapping, &request), want);
    }
    Ok(())
}
