//! The calls of `reply_json`.
use crate::given::{bytes, doc_id, index, text};
use es_types::{Bytes, DocCause, DocFault, Items, LimitName, NoMemory, Value};
use list_machine::{Answer, Counts, Hit, Reply, Wrote};
use reply_json::{
    BulkLine, BulkOutcome, Response, RestFault, RouteName, closed_status, no_memory_text, print,
    wrote_status,
};
use std::alloc::Global;
use std::process::Abort;
use std::test::Fail;

// The end of a first line.
fn line_of(status: u16) -> &'static str {
    match status {
        200 => "200 OK",
        201 => "201 Created",
        400 => "400 Bad Request",
        404 => "404 Not Found",
        429 => "429 Too Many Requests",
        501 => "501 Not Implemented",
        503 => "503 Service Unavailable",
        _ => "",
    }
}

// The response with that status and that body.
fn whole(alloc: Global, status: u16, body: &str) -> Result<String, NoMemory> {
    let line = line_of(status);
    let len = body.len();
    format!(in alloc;
        "HTTP/1.1 {line}\r\ncontent-type: application/json\r\ncontent-length: {len}\r\n\r\n{body}"
    )
}

// The drop of a response stands here alone, since a proof has it again at each return of a function that owns one.
fn printed(alloc: Global, response: Response, last: bool) -> Result<Bytes, NoMemory> {
    print(alloc, &response, last)
}

fn prints(
    rt: &impl Abort,
    alloc: Global,
    response: Response,
    status: u16,
    body: &str,
) -> Result<(), Fail> {
    let found = printed(alloc, response, false)?;
    let want = whole(alloc, status, body)?;
    assert_eq!(rt; found.as_slice(), want.as_bytes(), "{body}");
    Ok(())
}

fn reply(route: RouteName, reply: Reply, status: u16) -> Response {
    Response::Json {
        status,
        reply,
        route,
    }
}

fn opening() -> Response {
    reply(RouteName::OpenPit, Reply::Opened { number: 1 }, 200)
}

#[test]
fn an_opening(rt: HostRuntime) -> Result<(), Fail> {
    let alloc = rt.alloc();
    prints(&rt, alloc, opening(), 200, "{\"id\":\"UAAAAAAAAAAB\"}")?;
    let last = printed(alloc, opening(), true)?;
    let want =
        "HTTP/1.1 200 OK\r\ncontent-type: application/json\r\ncontent-length: 21\r\nconnection: close\r\n\r\n{\"id\":\"UAAAAAAAAAAB\"}";
    assert_eq!(rt; last.as_slice(), want.as_bytes());
    Ok(())
}

#[test]
fn closings(rt: HostRuntime) -> Result<(), Fail> {
    let alloc = rt.alloc();
    for (freed, want) in [
        (0, "{\"succeeded\":true,\"num_freed\":0}"),
        (2, "{\"succeeded\":true,\"num_freed\":2}"),
        (
            18446744073709551615,
            "{\"succeeded\":true,\"num_freed\":18446744073709551615}",
        ),
    ] {
        let response = reply(
            RouteName::ClosePit,
            Reply::Closed { freed },
            closed_status(freed),
        );
        let status = if freed == 0 { 404 } else { 200 };
        prints(&rt, alloc, response, status, want)?;
    }
    Ok(())
}

#[test]
fn a_new_index(rt: HostRuntime) -> Result<(), Fail> {
    let alloc = rt.alloc();
    let route = RouteName::Create {
        index: index(alloc, "t")?,
    };
    let body = "{\"acknowledged\":true,\"shards_acknowledged\":true,\"index\":\"t\"}";
    prints(&rt, alloc, reply(route, Reply::Done, 200), 200, body)
}

#[test]
fn a_refresh(rt: HostRuntime) -> Result<(), Fail> {
    let alloc = rt.alloc();
    let sealed = Reply::Sealed(Items::of(vec![in alloc; 0, 7]?));
    let body = "{\"_shards\":{\"total\":2,\"successful\":2,\"failed\":0}}";
    let response = reply(RouteName::Refresh, sealed, 200);
    prints(&rt, alloc, response, 200, body)?;
    // A reply that the route does not give has no body.
    let response = reply(RouteName::Refresh, Reply::Done, 200);
    prints(&rt, alloc, response, 200, "")
}

// What is said of a document where this was done with it.
fn says(
    rt: &impl Abort,
    alloc: Global,
    remove: bool,
    did: Wrote,
    status: u16,
    word: &str,
) -> Result<(), Fail> {
    let body = format!(in alloc;
        "{{\"_index\":\"t\",\"_id\":\"a\",\"result\":\"{word}\",\"_seq_no\":7}}"
    )?;
    let index = index(alloc, "t")?;
    let id = doc_id(alloc, "a")?;
    let route = if remove {
        RouteName::Remove { index, id }
    } else {
        RouteName::Put { index, id }
    };
    let wrote = Reply::Wrote {
        result: did,
        seq: 8,
    };
    let response = reply(route, wrote, wrote_status(did));
    prints(rt, alloc, response, status, body.as_str())
}

#[test]
fn writes(rt: HostRuntime) -> Result<(), Fail> {
    let alloc = rt.alloc();
    says(&rt, alloc, false, Wrote::Created, 201, "created")?;
    says(&rt, alloc, false, Wrote::Updated, 200, "updated")?;
    says(&rt, alloc, true, Wrote::Deleted, 200, "deleted")?;
    says(&rt, alloc, true, Wrote::NotFound, 404, "not_found")
}

fn hit(alloc: Global, id: &str, source: &[u8], shown: Vec<Value>) -> Result<Hit, Fail> {
    Ok(Hit {
        index: index(alloc, "i")?,
        id: doc_id(alloc, id)?,
        source: bytes(alloc, source)?,
        shown: Items::of(shown),
    })
}

fn placed(alloc: Global, place: i64) -> Result<Vec<Value>, Fail> {
    Ok(vec![in alloc; Value::Long(place)]?)
}

fn two_hits(alloc: Global) -> Result<Answer, Fail> {
    let first = hit(alloc, "a", b"{\"n\":1}", placed(alloc, 0)?)?;
    let second = hit(alloc, "b", b"{\"n\":2}", placed(alloc, -1)?)?;
    Ok(Answer {
        counts: Counts {
            total: 2,
            successful: 2,
            skipped: 0,
            failed: 0,
        },
        phases: 1,
        total: 2,
        hits: Items::of(vec![in alloc; first, second]?),
    })
}

#[test]
fn a_page(rt: HostRuntime) -> Result<(), Fail> {
    let alloc = rt.alloc();
    let found = Reply::Found(two_hits(alloc)?);
    let response = reply(RouteName::Search { pit: Some(1) }, found, 200);
    let body =
        "{\"pit_id\":\"UAAAAAAAAAAB\",\"took\":0,\"timed_out\":false,\"_shards\":{\"total\":2,\"successful\":2,\"skipped\":0,\"failed\":0},\"hits\":{\"total\":{\"value\":2,\"relation\":\"eq\"},\"max_score\":null,\"hits\":[{\"_index\":\"i\",\"_id\":\"a\",\"_score\":null,\"_source\":{\"n\":1},\"sort\":[0]},{\"_index\":\"i\",\"_id\":\"b\",\"_score\":null,\"_source\":{\"n\":2},\"sort\":[-1]}]}}";
    prints(&rt, alloc, response, 200, body)
}

#[test]
fn a_page_of_an_index(rt: HostRuntime) -> Result<(), Fail> {
    let alloc = rt.alloc();
    let first = hit(alloc, "a", b"{}", Vec::new(alloc))?;
    let found = Reply::Found(Answer {
        counts: Counts {
            total: 3,
            successful: 3,
            skipped: 1,
            failed: 0,
        },
        phases: 2,
        total: 1,
        hits: Items::of(vec![in alloc; first]?),
    });
    let response = reply(RouteName::Search { pit: None }, found, 200);
    let body =
        "{\"took\":0,\"timed_out\":false,\"num_reduce_phases\":2,\"_shards\":{\"total\":3,\"successful\":3,\"skipped\":1,\"failed\":0},\"hits\":{\"total\":{\"value\":1,\"relation\":\"eq\"},\"max_score\":null,\"hits\":[{\"_index\":\"i\",\"_id\":\"a\",\"_score\":null,\"_source\":{}}]}}";
    prints(&rt, alloc, response, 200, body)
}

fn wrote(alloc: Global, remove: bool, id: &str, did: Wrote, seq: u64) -> Result<BulkLine, Fail> {
    Ok(BulkLine {
        remove,
        index: text(alloc, "t")?,
        id: text(alloc, id)?,
        outcome: BulkOutcome::Wrote { result: did, seq },
    })
}

fn refused(alloc: Global) -> Result<BulkLine, Fail> {
    Ok(BulkLine {
        remove: false,
        index: text(alloc, "t")?,
        id: text(alloc, "b")?,
        outcome: BulkOutcome::Fault(RestFault::BadDoc(DocFault {
            field: 0,
            cause: DocCause::Kind,
        })),
    })
}

#[test]
fn a_bulk_of_none(rt: HostRuntime) -> Result<(), Fail> {
    let alloc = rt.alloc();
    let response = Response::Bulk(Items::of(Vec::new(alloc)));
    let body = "{\"took\":0,\"errors\":false,\"items\":[]}";
    prints(&rt, alloc, response, 200, body)
}

#[test]
fn a_bulk_with_a_refused_item(rt: HostRuntime) -> Result<(), Fail> {
    let alloc = rt.alloc();
    let first = wrote(alloc, false, "a", Wrote::Created, 1)?;
    let second = refused(alloc)?;
    let response = Response::Bulk(Items::of(vec![in alloc; first, second]?));
    let body =
        "{\"took\":0,\"errors\":true,\"items\":[{\"index\":{\"_index\":\"t\",\"_id\":\"a\",\"result\":\"created\",\"_seq_no\":0,\"status\":201}},{\"index\":{\"_index\":\"t\",\"_id\":\"b\",\"status\":400,\"error\":{\"type\":\"document_parsing_exception\",\"reason\":\"field [0] has a value of another kind\"}}}]}";
    prints(&rt, alloc, response, 200, body)
}

#[test]
fn a_bulk_carried_out(rt: HostRuntime) -> Result<(), Fail> {
    let alloc = rt.alloc();
    let first = wrote(alloc, true, "a", Wrote::Deleted, 3)?;
    let second = wrote(alloc, true, "\"", Wrote::NotFound, 4)?;
    let response = Response::Bulk(Items::of(vec![in alloc; first, second]?));
    let body =
        "{\"took\":0,\"errors\":false,\"items\":[{\"delete\":{\"_index\":\"t\",\"_id\":\"a\",\"result\":\"deleted\",\"_seq_no\":2,\"status\":200}},{\"delete\":{\"_index\":\"t\",\"_id\":\"\\\"\",\"result\":\"not_found\",\"_seq_no\":3,\"status\":404}}]}";
    prints(&rt, alloc, response, 200, body)
}

// A fault by its name, and what it is about.
fn fault(alloc: Global, name: &str, about: &str) -> Result<RestFault, Fail> {
    match name {
        "parameter" => Ok(RestFault::BadParam(text(alloc, about)?)),
        "no-index" => Ok(RestFault::NoIndex(text(alloc, about)?)),
        "exists" => Ok(RestFault::Exists(text(alloc, about)?)),
        "no-context" => Ok(RestFault::NoContext(text(alloc, about)?)),
        "limit" => Ok(RestFault::Limit(limit(about)?)),
        "kind" => Ok(bad_doc(12, DocCause::Kind)),
        "long" => Ok(bad_doc(0, DocCause::TooLong)),
        "too-many" => Ok(RestFault::TooMany(2)),
        _ => plain(name),
    }
}

// A fault that is about nothing else.
fn plain(name: &str) -> Result<RestFault, Fail> {
    Ok(match name {
        "query" => RestFault::BadQuery,
        "sort" => RestFault::BadSort,
        "after" => RestFault::BadAfter,
        "body" => RestFault::BadBody,
        "spent" => RestFault::Spent,
        "full" => RestFault::ShardFull,
        "memory" => RestFault::NoMemory,
        "not-built" => RestFault::NotBuilt,
        "id" => RestFault::BadId,
        _ => Err("a fault")?,
    })
}

fn bad_doc(field: u32, cause: DocCause) -> RestFault {
    RestFault::BadDoc(DocFault { field, cause })
}

fn limit(name: &str) -> Result<LimitName, Fail> {
    Ok(match name {
        "moment" => LimitName::Moment,
        "index" => LimitName::Index,
        "id" => LimitName::Id,
        "shards" => LimitName::Shards,
        "fields" => LimitName::Fields,
        "keep_alive" => LimitName::KeepAlive,
        "batch" => LimitName::Batch,
        "pit" => LimitName::Pit,
        "from" => LimitName::From,
        "window" => LimitName::Window,
        "slice" => LimitName::Slice,
        "sort" => LimitName::Sort,
        _ => Err("a limit")?,
    })
}

// Each line has a fault and what it is about, and the status, type and reason of its response as JSON writes them.
const FAULTS: &str = r#"
parameter "q -> 400 illegal_argument_exception: bad parameter [\"q]
limit moment -> 400 illegal_argument_exception: limit [moment]
limit index -> 400 illegal_argument_exception: limit [index]
limit id -> 400 illegal_argument_exception: limit [id]
limit shards -> 400 illegal_argument_exception: limit [shards]
limit fields -> 400 illegal_argument_exception: limit [fields]
limit keep_alive -> 400 illegal_argument_exception: limit [keep_alive]
limit batch -> 400 illegal_argument_exception: limit [batch]
limit pit -> 400 illegal_argument_exception: limit [pit]
limit from -> 400 illegal_argument_exception: limit [from]
limit window -> 400 illegal_argument_exception: limit [window]
limit slice -> 400 illegal_argument_exception: limit [slice]
limit sort -> 400 illegal_argument_exception: limit [sort]
query  -> 400 query_shard_exception: a query value of another kind
sort  -> 400 query_shard_exception: no mapping for a sort field
after  -> 400 illegal_argument_exception: search_after does not fit the sort
id  -> 400 illegal_argument_exception: bad id
body  -> 400 parsing_exception: bad body
kind  -> 400 document_parsing_exception: field [12] has a value of another kind
long  -> 400 document_parsing_exception: field [0] has a value that is too long
no-index t -> 404 index_not_found_exception: no such index [t]
exists t -> 400 resource_already_exists_exception: index [t] exists
no-context x -> 404 search_context_missing_exception: no context [x]
spent  -> 429 history_full_exception: history is full
too-many  -> 429 too_many_contexts_exception: limit [2]
full  -> 429 shard_full_exception: shard is full
memory  -> 503 no_memory_exception: no memory
not-built  -> 501 not_built_exception: not built
"#;

// The text of a response that refuses a request for this.
fn refusal(alloc: Global, status: u16, said: &str) -> Result<String, Fail> {
    let (kind, reason) = said.split_once(": ").ok_or("a type")?;
    let cause = format!(in alloc; "\"type\":\"{kind}\",\"reason\":\"{reason}\"")?;
    let body = format!(in alloc;
        "{{\"error\":{{\"root_cause\":[{{{cause}}}],{cause}}},\"status\":{status}}}"
    )?;
    Ok(whole(alloc, status, body.as_str())?)
}

#[test]
fn refusals(rt: HostRuntime) -> Result<(), Fail> {
    let alloc = rt.alloc();
    for line in FAULTS.lines() {
        if !line.is_empty() {
            let (refused, said) = line.split_once(" -> ").ok_or("a response")?;
            let (name, about) = refused.split_once(' ').ok_or("a fault")?;
            let (status, said) = said.split_once(' ').ok_or("a status")?;
            let status = status.parse::<u16>().ok().ok_or("a status")?;
            let want = refusal(alloc, status, said)?;
            let fault = fault(alloc, name, about)?;
            let found = printed(alloc, Response::Fault(fault), false)?;
            assert_eq!(rt; found.as_slice(), want.as_bytes(), "{line}");
        }
    }
    Ok(())
}

#[test]
fn a_refusal_that_ends_its_connection(rt: HostRuntime) -> Result<(), Fail> {
    let alloc = rt.alloc();
    let found = printed(alloc, Response::Fault(RestFault::TooMany(500)), true)?;
    let want =
        "HTTP/1.1 429 Too Many Requests\r\ncontent-type: application/json\r\ncontent-length: 161\r\nconnection: close\r\n\r\n{\"error\":{\"root_cause\":[{\"type\":\"too_many_contexts_exception\",\"reason\":\"limit [500]\"}],\"type\":\"too_many_contexts_exception\",\"reason\":\"limit [500]\"},\"status\":429}";
    assert_eq!(rt; found.as_slice(), want.as_bytes());
    Ok(())
}

#[test]
fn without_memory(rt: HostRuntime) -> Result<(), Fail> {
    let alloc = rt.alloc();
    let kept = printed(alloc, Response::Fault(RestFault::NoMemory), false)?;
    assert_eq!(rt; no_memory_text(false), kept.as_slice());
    let last = printed(alloc, Response::Fault(RestFault::NoMemory), true)?;
    assert_eq!(rt; no_memory_text(true), last.as_slice());
    Ok(())
}
