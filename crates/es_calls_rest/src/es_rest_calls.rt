//! The calls of `es_rest`.
use crate::given::bytes;
use es_outside::{MemSink, MemSource, Pair};
use es_rest::{Ask, route};
use es_types::{Items, LimitName, NoMemory};
use http_wire::{Buf, Request, next_request};
use list_machine::Target;
use reply_json::RestFault;
use std::alloc::Global;
use std::test::Fail;

// The request that these bytes are.
fn request(alloc: Global, stream: &[u8]) -> Result<Request, Fail> {
    let mut source = MemSource::make(bytes(alloc, stream)?, 4096, Items::of(Vec::new(alloc)));
    let mut sink = MemSink::make(alloc, 0, 1, Items::of(Vec::new(alloc)))?;
    let mut link = Pair::make(&mut source, &mut sink);
    let mut buf = Buf::make(alloc)?;
    match next_request(alloc, &mut link, &mut buf) {
        Ok(Some(request)) => Ok(request),
        _ => Err("a request")?,
    }
}

// What a request asks for: the event, and for a search what is searched.
fn ask_text(alloc: Global, ask: &Ask) -> Result<String, NoMemory> {
    let word = match ask {
        Ask::Create { index: _, spec: _ } => "create",
        Ask::Put {
            index: _,
            id: _,
            doc: _,
            refresh: _,
        } => "put",
        Ask::Remove {
            index: _,
            id: _,
            refresh: _,
        } => "remove",
        Ask::Bulk {
            index: _,
            body: _,
            refresh: _,
            items: _,
        } => "bulk",
        Ask::Refresh { index: _ } => "refresh",
        Ask::OpenPit { index: _, keep } => return format!(in alloc; "open for {}", keep.millis()),
        Ask::ClosePit { number } => return format!(in alloc; "close {number}"),
        Ask::Search {
            target,
            request,
            sent,
        } => {
            let mut text = search_text(alloc, target, request.batch)?;
            if let Some(sent) = sent {
                let id = sent.to_text(alloc)?;
                text.push_str(&format!(in alloc; " by {}", id.as_str())?)?;
            }
            return Ok(text);
        }
    };
    String::from_str(alloc, word)
}

// What a search looks at, and of how many shards the tops are brought together, where that isn't the usual number.
fn search_text(alloc: Global, target: &Target, batch: u32) -> Result<String, NoMemory> {
    let mut text = match target {
        Target::Index(index) => String::from_str(alloc, index.text().as_str())?,
        Target::Pit { number, keep: None } => format!(in alloc; "{number}")?,
        Target::Pit {
            number,
            keep: Some(keep),
        } => format!(in alloc; "{number} for {}", keep.millis())?,
    };
    if batch != 512 {
        text.push_str(&format!(in alloc; " of {batch}")?)?;
    }
    Ok(text)
}

fn limit_word(name: LimitName) -> &'static str {
    match name {
        LimitName::Moment => "moment",
        LimitName::Index => "index",
        LimitName::KeepAlive => "keep_alive",
        LimitName::Batch => "batch",
        LimitName::Pit => "pit",
        LimitName::From => "from",
        LimitName::Window => "window",
        LimitName::Slice => "slice",
        LimitName::Sort => "sort",
        _ => "another limit",
    }
}

fn fault_text(alloc: Global, fault: &RestFault) -> Result<String, NoMemory> {
    match fault {
        RestFault::NotBuilt => String::from_str(alloc, "not built"),
        RestFault::BadBody => String::from_str(alloc, "bad body"),
        RestFault::BadParam(name) => format!(in alloc; "?{}", name.as_str()),
        RestFault::BadId => String::from_str(alloc, "bad id"),
        RestFault::Limit(name) => String::from_str(alloc, limit_word(*name)),
        _ => String::from_str(alloc, "another fault"),
    }
}

// What a request asks for, or why it is refused.
fn asked(alloc: Global, request: Request) -> Result<String, NoMemory> {
    match route(alloc, request) {
        Ok(ask) => ask_text(alloc, &ask),
        Err(fault) => fault_text(alloc, &fault),
    }
}

// The header of a moment, where the line begins with one (`@5 GET /`), and the rest of the line.
fn moment_of<'a>(alloc: Global, line: &'a str) -> Result<(String, &'a str), Fail> {
    let Some(rest) = line.strip_prefix("@") else {
        return Ok((String::new(alloc), line));
    };
    let (moment, rest) = rest.split_once(' ').ok_or("a moment")?;
    Ok((format!(in alloc; "x-moment: {moment}\r\n")?, rest))
}

// The request of a line: a method, a target and perhaps a body.
fn read(alloc: Global, line: &str) -> Result<Request, Fail> {
    let (moment, line) = moment_of(alloc, line)?;
    let (method, rest) = line.split_once(' ').ok_or("a method")?;
    let (target, body) = rest.split_once(' ').unwrap_or((rest, ""));
    let stream = format!(in alloc;
        "{method} {target} HTTP/1.1\r\n{moment}content-length: {}\r\n\r\n{body}",
        body.len()
    )?;
    request(alloc, stream.as_bytes())
}

const REQUESTS: &str = r#"
PUT /t -> create
DELETE /t/_doc/a -> remove
DELETE /t/_doc/a%2Fb?refresh -> remove
GET /t/_refresh -> refresh
POST /t/_refresh -> refresh
POST /docs/_pit?keep_alive=1m -> open for 60000
POST /t/_pit?keep_alive=24h {} -> open for 86400000
POST /%74/_pit?keep_alive=0 { } -> open for 0
POST /t/_pit?keep%5Falive=1%6d  -> open for 60000
POST /T/_pit?keep_alive=1x -> index
POST /t/_pit?keep_alive=1x -> keep_alive
POST /t/_pit?keep_alive= -> keep_alive
POST /t/_pit?keep_alive=1d -> open for 86400000
POST /t/_pit?keep_alive=86400001ms -> keep_alive
POST /t/_pit?keep_alive=10d -> keep_alive
POST /t%FF/_pit?keep_alive=1m -> ?index
POST /_t/_pit?keep_alive=1m -> not built
POST /t/_pit -> ?keep_alive
POST /t/_pit?x=1 [ -> ?x
POST /t/_pit?keep_alive=1m&keep_alive=1m -> ?keep_alive
POST /t/_pit?keep_alive=1m&x -> ?x
POST /t/_pit?keep_alive=1m {"x":1} -> bad body
POST /t/_pit?keep_alive=1x [] -> bad body
POST /T/_pit?keep_alive=1m null -> bad body
POST /t/_pit?keep_alive=1m&pretty -> not built
GET /t/_pit?keep_alive=1m -> not built
DELETE /_pit {"id":"UAAAAAAAAAAB"} -> close 1
DELETE /_pit {"id":"UwAAAAAAAAAB"} -> close 0
DELETE /_pit {"id":"QQAAAAAAAAAB"} -> close 0
DELETE /_pit {"id":"UAAgAAAAAAAA"} -> close 9007199254740992
DELETE /_pit {"id":"UAAAAAAAAAAA"} -> bad id
DELETE /_pit {"id":""} -> bad id
DELETE /_pit {"id":"UAAAAAAAAAAB="} -> bad id
DELETE /_pit -> bad body
DELETE /_pit {} -> bad body
DELETE /_pit {"id":1} -> bad body
DELETE /_pit {"id":"UAAAAAAAAAAB","keep_alive":"1m"} -> bad body
DELETE /_pit?id=x {"id":"%%"} -> ?id
POST /_pit {"id":"UAAAAAAAAAAB"} -> not built
DELETE /_pit?pretty {"id":"UAAAAAAAAAAB"} -> not built
@0 GET /t/_search -> t
@9007199254740992 GET /t/_search -> t
@0000000000000007 GET /t/_search -> t
@00000000000000007 GET /t/_search -> moment
@9007199254740993 GET /t/_search -> moment
@+1 GET /t/_search -> moment
@1.0 GET /T/_search {"size":10001} -> moment
@x PUT /T -> moment
@x PUT /t {"settings":{"number_of_shards":0}} -> moment
@x PUT /t/_doc/a {} -> moment
@x PUT /t/_doc/a [ -> bad body
@x DELETE /_pit {"id":"%%"} -> moment
@x POST /t/_pit -> ?keep_alive
@x POST /t/_pit?keep_alive=1x -> moment
@x GET /t%FF/_search -> ?index
@x GET / -> not built
GET / -> not built
PUT /t/ -> not built
PUT /_t -> not built
PUT /t//_doc/a -> not built
PUT /T -> index
PUT /%54 -> index
PUT /t%FF -> ?index
PUT /t/_doc/a -> bad body
PUT /t/_doc/a?refresh=yes -> ?refresh
POST /_bulk -> bad body
GET /t/_search -> t
POST /t/_search {"size":1} -> t
GET /%74/_search {} -> t
GET /_search {"pit":{"id":"UAAAAAAAAAAB"}} -> 1 by UAAAAAAAAAAB
POST /_search {"pit":{"id":"UAAAAAAAAAAJ","keep_alive":"1s"}} -> 9 for 1000 by UAAAAAAAAAAJ
POST /_search {"pit":{"id":"UwAAAAAAAAAJ"}} -> 0 by UwAAAAAAAAAJ
POST /_search {"pit":{"id":"x"}} -> bad id
POST /_search {"pit":{"id":"x"},"sort":"_score"} -> sort
POST /_search?batched_reduce_size=1 {"pit":{"id":"x","keep_alive":"x"}} -> keep_alive
POST /T/_search?batched_reduce_size=1 {"pit":{"id":"x","keep_alive":"x"}} -> index
POST /t/_search?batched_reduce_size=1 {"pit":{"id":"x","keep_alive":"1m"}} -> batch
PUT /t/_search -> not built
DELETE /_search [ -> not built
GET /_t/_search -> not built
GET /t/_search/ -> not built
GET /t/_search?pretty [ -> not built
GET /_search?q=a&pretty=false -> not built
GET /t/_search?batched_reduce_size=2 -> t of 2
POST /_search?batched_reduce_size=000001024 {"pit":{"id":"UAAAAAAAAAAB"},"slice":{"id":0,"max":2}} -> 1 of 1024 by UAAAAAAAAAAB
GET /t/_search?batched_reduce_size=512 -> t
GET /t/_search?batched_reduce_size=1 -> batch
GET /t/_search?batched_reduce_size=0 {"sort":"_score"} -> batch
GET /t/_search?batched_reduce_size=1025 {"slice":{"id":0,"max":2}} -> batch
GET /t/_search?batched_reduce_size=999999999 {"x":1} -> bad body
GET /T/_search?batched_reduce_size=1 -> index
GET /_search?batched_reduce_size=1 -> batch
GET /_search?batched_reduce_size=1 [ -> bad body
GET /_search?batched_reduce_size=1&q=a -> ?q
GET /t/_search?batched_reduce_size= -> ?batched_reduce_size
GET /t/_search?batched_reduce_size=1234567890 -> ?batched_reduce_size
GET /t/_search?batched_reduce_size=%2B2 -> ?batched_reduce_size
GET /t/_search?batched_reduce_size=x [ -> ?batched_reduce_size
GET /t/_search?batched_reduce_size=2&batched_reduce_size=2 -> ?batched_reduce_size
GET /t/_search?q=a&batched_reduce_size=x -> ?q
GET /t/_refresh?batched_reduce_size=2 -> ?batched_reduce_size
GET /t/_search {"slice":{"id":0,"max":2},"size":10001} -> pit
GET /_search {"pit":{"id":"UAAAAAAAAAAB"},"slice":{"id":2,"max":2},"sort":"_score"} -> slice
GET /t%FF/_search?q=a&scroll=1m -> not built
GET /_search?scroll=1m -> ?scroll
GET /t%FF/_search?q=a {"slice":1,"pit":{"keep_alive":"1m"}} -> ?index
GET /t/_search {"slice":1} -> bad body
GET /t%FF/_search?q=a {"from":1} -> ?index
GET /T/_search {"sort":"_score"} -> index
GET /t/_search {"sort":"_score"} -> sort
GET /t/_search {"from":1,"search_after":[],"sort":"_score"} -> from
GET /t%FF/_search?q=a [ -> ?index
GET /t/_search?q=a&size=3 [ -> ?q
GET /t/_search?refresh=true -> ?refresh
GET /T/_search [ -> bad body
GET /T/_search {"x":1} -> bad body
GET /T/_search {"size":10001} -> index
GET /T/_search -> index
GET /t/_search {"size":10001} -> window
GET /t/_search {"pit":{"id":"UAAAAAAAAAAB"}} -> pit
GET /_search -> pit
GET /_search [] -> bad body
"#;

#[test]
fn requests(rt: HostRuntime) -> Result<(), Fail> {
    let alloc = rt.alloc();
    for line in REQUESTS.lines() {
        if !line.is_empty() {
            let (line, want) = line.split_once(" -> ").ok_or("what it asks for")?;
            let request = read(alloc, line)?;
            let found = asked(alloc, request)?;
            assert_eq!(rt; found.as_str(), want, "{line}");
        }
    }
    Ok(())
}
