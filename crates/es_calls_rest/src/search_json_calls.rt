//! The calls of `search_json`.
use doc_json::BodyFault;
use es_query::{Bool, Edge, Need, Query, Side};
use es_sort::{Keys, SortBy, SortKey};
use es_types::{Fail as Failure, LimitName, NoMemory, Value};
use search_json::{SearchBody, context_keep, read_pit_close, read_search};
use std::alloc::Global;
use std::process::Abort;
use std::test::Fail;

fn value_text(alloc: Global, value: &Value) -> Result<String, NoMemory> {
    match value {
        Value::Key(key) => format!(in alloc; "'{}'", key.as_str()),
        Value::Long(number) => format!(in alloc; "{number}"),
        Value::Missing => String::from_str(alloc, "missing"),
    }
}

fn edges_text(alloc: Global, edges: &[Edge]) -> Result<String, NoMemory> {
    let mut found = String::new(alloc);
    for edge in edges {
        found.push_str(match edge.side {
            Side::Above => ">",
            Side::AtLeast => ">=",
            Side::Below => "<",
            Side::AtMost => "<=",
        })?;
        let value = value_text(alloc, &edge.value)?;
        found.push_str(value.as_str())?;
    }
    Ok(found)
}

#[cycle(told)]
fn query_text(alloc: Global, query: &Query) -> Result<String, NoMemory> {
    match query {
        Query::All => String::from_str(alloc, "all"),
        Query::Nothing => String::from_str(alloc, "none"),
        Query::Term { field, value } => {
            let value = value_text(alloc, value)?;
            format!(in alloc; "{}={value}", field.as_str())
        }
        Query::Range { field, edges } => {
            let edges = edges_text(alloc, edges.as_slice())?;
            format!(in alloc; "{}:{edges}", field.as_str())
        }
        Query::Bool(clauses) => bool_text(alloc, clauses),
    }
}

#[cycle(told)]
fn bool_text(alloc: Global, clauses: &Bool) -> Result<String, NoMemory> {
    let must = queries_text(alloc, "+", clauses.must.as_slice())?;
    let filter = queries_text(alloc, "#", clauses.filter.as_slice())?;
    let must_not = queries_text(alloc, "-", clauses.must_not.as_slice())?;
    let should = queries_text(alloc, "?", clauses.should.as_slice())?;
    let need = match clauses.need {
        Need::Usual => String::from_str(alloc, "usual")?,
        Need::AtLeast(count) => format!(in alloc; "{count}")?,
    };
    format!(in alloc; "({must}{filter}{must_not}{should}{need})")
}

#[cycle(told)]
fn queries_text(alloc: Global, sign: &str, queries: &[Query]) -> Result<String, NoMemory> {
    let mut found = String::new(alloc);
    for query in queries {
        let text = query_text(alloc, query)?;
        found.push_str(sign)?;
        found.push_str(text.as_str())?;
        found.push_str(" ")?;
    }
    Ok(found)
}

fn word_of(fault: &Failure<BodyFault>) -> &'static str {
    match fault {
        Failure::Is(BodyFault::BadId) => "bad id",
        Failure::Is(BodyFault::Limit(LimitName::KeepAlive)) => "keep_alive",
        Failure::Is(BodyFault::NotJson) => "no json",
        Failure::Is(BodyFault::Shape) => "shape",
        Failure::Is(BodyFault::Limit(LimitName::Pit)) => "pit",
        Failure::Is(BodyFault::Limit(LimitName::From)) => "from",
        Failure::Is(BodyFault::Limit(LimitName::Window)) => "window",
        Failure::Is(BodyFault::Limit(LimitName::Slice)) => "slice",
        Failure::Is(BodyFault::Limit(LimitName::Sort)) => "sort",
        Failure::Is(BodyFault::Limit(_)) => "another limit",
        Failure::NoMemory => "no memory",
    }
}

fn push_key(alloc: Global, out: &mut String, key: &SortKey) -> Result<(), NoMemory> {
    match &key.by {
        SortBy::Field(name) => out.push_str(&format!(in alloc; " by '{}'", name.as_str())?)?,
        SortBy::Place => out.push_str(" by place")?,
    }
    if key.down {
        out.push_str(" down")?;
    }
    if key.missing_first {
        out.push_str(" missing first")?;
    }
    Ok(())
}

fn push_after(alloc: Global, out: &mut String, after: &Keys) -> Result<(), NoMemory> {
    out.push_str(" after")?;
    for value in after.values.as_slice() {
        let value = value_text(alloc, value)?;
        out.push_str(&format!(in alloc; " {value}")?)?;
    }
    Ok(())
}

fn body_text(alloc: Global, body: &SearchBody) -> Result<String, NoMemory> {
    let request = &body.request;
    let query = query_text(alloc, &request.query)?;
    let mut found = format!(in alloc; "{} {query}", request.size)?;
    if request.from > 0 {
        found.push_str(&format!(in alloc; " from {}", request.from)?)?;
    }
    for key in request.sort.keys.as_slice() {
        push_key(alloc, &mut found, key)?;
    }
    if let Some(after) = &request.after {
        push_after(alloc, &mut found, after)?;
    }
    if let Some(slice) = &request.slice {
        found.push_str(&format!(in alloc; " slice {} of {}", slice.id, slice.max)?)?;
    }
    if let Some(pit) = &body.pit {
        let id = pit.id.to_text(alloc)?;
        found.push_str(&format!(in alloc; " in {}", id.as_str())?)?;
        if let Some(keep) = pit.keep {
            found.push_str(&format!(in alloc; " for {}", keep.millis())?)?;
        }
    }
    if request.sort.show_place {
        found.push_str(" placed")?;
    }
    if request.batch != 7 {
        found.push_str(" another batch")?;
    }
    Ok(found)
}

// What a body asks for, where seven shards are brought together at a time.
fn search_text(alloc: Global, has_index: bool, body: &str) -> Result<String, NoMemory> {
    match read_search(alloc, body.as_bytes(), has_index, 7) {
        Ok(body) => body_text(alloc, &body),
        Err(fault) => String::from_str(alloc, word_of(&fault)),
    }
}

// Each line has a body, and what it asks for or why it is refused.
fn reads(rt: &impl Abort, alloc: Global, has_index: bool, lines: &str) -> Result<(), Fail> {
    for line in lines.lines() {
        if !line.is_empty() {
            let (body, want) = line.split_once(" -> ").ok_or("what it asks for")?;
            let found = search_text(alloc, has_index, body)?;
            assert_eq!(rt; found.as_str(), want, "{body}");
        }
    }
    Ok(())
}

const OF_AN_INDEX: &str = r#"
 -> 10 all
 {}  -> 10 all
{"size":0} -> 0 all
{"query":{"match_all":{}},"size":10000} -> 10000 all
{"query":{"match_none":{}},"track_total_hits":true} -> 10 none
{"track_total_hits":false} -> 10 all
  -> no json
[ -> no json
[] -> shape
{"x":1} -> shape
{"track_total_hits":10} -> shape
{"size":-1} -> shape
{"size":1.0} -> shape
{"size":"1"} -> shape
{"size":2147483648} -> shape
{"size":2147483647} -> window
{"size":10001} -> window
{"size":10001,"query":1} -> shape
{"from":0} -> 10 all
{"from":9990} -> 10 all from 9990
{"from":9991} -> window
{"from":2147483647,"size":2147483647} -> window
{"from":-1} -> shape
{"from":null} -> shape
{"from":0,"search_after":[]} -> 10 all after
{"from":1,"search_after":[]} -> from
{"from":10001,"search_after":[],"sort":"_score"} -> from
{"from":10001,"sort":"_score"} -> window
{"from":10001,"sort":"_score","x":1} -> shape
{"slice":{"id":0,"max":2}} -> pit
{"slice":{"id":0,"max":1},"from":1,"search_after":[]} -> pit
{"slice":{},"size":10001} -> shape
{"search_after":[1]} -> 10 all after 1
{"pit":{"id":"UAAAAAAAAAAB"}} -> pit
{"pit":{"id":"UAAAAAAAAAAB"},"size":10001} -> pit
{"pit":{"id":"UAAAAAAAAAAB"},"x":1} -> shape
{"pit":{"id":"x"},"x":1} -> shape
{"pit":{"id":"x"}} -> pit
{"pit":{"id":7}} -> shape
{"pit":{}} -> shape
"#;

const OF_A_POINT_IN_TIME: &str = r#"
{"pit":{"id":"UAAAAAAAAAAB"}} -> 10 all in UAAAAAAAAAAB placed
{"pit":{"id":"UAAAAAAAAAAB"},"size":2,"search_after":[-7]} -> 2 all after -7 in UAAAAAAAAAAB placed
{"pit":{"id":"UAAAAAAAAAAB"},"search_after":[9223372036854775807]} -> 10 all after 9223372036854775807 in UAAAAAAAAAAB placed
{"pit":{"id":"UAAAAAAAAAAB"},"search_after":[]} -> 10 all after in UAAAAAAAAAAB placed
{"pit":{"id":"UAAAAAAAAAAB"},"search_after":[1,null,"x",""]} -> 10 all after 1 missing 'x' '' in UAAAAAAAAAAB placed
{"pit":{"id":"UAAAAAAAAAAB"},"search_after":[1.5]} -> shape
{"pit":{"id":"UAAAAAAAAAAB"},"search_after":[true]} -> shape
{"pit":{"id":"UAAAAAAAAAAB"},"search_after":[[1]]} -> shape
{"pit":{"id":"UAAAAAAAAAAB"},"search_after":[9223372036854775808]} -> shape
{"pit":{"id":"UAAAAAAAAAAB"},"search_after":1} -> shape
{"pit":{"id":"UAAAAAAAAAAB"},"search_after":null} -> shape
{"pit":{"id":"UAAAAAAAAAAB"},"sort":"_shard_doc"} -> 10 all by place in UAAAAAAAAAAB placed
{"pit":{"id":"UAAAAAAAAAAB"},"sort":{"_doc":"desc"},"from":7} -> 10 all from 7 by place down in UAAAAAAAAAAB placed
{"pit":{"id":"UAAAAAAAAAAB"},"sort":["_score"]} -> sort
{"pit":{"id":"UAAAAAAAAAAB"},"size":10001} -> window
{"pit":{"id":"UAAAAAAAAAAB"},"slice":{"id":1,"max":3}} -> 10 all slice 1 of 3 in UAAAAAAAAAAB placed
{"pit":{"id":"UAAAAAAAAAAB"},"slice":{"max":1024,"id":1023},"from":3} -> 10 all from 3 slice 1023 of 1024 in UAAAAAAAAAAB placed
{"pit":{"id":"UAAAAAAAAAAB"},"slice":{"id":3,"max":3}} -> slice
{"pit":{"id":"UAAAAAAAAAAB"},"slice":{"id":0,"max":1}} -> slice
{"pit":{"id":"UAAAAAAAAAAB"},"slice":{"id":0,"max":0}} -> slice
{"pit":{"id":"UAAAAAAAAAAB"},"slice":{"id":0,"max":1025},"sort":"_score"} -> slice
{"pit":{"id":"UAAAAAAAAAAB"},"slice":{"id":2147483647,"max":2147483647},"size":10001} -> window
{"pit":{"id":"UAAAAAAAAAAB"},"slice":{"id":0,"max":1025},"from":1,"search_after":[]} -> from
{"pit":{"id":"UAAAAAAAAAAB"},"slice":{"id":0}} -> shape
{"pit":{"id":"UAAAAAAAAAAB"},"slice":{"max":2}} -> shape
{"pit":{"id":"UAAAAAAAAAAB"},"slice":{"id":0,"max":2,"field":"n"}} -> shape
{"pit":{"id":"UAAAAAAAAAAB"},"slice":{"id":-1,"max":2}} -> shape
{"pit":{"id":"UAAAAAAAAAAB"},"slice":{"id":"0","max":2}} -> shape
{"pit":{"id":"UAAAAAAAAAAB"},"slice":{"id":0,"max":2147483648}} -> shape
{"pit":{"id":"UAAAAAAAAAAB"},"slice":{"id":0,"max":2.0}} -> shape
{"pit":{"id":"UAAAAAAAAAAB"},"slice":null} -> shape
{"pit":{"id":"UAAAAAAAAAAB"},"slice":[0,2]} -> shape
 -> pit
{"slice":{"id":0,"max":2}} -> pit
{"size":10001} -> pit
{"search_after":[1]} -> pit
{"pit":{"id":"UAAAAAAAAAAD"}} -> 10 all in UAAAAAAAAAAD placed
{"pit":{"id":"UwAAAAAAAAAB"}} -> 10 all in UwAAAAAAAAAB placed
{"pit":{"id":"x"}} -> bad id
{"pit":{"id":"UAAAAAAAAAAA"}} -> bad id
{"pit":{"id":"UAAAAAAAAAAB="}} -> bad id
{"pit":{"id":""},"sort":"_score"} -> sort
{"pit":{"id":"x","keep_alive":"1x"}} -> keep_alive
{"pit":{"id":"UAAAAAAAAAAB","keep_alive":"1m"}} -> 10 all in UAAAAAAAAAAB for 60000 placed
{"pit":{"keep_alive":"0","id":"UAAAAAAAAAAB"}} -> 10 all in UAAAAAAAAAAB for 0 placed
{"pit":{"id":"UAAAAAAAAAAB","keep_alive":"24h"}} -> 10 all in UAAAAAAAAAAB for 86400000 placed
{"pit":{"id":"UAAAAAAAAAAB","keep_alive":"86400001ms"},"size":10001} -> keep_alive
{"pit":{"id":"UAAAAAAAAAAB","keep_alive":""}} -> keep_alive
{"pit":{"id":"UAAAAAAAAAAB","keep_alive":60000}} -> shape
{"pit":{"id":"UAAAAAAAAAAB","keep_alive":null}} -> shape
{"pit":{"keep_alive":"1m"}} -> shape
{"pit":{"id":"UAAAAAAAAAAB","x":1}} -> shape
{"pit":"UAAAAAAAAAAB"} -> shape
"#;

const SORTS: &str = r#"
{"sort":[]} -> 10 all
{"sort":"n"} -> 10 all by 'n'
{"sort":["n","k"]} -> 10 all by 'n' by 'k'
{"sort":{"n":"asc"}} -> 10 all by 'n'
{"sort":[{"n":"desc"},"_doc"]} -> 10 all by 'n' down by place
{"sort":{"n":{}}} -> 10 all by 'n'
{"sort":{"n":{"order":"desc"}}} -> 10 all by 'n' down
{"sort":{"n":{"missing":"_last"}}} -> 10 all by 'n'
{"sort":{"n":{"missing":"_first","order":"desc"}}} -> 10 all by 'n' down missing first
{"sort":{"":"asc"}} -> 10 all by ''
{"sort":"_score"} -> sort
{"sort":["n",{"_score":"asc"}]} -> sort
{"sort":"_shard_doc"} -> sort
{"sort":1} -> shape
{"sort":null} -> shape
{"sort":{}} -> shape
{"sort":[["n"]]} -> shape
{"sort":{"n":"up"}} -> shape
{"sort":{"n":"ASC"}} -> shape
{"sort":{"n":"asc","k":"asc"}} -> shape
{"sort":{"n":null}} -> shape
{"sort":{"n":{"order":"up"}}} -> shape
{"sort":{"n":{"order":null}}} -> shape
{"sort":{"n":{"missing":"first"}}} -> shape
{"sort":{"n":{"missing":0}}} -> shape
{"sort":{"n":{"mode":"min"}}} -> shape
{"sort":["_score",1]} -> shape
"#;

const QUERIES: &str = r#"
{"query":{"term":{"k":"x"}}} -> 10 k='x'
{"query":{"term":{"n":{"value":-5}}}} -> 10 n=-5
{"query":{"term":{"n":9223372036854775807}}} -> 10 n=9223372036854775807
{"query":{"range":{"n":{"lt":5,"gte":1}}}} -> 10 n:>=1<5
{"query":{"range":{"k":{"gt":"a","lte":null}}}} -> 10 k:>'a'
{"query":{"range":{"k":{"lte":""}}}} -> 10 k:<=''
{"query":{"range":{"k":{}}}} -> 10 k:
{"query":{"bool":{}}} -> 10 (usual)
{"query":{"bool":{"must":{"term":{"k":"x"}},"filter":[{"match_all":{}}],"must_not":[],"minimum_should_match":2}}} -> 10 (+k='x' #all 2)
{"query":{"bool":{"should":[{"match_none":{}},{"bool":{"must_not":{"match_all":{}}}}]}}} -> 10 (?none ?(-all usual) usual)
{"query":null} -> shape
{"query":[]} -> shape
{"query":{}} -> shape
{"query":{"match":{"k":"x"}}} -> shape
{"query":{"match_all":{},"match_none":{}}} -> shape
{"query":{"match_all":{"boost":1}}} -> shape
{"query":{"match_none":[]}} -> shape
{"query":{"term":{}}} -> shape
{"query":{"term":"x"}} -> shape
{"query":{"term":{"a":1,"b":1}}} -> shape
{"query":{"term":{"n":1.5}}} -> shape
{"query":{"term":{"n":true}}} -> shape
{"query":{"term":{"n":null}}} -> shape
{"query":{"term":{"n":9223372036854775808}}} -> shape
{"query":{"term":{"n":{"value":1,"boost":1}}}} -> shape
{"query":{"range":{"n":1}}} -> shape
{"query":{"range":{"n":{"from":1}}}} -> shape
{"query":{"range":{"n":{"gt":1.5}}}} -> shape
{"query":{"range":{"a":{},"b":{}}}} -> shape
{"query":{"bool":{"must":null}}} -> shape
{"query":{"bool":{"must":[1]}}} -> shape
{"query":{"bool":{"boost":1}}} -> shape
{"query":{"bool":{"minimum_should_match":"1"}}} -> shape
{"query":{"bool":{"minimum_should_match":-1}}} -> shape
"#;

#[test]
fn searches(rt: HostRuntime) -> Result<(), Fail> {
    let alloc = rt.alloc();
    reads(&rt, alloc, true, OF_AN_INDEX)?;
    reads(&rt, alloc, false, OF_A_POINT_IN_TIME)?;
    reads(&rt, alloc, true, SORTS)?;
    reads(&rt, alloc, true, QUERIES)
}

// A sort by the place after so many keys.
fn many_keys(alloc: Global, count: usize) -> Result<String, NoMemory> {
    let keys = "\"n\",".repeat(alloc, count)?;
    format!(in alloc; "{{\"sort\":[{keys}\"_doc\"]}}")
}

#[test]
fn keys_at_the_limit(rt: HostRuntime) -> Result<(), Fail> {
    let alloc = rt.alloc();
    let most = search_text(alloc, true, many_keys(alloc, 63)?.as_str())?;
    assert!(rt; most.ends_with(" by 'n' by place"));
    let more = search_text(alloc, true, many_keys(alloc, 64)?.as_str())?;
    assert_eq!(rt; more.as_str(), "sort");
    Ok(())
}

#[test]
fn closings(rt: HostRuntime) -> Result<(), Fail> {
    let alloc = rt.alloc();
    for (body, want) in [
        ("{\"id\":\"UAAAAAAAAAAB\"}", "UAAAAAAAAAAB"),
        (" {\"id\":\"QQAAAAAAAAAB\"} ", "QQAAAAAAAAAB"),
        ("{\"id\":\"%%\"}", "bad id"),
        ("{\"id\":\"\"}", "bad id"),
        ("{\"id\":1}", "shape"),
        ("{}", "shape"),
        ("[]", "shape"),
        ("{\"id\":\"UAAAAAAAAAAB\",\"x\":1}", "shape"),
        ("", "no json"),
        ("{", "no json"),
    ] {
        let found = match read_pit_close(alloc, body.as_bytes()) {
            Ok(id) => String::from_str(alloc, id.to_text(alloc)?.as_str())?,
            Err(fault) => String::from_str(alloc, word_of(&fault))?,
        };
        assert_eq!(rt; found.as_str(), want, "{body}");
    }
    Ok(())
}

#[test]
fn times_of_contexts(rt: HostRuntime) -> Result<(), Fail> {
    for (text, want) in [
        ("1m", Some(60_000)),
        ("1d", Some(86_400_000)),
        ("24h", Some(86_400_000)),
        ("86400001ms", None),
        ("2d", None),
        ("x", None),
    ] {
        let found = context_keep(text).map(|keep| keep.millis());
        assert!(rt; found == want, "{text}");
    }
    Ok(())
}
