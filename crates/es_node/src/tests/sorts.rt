//! Sessions in the order of sorts: worked ones, and all pages of an index by a table of sorts.
use crate::tests::session::{
    SIX_EQUAL, Session, plays, push_request, push_response, read_session, replays,
};
use std::alloc::Global;
use std::test::Fail;

// Pages go on after the places.
const EQUAL: &str = r#"
POST /_search {"pit":{"id":"UAAAAAAAAAAB"},"size":2,"sort":["n"]}
200 {"pit_id":"UAAAAAAAAAAB","took":0,"timed_out":false,"_shards":{"total":2,"successful":2,"skipped":0,"failed":0},"hits":{"total":{"value":6,"relation":"eq"},"max_score":null,"hits":[{"_index":"t","_id":"a","_score":null,"_source":{"n":7},"sort":[7,0]},{"_index":"t","_id":"c","_score":null,"_source":{"n":7},"sort":[7,1]}]}}
POST /_search {"pit":{"id":"UAAAAAAAAAAB"},"size":2,"sort":["n"],"search_after":[7,1]}
200 {"pit_id":"UAAAAAAAAAAB","took":0,"timed_out":false,"_shards":{"total":2,"successful":2,"skipped":0,"failed":0},"hits":{"total":{"value":6,"relation":"eq"},"max_score":null,"hits":[{"_index":"t","_id":"e","_score":null,"_source":{"n":7},"sort":[7,2]},{"_index":"t","_id":"b","_score":null,"_source":{"n":7},"sort":[7,4294967296]}]}}
POST /_search {"pit":{"id":"UAAAAAAAAAAB"},"size":2,"sort":["n"],"search_after":[7,4294967296]}
200 {"pit_id":"UAAAAAAAAAAB","took":0,"timed_out":false,"_shards":{"total":2,"successful":2,"skipped":0,"failed":0},"hits":{"total":{"value":6,"relation":"eq"},"max_score":null,"hits":[{"_index":"t","_id":"d","_score":null,"_source":{"n":7},"sort":[7,4294967297]},{"_index":"t","_id":"f","_score":null,"_source":{"n":7},"sort":[7,4294967298]}]}}
POST /_search {"pit":{"id":"UAAAAAAAAAAB"},"size":2,"sort":["n"],"search_after":[7,4294967298]}
200 {"pit_id":"UAAAAAAAAAAB","took":0,"timed_out":false,"_shards":{"total":2,"successful":2,"skipped":0,"failed":0},"hits":{"total":{"value":6,"relation":"eq"},"max_score":null,"hits":[]}}
"#;

#[test]
fn equal_documents(rt: HostRuntime) -> Result<(), Fail> {
    let alloc = rt.alloc();
    let text = format!(in alloc; "{SIX_EQUAL}{EQUAL}")?;
    plays(&rt, alloc, text.as_str())
}

// A document without the value, and what a search goes on after.
const MISSING: &str = r#"
PUT /m {"mappings":{"properties":{"n":{"type":"long"}}}}
200 {"acknowledged":true,"shards_acknowledged":true,"index":"m"}
PUT /m/_doc/a {"n":2}
201 {"_index":"m","_id":"a","result":"created","_seq_no":0}
PUT /m/_doc/b {}
201 {"_index":"m","_id":"b","result":"created","_seq_no":1}
PUT /m/_doc/c {"n":1}
201 {"_index":"m","_id":"c","result":"created","_seq_no":2}
POST /m/_refresh
200 {"_shards":{"total":1,"successful":1,"failed":0}}
POST /m/_pit?keep_alive=1m
200 {"id":"UAAAAAAAAAAB"}
POST /_search {"pit":{"id":"UAAAAAAAAAAB"},"sort":[{"n":"asc"}]}
200 {"pit_id":"UAAAAAAAAAAB","took":0,"timed_out":false,"_shards":{"total":1,"successful":1,"skipped":0,"failed":0},"hits":{"total":{"value":3,"relation":"eq"},"max_score":null,"hits":[{"_index":"m","_id":"c","_score":null,"_source":{"n":1},"sort":[1,2]},{"_index":"m","_id":"a","_score":null,"_source":{"n":2},"sort":[2,0]},{"_index":"m","_id":"b","_score":null,"_source":{},"sort":[null,1]}]}}
POST /_search {"pit":{"id":"UAAAAAAAAAAB"},"sort":[{"n":"desc"}]}
200 {"pit_id":"UAAAAAAAAAAB","took":0,"timed_out":false,"_shards":{"total":1,"successful":1,"skipped":0,"failed":0},"hits":{"total":{"value":3,"relation":"eq"},"max_score":null,"hits":[{"_index":"m","_id":"a","_score":null,"_source":{"n":2},"sort":[2,0]},{"_index":"m","_id":"c","_score":null,"_source":{"n":1},"sort":[1,2]},{"_index":"m","_id":"b","_score":null,"_source":{},"sort":[null,1]}]}}
POST /_search {"pit":{"id":"UAAAAAAAAAAB"},"sort":"n","search_after":[null,0]}
200 {"pit_id":"UAAAAAAAAAAB","took":0,"timed_out":false,"_shards":{"total":1,"successful":1,"skipped":0,"failed":0},"hits":{"total":{"value":3,"relation":"eq"},"max_score":null,"hits":[{"_index":"m","_id":"b","_score":null,"_source":{},"sort":[null,1]}]}}
POST /_search {"pit":{"id":"UAAAAAAAAAAB"},"sort":"n","search_after":[null,1]}
200 {"pit_id":"UAAAAAAAAAAB","took":0,"timed_out":false,"_shards":{"total":1,"successful":1,"skipped":0,"failed":0},"hits":{"total":{"value":3,"relation":"eq"},"max_score":null,"hits":[]}}
POST /_search {"pit":{"id":"UAAAAAAAAAAB"},"sort":"n","search_after":[2]}
400 illegal_argument_exception: search_after does not fit the sort
POST /_search {"pit":{"id":"UAAAAAAAAAAB"},"sort":"n","from":1,"size":1}
200 {"pit_id":"UAAAAAAAAAAB","took":0,"timed_out":false,"_shards":{"total":1,"successful":1,"skipped":0,"failed":0},"hits":{"total":{"value":3,"relation":"eq"},"max_score":null,"hits":[{"_index":"m","_id":"a","_score":null,"_source":{"n":2},"sort":[2,0]}]}}
POST /_search {"pit":{"id":"UAAAAAAAAAAB"},"sort":"n","search_after":[2,null]}
400 illegal_argument_exception: search_after does not fit the sort
POST /m/_search {"sort":"n","search_after":[1]}
200 {"took":0,"timed_out":false,"_shards":{"total":1,"successful":1,"skipped":0,"failed":0},"hits":{"total":{"value":3,"relation":"eq"},"max_score":null,"hits":[{"_index":"m","_id":"a","_score":null,"_source":{"n":2},"sort":[2]},{"_index":"m","_id":"b","_score":null,"_source":{},"sort":[null]}]}}
POST /m/_search {"sort":"n","search_after":[1,2]}
400 illegal_argument_exception: search_after does not fit the sort
POST /m/_search {"search_after":[]}
200 {"took":0,"timed_out":false,"_shards":{"total":1,"successful":1,"skipped":0,"failed":0},"hits":{"total":{"value":3,"relation":"eq"},"max_score":null,"hits":[]}}
POST /m/_search {"sort":["_doc"],"from":2}
200 {"took":0,"timed_out":false,"_shards":{"total":1,"successful":1,"skipped":0,"failed":0},"hits":{"total":{"value":3,"relation":"eq"},"max_score":null,"hits":[{"_index":"m","_id":"c","_score":null,"_source":{"n":1},"sort":[2]}]}}
POST /m/_search {"sort":["zz"],"search_after":[]}
400 query_shard_exception: no mapping for a sort field
POST /m/_search {"query":{"term":{"n":"x"}},"sort":["zz"],"search_after":[]}
400 query_shard_exception: a query value of another kind
POST /m/_search {"sort":["_shard_doc"]}
400 illegal_argument_exception: limit [sort]
"#;

#[test]
fn missing_values(rt: HostRuntime) -> Result<(), Fail> {
    plays(&rt, rt.alloc(), MISSING)
}

const WINDOWS: &str = r#"
POST /docs/_search {"from":9990,"size":10}
200 {"took":0,"timed_out":false,"_shards":{"total":1,"successful":1,"skipped":1,"failed":0},"hits":{"total":{"value":0,"relation":"eq"},"max_score":null,"hits":[]}}
POST /docs/_search {"from":9990,"size":11}
400 illegal_argument_exception: limit [window]
PUT /docs/_doc/a {"n":1}
201 {"_index":"docs","_id":"a","result":"created","_seq_no":0}
PUT /docs/_doc/b {"n":2}
201 {"_index":"docs","_id":"b","result":"created","_seq_no":1}
POST /docs/_refresh
200 {"_shards":{"total":1,"successful":1,"failed":0}}
POST /docs/_search {"size":0}
200 {"took":0,"timed_out":false,"_shards":{"total":1,"successful":1,"skipped":0,"failed":0},"hits":{"total":{"value":2,"relation":"eq"},"max_score":null,"hits":[]}}
PUT /docs/_doc/c?refresh {}
201 {"_index":"docs","_id":"c","result":"created","_seq_no":2}
PUT /docs/_doc/d?refresh {}
201 {"_index":"docs","_id":"d","result":"created","_seq_no":3}
PUT /docs/_doc/e?refresh {}
201 {"_index":"docs","_id":"e","result":"created","_seq_no":4}
PUT /docs/_doc/f?refresh {}
201 {"_index":"docs","_id":"f","result":"created","_seq_no":5}
PUT /docs/_doc/g?refresh {}
201 {"_index":"docs","_id":"g","result":"created","_seq_no":6}
PUT /docs/_doc/h?refresh {}
201 {"_index":"docs","_id":"h","result":"created","_seq_no":7}
PUT /docs/_doc/i?refresh {}
201 {"_index":"docs","_id":"i","result":"created","_seq_no":8}
PUT /docs/_doc/j?refresh {}
201 {"_index":"docs","_id":"j","result":"created","_seq_no":9}
PUT /docs/_doc/k?refresh {}
201 {"_index":"docs","_id":"k","result":"created","_seq_no":10}
POST /docs/_search
200 {"took":0,"timed_out":false,"_shards":{"total":1,"successful":1,"skipped":0,"failed":0},"hits":{"total":{"value":11,"relation":"eq"},"max_score":null,"hits":[{"_index":"docs","_id":"a","_score":null,"_source":{"n":1}},{"_index":"docs","_id":"b","_score":null,"_source":{"n":2}},{"_index":"docs","_id":"c","_score":null,"_source":{}},{"_index":"docs","_id":"d","_score":null,"_source":{}},{"_index":"docs","_id":"e","_score":null,"_source":{}},{"_index":"docs","_id":"f","_score":null,"_source":{}},{"_index":"docs","_id":"g","_score":null,"_source":{}},{"_index":"docs","_id":"h","_score":null,"_source":{}},{"_index":"docs","_id":"i","_score":null,"_source":{}},{"_index":"docs","_id":"j","_score":null,"_source":{}}]}}
POST /docs/_search {"from":10}
200 {"took":0,"timed_out":false,"_shards":{"total":1,"successful":1,"skipped":0,"failed":0},"hits":{"total":{"value":11,"relation":"eq"},"max_score":null,"hits":[{"_index":"docs","_id":"k","_score":null,"_source":{}}]}}
POST /docs/_search {"from":1,"search_after":[]}
400 illegal_argument_exception: limit [from]
POST /zz/_pit?keep_alive=1m
404 index_not_found_exception: no such index [zz]
POST /Z/_pit?keep_alive=1m
400 illegal_argument_exception: limit [index]
POST /docs/_pit?keep_alive=1d
200 {"id":"UAAAAAAAAAAB"}
POST /docs/_pit?keep_alive=25h
400 illegal_argument_exception: limit [keep_alive]
"#;

#[test]
fn windows(rt: HostRuntime) -> Result<(), Fail> {
    plays(&rt, rt.alloc(), WINDOWS)
}

const DOCUMENTS: &str = r#"
a {"n":1,"k":"x"}
b {"n":2,"k":"y"}
c {"n":2,"k":"x"}
d {"k":"x"}
e {"n":2}
f {"n":1,"k":"Y"}
g {}
h {"n":-5,"k":"y"}
"#;

// The index of these documents, and a point in time of it.
const OPENED: &str = r#"
PUT /s {"settings":{"number_of_shards":2},"mappings":{"properties":{"n":{"type":"long"},"k":{"type":"keyword"}}}}
200 {"acknowledged":true,"shards_acknowledged":true,"index":"s"}
POST /s/_bulk?refresh
  {"index":{"_id":"a"}}
  {"n":1,"k":"x"}
  {"index":{"_id":"b"}}
  {"n":2,"k":"y"}
  {"index":{"_id":"c"}}
  {"n":2,"k":"x"}
  {"index":{"_id":"d"}}
  {"k":"x"}
  {"index":{"_id":"e"}}
  {"n":2}
  {"index":{"_id":"f"}}
  {"n":1,"k":"Y"}
  {"index":{"_id":"g"}}
  {}
  {"index":{"_id":"h"}}
  {"n":-5,"k":"y"}
200 {"took":0,"errors":false,"items":[{"index":{"_index":"s","_id":"a","result":"created","_seq_no":0,"status":201}},{"index":{"_index":"s","_id":"b","result":"created","_seq_no":0,"status":201}},{"index":{"_index":"s","_id":"c","result":"created","_seq_no":1,"status":201}},{"index":{"_index":"s","_id":"d","result":"created","_seq_no":1,"status":201}},{"index":{"_index":"s","_id":"e","result":"created","_seq_no":2,"status":201}},{"index":{"_index":"s","_id":"f","result":"created","_seq_no":2,"status":201}},{"index":{"_index":"s","_id":"g","result":"created","_seq_no":3,"status":201}},{"index":{"_index":"s","_id":"h","result":"created","_seq_no":3,"status":201}}]}
POST /s/_pit?keep_alive=1m
200 {"id":"UAAAAAAAAAAB"}
"#;

// Each line has a sort, and all hits in its order with what they show.
const SORTS: &str = r#"
["n"] -> h[-5,4294967299] a[1,0] f[1,4294967298] c[2,1] e[2,2] b[2,4294967296] g[null,3] d[null,4294967297]
[{"n":"desc"}] -> c[2,1] e[2,2] b[2,4294967296] a[1,0] f[1,4294967298] h[-5,4294967299] g[null,3] d[null,4294967297]
[{"n":{"missing":"_first"}}] -> g[null,3] d[null,4294967297] h[-5,4294967299] a[1,0] f[1,4294967298] c[2,1] e[2,2] b[2,4294967296]
{"n":{"order":"desc","missing":"_first"}} -> g[null,3] d[null,4294967297] c[2,1] e[2,2] b[2,4294967296] a[1,0] f[1,4294967298] h[-5,4294967299]
"k" -> f["Y",4294967298] a["x",0] c["x",1] d["x",4294967297] b["y",4294967296] h["y",4294967299] e[null,2] g[null,3]
[{"k":"desc"},{"n":{"missing":"_first"}}] -> h["y",-5,4294967299] b["y",2,4294967296] d["x",null,4294967297] a["x",1,0] c["x",2,1] f["Y",1,4294967298] g[null,null,3] e[null,2,2]
["_shard_doc"] -> a[0] c[1] e[2] g[3] b[4294967296] d[4294967297] f[4294967298] h[4294967299]
{"_doc":"desc"} -> h[4294967299] f[4294967298] d[4294967297] b[4294967296] g[3] e[2] c[1] a[0]
["n",{"_shard_doc":"desc"}] -> h[-5,4294967299] f[1,4294967298] a[1,0] b[2,4294967296] e[2,2] c[2,1] d[null,4294967297] g[null,3]
[] -> a[0] c[1] e[2] g[3] b[4294967296] d[4294967297] f[4294967298] h[4294967299]
"#;

// The id of a hit, and what it shows.
fn parts(hit: &str) -> Result<(&str, &str), Fail> {
    let at = hit.find('[').ok_or("what it shows")?;
    Ok(hit.split_at_checked(at).ok_or("an id")?)
}

fn source_of(id: &str) -> Result<&'static str, Fail> {
    for line in DOCUMENTS.lines() {
        if let Some((name, source)) = line.split_once(' ') {
            if name == id {
                return Ok(source);
            }
        }
    }
    Err("a document")?
}

fn hit_json(alloc: Global, hit: &str) -> Result<String, Fail> {
    let (id, shown) = parts(hit)?;
    let source = source_of(id)?;
    Ok(format!(in alloc;
        "{{\"_index\":\"s\",\"_id\":\"{id}\",\"_score\":null,\"_source\":{source},\"sort\":{shown}}}"
    )?)
}

// What the hits before the page show last, so that it goes on after that.
fn after_of(alloc: Global, before: Option<&&str>) -> Result<String, Fail> {
    match before {
        Some(hit) => {
            let (_, shown) = parts(hit)?;
            Ok(format!(in alloc; ",\"search_after\":{shown}")?)
        }
        None => Ok(String::new(alloc)),
    }
}

// A page of those hits, and the search for it.
fn push_page(
    alloc: Global,
    session: &mut Session,
    sort: &str,
    size: usize,
    after: &str,
    page: &[&str],
) -> Result<(), Fail> {
    let asked = format!(in alloc;
        "POST /_search {{\"pit\":{{\"id\":\"UAAAAAAAAAAB\"}},\"size\":{size},\"sort\":{sort}{after}}}"
    )?;
    push_request(alloc, &mut session.requests, asked.as_str(), "")?;
    let mut said = String::from_str(
        alloc,
        "200 {\"pit_id\":\"UAAAAAAAAAAB\",\"took\":0,\"timed_out\":false,\"_shards\":{\"total\":2,\"successful\":2,\"skipped\":0,\"failed\":0},\"hits\":{\"total\":{\"value\":8,\"relation\":\"eq\"},\"max_score\":null,\"hits\":[",
    )?;
    for (i, hit) in page.iter().enumerate() {
        if i > 0 {
            said.push_str(",")?;
        }
        let hit = hit_json(alloc, hit)?;
        said.push_str(hit.as_str())?;
    }
    said.push_str("]}}")?;
    push_response(alloc, &mut session.responses, said.as_str())
}

// All pages of that size, up to the first short one.
fn push_pages(
    alloc: Global,
    session: &mut Session,
    sort: &str,
    size: usize,
    hits: &[&str],
) -> Result<(), Fail> {
    let size = size.max(1);
    for number in 0..=hits.len() / size {
        let start = hits.len().min(number.saturating_mul(size));
        let (before, rest) = hits.split_at(start);
        let (page, _) = rest.split_at(size.min(rest.len()));
        let after = after_of(alloc, before.last())?;
        push_page(alloc, session, sort, size, after.as_str(), page)?;
    }
    Ok(())
}

fn words_of<'a>(alloc: Global, line: &'a str) -> Result<Vec<&'a str>, Fail> {
    let mut words = Vec::new(alloc);
    for word in line.split(' ') {
        words.push(word)?;
    }
    Ok(words)
}

#[test]
fn pages_of_each_sort(rt: HostRuntime) -> Result<(), Fail> {
    let alloc = rt.alloc();
    let mut session = read_session(alloc, OPENED)?;
    for line in SORTS.lines() {
        if line.is_empty() {
            continue;
        }
        let (sort, hits) = line.split_once(" -> ").ok_or("hits")?;
        let hits = words_of(alloc, hits)?;
        for size in [1, 2, 100] {
            push_pages(alloc, &mut session, sort, size, &hits)?;
        }
    }
    replays(&rt, alloc, &session, 4096)
}
