//! The calls of `es_query` and `search_json`: which documents of an index each query finds.
use crate::given::text;
use doc_json::{BodyFault, read_doc};
use es_query::Query;
use es_types::{DocId, Fail as Failure, Field, FieldKind, FieldName, Items, Mapping, Row, fit_doc};
use search_json::read_search;
use std::alloc::Global;
use std::process::Abort;
use std::test::Fail;

// A document a line. `K` stands for the longest keyword.
const DOCUMENTS: &str = r#"
a {"n":1,"k":"x"}
b {"n":2,"k":"y"}
c {"n":2,"k":"x"}
d {"k":"x"}
e {"n":3}
f {}
g {"n":9223372036854775807,"k":""}
h {"n":-9223372036854775808,"k":"K"}
i {"n":0,"k":"\uffff"}
j {"n":-1,"k":"\ud800\udc00"}
l {"n":10,"k":"Y"}
m {"n":null,"k":null,"zz":5}
"#;

fn field(alloc: Global, name: &str, kind: FieldKind) -> Result<Field, Fail> {
    Ok(Field {
        name: FieldName::make(text(alloc, name)?).ok().ok_or("a field")?,
        kind,
    })
}

// A keyword `k` and a whole number `n`.
fn mapping(alloc: Global) -> Result<Mapping, Fail> {
    let k = field(alloc, "k", FieldKind::Key)?;
    let n = field(alloc, "n", FieldKind::Long)?;
    Ok(
        Mapping::make(Items::of(vec![in alloc; k, n]?))
            .ok()
            .ok_or("a mapping")?,
    )
}

fn row(alloc: Global, mapping: &Mapping, line: &str) -> Result<Row, Fail> {
    let (id, source) = line.split_once(' ').ok_or("a document")?;
    let longest = "z".repeat(alloc, 32766)?;
    let source = source.replace(alloc, "K", &longest)?;
    let doc = read_doc(alloc, source.as_bytes()).ok().ok_or("an object")?;
    let values = fit_doc(alloc, mapping, &doc).ok().ok_or("values")?;
    Ok(Row {
        seq: 1,
        id: DocId::make(text(alloc, id)?).ok().ok_or("an id")?,
        source: doc.source,
        values,
    })
}

fn rows(alloc: Global, mapping: &Mapping) -> Result<Vec<Row>, Fail> {
    let mut rows = Vec::new(alloc);
    for line in DOCUMENTS.lines() {
        if !line.is_empty() {
            rows.push(row(alloc, mapping, line)?)?;
        }
    }
    Ok(rows)
}

fn query(alloc: Global, query: &str) -> Result<Query, Fail> {
    let body = format!(in alloc; "{{\"query\":{query}}}")?;
    let body = read_search(alloc, body.as_bytes(), true, 512)
        .ok()
        .ok_or("a query")?;
    Ok(body.request.query)
}

// The ids of the rows that match, or that the query has a value of another kind.
fn found(alloc: Global, mapping: &Mapping, rows: &[Row], query: &Query) -> Result<String, Fail> {
    let mut found = String::new(alloc);
    if query.fit(mapping).is_err() {
        found.push_str("another kind")?;
        return Ok(found);
    }
    for row in rows {
        if query.matches(mapping, row) {
            found.push_str(row.id.text().as_str())?;
        }
    }
    Ok(found)
}

// Each line has a query and the ids of the documents that it finds.
fn finds(rt: &impl Abort, alloc: Global, lines: &str) -> Result<(), Fail> {
    let mapping = mapping(alloc)?;
    let rows = rows(alloc, &mapping)?;
    for line in lines.lines() {
        if line.is_empty() {
            continue;
        }
        let (asked, want) = line.split_once(" -> ").ok_or("ids")?;
        let query = query(alloc, asked)?;
        let found = found(alloc, &mapping, &rows, &query)?;
        assert_eq!(rt; found.as_str(), want, "{asked}");
    }
    Ok(())
}

const TERMS: &str = r#"
{"match_all":{}} -> abcdefghijlm
{"match_none":{}} -> 
{"term":{"n":2}} -> bc
{"term":{"n":{"value":2}}} -> bc
{"term":{"n":7}} -> 
{"term":{"n":9223372036854775807}} -> g
{"term":{"n":-9223372036854775808}} -> h
{"term":{"k":"x"}} -> acd
{"term":{"k":{"value":"x"}}} -> acd
{"term":{"k":""}} -> g
{"term":{"k":"Y"}} -> l
{"term":{"k":"\uffff"}} -> i
{"term":{"k":"\ud800\udc00"}} -> j
{"term":{"zz":5}} -> 
{"term":{"zz":"x"}} -> 
{"term":{"n":"x"}} -> another kind
{"term":{"k":1}} -> another kind
"#;

#[test]
fn terms(rt: HostRuntime) -> Result<(), Fail> {
    finds(&rt, rt.alloc(), TERMS)
}

const RANGES: &str = r#"
{"range":{"zz":{}}} -> 
{"range":{"zz":{"gt":1,"lt":"x"}}} -> 
{"range":{"n":{}}} -> abceghijl
{"range":{"k":{}}} -> abcdghijl
{"range":{"n":{"gt":2}}} -> egl
{"range":{"n":{"gte":2}}} -> bcegl
{"range":{"n":{"lt":0}}} -> hj
{"range":{"n":{"lte":0}}} -> hij
{"range":{"n":{"gt":0,"lt":3}}} -> abc
{"range":{"n":{"gte":2,"lte":2}}} -> bc
{"range":{"n":{"gt":2,"lt":2}}} -> 
{"range":{"n":{"gte":9223372036854775807}}} -> g
{"range":{"n":{"gt":9223372036854775807}}} -> 
{"range":{"n":{"lte":-9223372036854775808}}} -> h
{"range":{"n":{"gt":null,"lte":1}}} -> ahij
{"range":{"n":{"gt":null}}} -> abceghijl
{"range":{"k":{"gt":"z"}}} -> hij
{"range":{"k":{"gt":"\uffff"}}} -> j
{"range":{"k":{"lt":"\ud800\udc00","gte":"y"}}} -> bhi
{"range":{"k":{"lte":""}}} -> g
{"range":{"k":{"lt":""}}} -> 
{"range":{"k":{"gte":"X","lt":"y"}}} -> acdl
{"range":{"n":{"gt":0,"lt":"x"}}} -> another kind
{"range":{"k":{"lt":5}}} -> another kind
"#;

#[test]
fn ranges(rt: HostRuntime) -> Result<(), Fail> {
    finds(&rt, rt.alloc(), RANGES)
}

const BOOLS: &str = r#"
{"bool":{}} -> abcdefghijlm
{"bool":{"must":{"term":{"k":"x"}}}} -> acd
{"bool":{"must":[{"term":{"k":"x"}},{"term":{"n":2}}]}} -> c
{"bool":{"filter":[{"range":{"n":{"gte":2}}}],"must_not":{"term":{"k":"x"}}}} -> begl
{"bool":{"must_not":{"match_all":{}}}} -> 
{"bool":{"must_not":[{"range":{"n":{}}}]}} -> dfm
{"bool":{"should":[{"term":{"n":1}},{"term":{"n":3}}]}} -> ae
{"bool":{"should":[{"term":{"n":1}},{"term":{"k":"x"}}],"minimum_should_match":2}} -> a
{"bool":{"should":[{"term":{"n":1}}],"minimum_should_match":0}} -> abcdefghijlm
{"bool":{"should":[{"term":{"n":1}}],"minimum_should_match":2}} -> 
{"bool":{"must":{"match_all":{}},"should":{"term":{"n":1}}}} -> abcdefghijlm
{"bool":{"filter":{"match_all":{}},"should":{"term":{"n":1}}}} -> abcdefghijlm
{"bool":{"filter":[],"must":[],"should":[{"term":{"n":1}}]}} -> a
{"bool":{"filter":{"match_all":{}},"should":[{"term":{"k":"x"}}],"minimum_should_match":1}} -> acd
{"bool":{"should":[]}} -> abcdefghijlm
{"bool":{"should":[],"minimum_should_match":1}} -> 
{"bool":{"should":{"bool":{"must":[{"term":{"k":"x"}}],"must_not":{"term":{"n":1}}}}}} -> cd
{"bool":{"should":[{"term":{"n":1}},{"term":{"n":1}}],"minimum_should_match":2}} -> a
{"bool":{"must_not":{"bool":{"must_not":{"term":{"n":3}}}}}} -> e
{"bool":{"must_not":{"term":{"n":"x"}}}} -> another kind
"#;

#[test]
fn bools(rt: HostRuntime) -> Result<(), Fail> {
    finds(&rt, rt.alloc(), BOOLS)
}

// The body of a search for a query in so many others.
fn nested(alloc: Global, count: usize, inner: &str) -> Result<String, Fail> {
    let before = r#"{"bool":{"must":"#.repeat(alloc, count)?;
    let after = "}}".repeat(alloc, count)?;
    Ok(format!(in alloc; "{{\"query\":{before}{inner}{after}}}")?)
}

// JSON has at most 127 levels here: one of the body, two of each query.
#[test]
fn levels(rt: HostRuntime) -> Result<(), Fail> {
    let alloc = rt.alloc();
    let body = nested(alloc, 62, r#"{"match_all":{}}"#)?;
    let body = read_search(alloc, body.as_bytes(), true, 512)
        .ok()
        .ok_or("127 levels")?;
    let mapping = mapping(alloc)?;
    let rows = rows(alloc, &mapping)?;
    let found = found(alloc, &mapping, &rows, &body.request.query)?;
    assert_eq!(rt; found.as_str(), "abcdefghijlm");
    let body = nested(alloc, 62, r#"[{"match_all":{}}]"#)?;
    let read = read_search(alloc, body.as_bytes(), true, 512);
    assert!(rt; matches!(read, Err(Failure::Is(BodyFault::NotJson))));
    Ok(())
}
