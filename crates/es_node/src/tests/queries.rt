//! Sessions with queries and searches of an index and of a view, and searches that are refused.
use crate::tests::session::plays;
use std::test::Fail;

const QUERIES: &str = r#"
PUT /r {"settings":{"number_of_shards":2},"mappings":{"properties":{"n":{"type":"long"},"k":{"type":"keyword"}}}}
200 {"acknowledged":true,"shards_acknowledged":true,"index":"r"}
PUT /r/_doc/a {"n":10}
201 {"_index":"r","_id":"a","result":"created","_seq_no":0}
PUT /r/_doc/b {"n":11}
201 {"_index":"r","_id":"b","result":"created","_seq_no":0}
GET /r/_search
200 {"took":0,"timed_out":false,"_shards":{"total":2,"successful":2,"skipped":2,"failed":0},"hits":{"total":{"value":0,"relation":"eq"},"max_score":null,"hits":[]}}
POST /r/_refresh
200 {"_shards":{"total":2,"successful":2,"failed":0}}
POST /r/_search {"query":{"range":{"n":{"gt":10}}}}
200 {"took":0,"timed_out":false,"_shards":{"total":2,"successful":2,"skipped":1,"failed":0},"hits":{"total":{"value":1,"relation":"eq"},"max_score":null,"hits":[{"_index":"r","_id":"b","_score":null,"_source":{"n":11}}]}}
POST /r/_search {"query":{"range":{"n":{"gte":10}}}}
200 {"took":0,"timed_out":false,"_shards":{"total":2,"successful":2,"skipped":0,"failed":0},"hits":{"total":{"value":2,"relation":"eq"},"max_score":null,"hits":[{"_index":"r","_id":"a","_score":null,"_source":{"n":10}},{"_index":"r","_id":"b","_score":null,"_source":{"n":11}}]}}
POST /r/_search {"query":{"term":{"n":12}}}
200 {"took":0,"timed_out":false,"_shards":{"total":2,"successful":2,"skipped":2,"failed":0},"hits":{"total":{"value":0,"relation":"eq"},"max_score":null,"hits":[]}}
POST /r/_search {"query":{"term":{"n":"x"}}}
400 query_shard_exception: a query value of another kind
POST /r/_search {"sort":["zz"]}
400 query_shard_exception: no mapping for a sort field
POST /r/_search {"query":{"term":{"zz":1}}}
200 {"took":0,"timed_out":false,"_shards":{"total":2,"successful":2,"skipped":2,"failed":0},"hits":{"total":{"value":0,"relation":"eq"},"max_score":null,"hits":[]}}
GET /r/_search {"query":{"bool":{"must_not":{"term":{"n":{"value":11}}},"filter":[{"range":{"n":{}}}]}},"track_total_hits":true}
200 {"took":0,"timed_out":false,"_shards":{"total":2,"successful":2,"skipped":0,"failed":0},"hits":{"total":{"value":1,"relation":"eq"},"max_score":null,"hits":[{"_index":"r","_id":"a","_score":null,"_source":{"n":10}}]}}
POST /r/_search {"size":0}
200 {"took":0,"timed_out":false,"_shards":{"total":2,"successful":2,"skipped":0,"failed":0},"hits":{"total":{"value":2,"relation":"eq"},"max_score":null,"hits":[]}}
POST /r/_search {"size":1,"query":{"match_all":{}}}
200 {"took":0,"timed_out":false,"_shards":{"total":2,"successful":2,"skipped":0,"failed":0},"hits":{"total":{"value":2,"relation":"eq"},"max_score":null,"hits":[{"_index":"r","_id":"a","_score":null,"_source":{"n":10}}]}}
PUT /r/_doc/b {"n":9}
200 {"_index":"r","_id":"b","result":"updated","_seq_no":1}
POST /r/_search {"query":{"range":{"n":{"lt":10}}}}
200 {"took":0,"timed_out":false,"_shards":{"total":2,"successful":2,"skipped":2,"failed":0},"hits":{"total":{"value":0,"relation":"eq"},"max_score":null,"hits":[]}}
POST /r/_refresh
200 {"_shards":{"total":2,"successful":2,"failed":0}}
POST /r/_search {"query":{"range":{"n":{"lt":10}}}}
200 {"took":0,"timed_out":false,"_shards":{"total":2,"successful":2,"skipped":1,"failed":0},"hits":{"total":{"value":1,"relation":"eq"},"max_score":null,"hits":[{"_index":"r","_id":"b","_score":null,"_source":{"n":9}}]}}
"#;

#[test]
fn queries(rt: HostRuntime) -> Result<(), Fail> {
    plays(&rt, rt.alloc(), QUERIES)
}

const SEARCHED: &str = r#"
PUT /docs/_doc/a?refresh=true {"n":1}
201 {"_index":"docs","_id":"a","result":"created","_seq_no":0}
POST /docs/_search
200 {"took":0,"timed_out":false,"_shards":{"total":1,"successful":1,"skipped":0,"failed":0},"hits":{"total":{"value":1,"relation":"eq"},"max_score":null,"hits":[{"_index":"docs","_id":"a","_score":null,"_source":{"n":1}}]}}
DELETE /docs/_doc/zz
404 {"_index":"docs","_id":"zz","result":"not_found","_seq_no":1}
PUT /docs/_doc/a%2Fb {}
201 {"_index":"docs","_id":"a/b","result":"created","_seq_no":2}
POST /docs/_pit?keep_alive=1m
200 {"id":"UAAAAAAAAAAB"}
POST /_search {"pit":{"id":"UAAAAAAAAAAB"}}
200 {"pit_id":"UAAAAAAAAAAB","took":0,"timed_out":false,"_shards":{"total":1,"successful":1,"skipped":0,"failed":0},"hits":{"total":{"value":1,"relation":"eq"},"max_score":null,"hits":[{"_index":"docs","_id":"a","_score":null,"_source":{"n":1},"sort":[0]}]}}
GET /_search {"pit":{"id":"UAAAAAAAAAAB"},"query":{"term":{"n":1}}}
200 {"pit_id":"UAAAAAAAAAAB","took":0,"timed_out":false,"_shards":{"total":1,"successful":1,"skipped":1,"failed":0},"hits":{"total":{"value":0,"relation":"eq"},"max_score":null,"hits":[]}}
GET /_search {"pit":{"id":"UAAAAAAAAAAB"},"query":{"match_all":{}},"size":10000,"search_after":[-1]}
200 {"pit_id":"UAAAAAAAAAAB","took":0,"timed_out":false,"_shards":{"total":1,"successful":1,"skipped":0,"failed":0},"hits":{"total":{"value":1,"relation":"eq"},"max_score":null,"hits":[{"_index":"docs","_id":"a","_score":null,"_source":{"n":1},"sort":[0]}]}}
"#;

#[test]
fn searches_of_an_index_and_of_a_view(rt: HostRuntime) -> Result<(), Fail> {
    plays(&rt, rt.alloc(), SEARCHED)
}

const REFUSED_SEARCHES: &str = r#"
POST /zz/_search
404 index_not_found_exception: no such index [zz]
POST /Z/_search
400 illegal_argument_exception: limit [index]
POST /Z/_search {"size":10001}
400 illegal_argument_exception: limit [index]
POST /docs/_search {"size":10001}
400 illegal_argument_exception: limit [window]
POST /docs/_search {"size":10000}
200 {"took":0,"timed_out":false,"_shards":{"total":1,"successful":1,"skipped":1,"failed":0},"hits":{"total":{"value":0,"relation":"eq"},"max_score":null,"hits":[]}}
POST /_search
400 illegal_argument_exception: limit [pit]
POST /_search {"size":10001}
400 illegal_argument_exception: limit [pit]
POST /docs/_search {"size":-1}
400 parsing_exception: bad body
POST /Z/_search {"x":1}
400 parsing_exception: bad body
POST /docs/_search {"query":{}}
400 parsing_exception: bad body
POST /docs/_search?x=1 {"x":1}
400 illegal_argument_exception: bad parameter [x]
POST /%FF/_search?x=1 {"x":1}
400 illegal_argument_exception: bad parameter [index]
POST /_search?scroll=1m
400 illegal_argument_exception: bad parameter [scroll]
POST /docs/_search?x=1 {"pit":{"keep_alive":"1m"},"x":1}
400 illegal_argument_exception: bad parameter [x]
POST /docs/_search {"search_after":[1]}
400 illegal_argument_exception: search_after does not fit the sort
POST /docs/_search {"sort":["n"]}
400 query_shard_exception: no mapping for a sort field
POST /docs/_search?scroll=1m
501 not_built_exception: not built
POST /docs/_search?pretty
501 not_built_exception: not built
PUT /docs/_search
501 not_built_exception: not built
POST /_x/_search
501 not_built_exception: not built
"#;

#[test]
fn refused_searches(rt: HostRuntime) -> Result<(), Fail> {
    plays(&rt, rt.alloc(), REFUSED_SEARCHES)
}
