//! Sessions with slices, which share the documents of a point in time out, and with the phases of a search.
use crate::tests::session::{SIX_EQUAL, plays};
use std::test::Fail;

// Three slices of an index of two shards: one shard has two of them, the other is the third.
const MORE_SLICES: &str = r#"
POST /_search {"pit":{"id":"UAAAAAAAAAAB"},"slice":{"id":0,"max":3}}
200 {"pit_id":"UAAAAAAAAAAB","took":0,"timed_out":false,"_shards":{"total":2,"successful":2,"skipped":1,"failed":0},"hits":{"total":{"value":2,"relation":"eq"},"max_score":null,"hits":[{"_index":"t","_id":"a","_score":null,"_source":{"n":7},"sort":[0]},{"_index":"t","_id":"e","_score":null,"_source":{"n":7},"sort":[2]}]}}
POST /_search {"pit":{"id":"UAAAAAAAAAAB"},"slice":{"id":1,"max":3}}
200 {"pit_id":"UAAAAAAAAAAB","took":0,"timed_out":false,"_shards":{"total":2,"successful":2,"skipped":1,"failed":0},"hits":{"total":{"value":3,"relation":"eq"},"max_score":null,"hits":[{"_index":"t","_id":"b","_score":null,"_source":{"n":7},"sort":[4294967296]},{"_index":"t","_id":"d","_score":null,"_source":{"n":7},"sort":[4294967297]},{"_index":"t","_id":"f","_score":null,"_source":{"n":7},"sort":[4294967298]}]}}
POST /_search {"pit":{"id":"UAAAAAAAAAAB"},"slice":{"id":2,"max":3}}
200 {"pit_id":"UAAAAAAAAAAB","took":0,"timed_out":false,"_shards":{"total":2,"successful":2,"skipped":1,"failed":0},"hits":{"total":{"value":1,"relation":"eq"},"max_score":null,"hits":[{"_index":"t","_id":"c","_score":null,"_source":{"n":7},"sort":[1]}]}}
POST /_search {"pit":{"id":"UAAAAAAAAAAB"},"slice":{"id":1,"max":3},"size":2}
200 {"pit_id":"UAAAAAAAAAAB","took":0,"timed_out":false,"_shards":{"total":2,"successful":2,"skipped":1,"failed":0},"hits":{"total":{"value":3,"relation":"eq"},"max_score":null,"hits":[{"_index":"t","_id":"b","_score":null,"_source":{"n":7},"sort":[4294967296]},{"_index":"t","_id":"d","_score":null,"_source":{"n":7},"sort":[4294967297]}]}}
POST /_search {"pit":{"id":"UAAAAAAAAAAB"},"slice":{"id":1,"max":3},"size":2,"search_after":[4294967297]}
200 {"pit_id":"UAAAAAAAAAAB","took":0,"timed_out":false,"_shards":{"total":2,"successful":2,"skipped":1,"failed":0},"hits":{"total":{"value":3,"relation":"eq"},"max_score":null,"hits":[{"_index":"t","_id":"f","_score":null,"_source":{"n":7},"sort":[4294967298]}]}}
POST /_search {"pit":{"id":"UAAAAAAAAAAB"},"slice":{"id":1,"max":3},"query":{"term":{"n":8}}}
200 {"pit_id":"UAAAAAAAAAAB","took":0,"timed_out":false,"_shards":{"total":2,"successful":2,"skipped":2,"failed":0},"hits":{"total":{"value":0,"relation":"eq"},"max_score":null,"hits":[]}}
POST /_search {"pit":{"id":"UAAAAAAAAAAB"},"slice":{"id":1,"max":3},"query":{"term":{"n":"x"}}}
400 query_shard_exception: a query value of another kind
POST /_search {"pit":{"id":"UAAAAAAAAAAB"},"slice":{"id":3,"max":3}}
400 illegal_argument_exception: limit [slice]
POST /_search {"pit":{"id":"UAAAAAAAAAAB"},"slice":{"id":0,"max":1}}
400 illegal_argument_exception: limit [slice]
POST /_search {"pit":{"id":"UAAAAAAAAAAB"},"slice":{"id":0,"max":1025}}
400 illegal_argument_exception: limit [slice]
POST /t/_search {"slice":{"id":0,"max":2}}
400 illegal_argument_exception: limit [pit]
POST /_search {"pit":{"id":"UAAAAAAAAAAB"},"slice":{"id":0}}
400 parsing_exception: bad body
"#;

#[test]
fn more_slices_than_shards(rt: HostRuntime) -> Result<(), Fail> {
    let alloc = rt.alloc();
    let text = format!(in alloc; "{SIX_EQUAL}{MORE_SLICES}")?;
    plays(&rt, alloc, text.as_str())
}

// Two slices of an index of five shards, and of one shard.
const FEWER_SLICES: &str = r#"
PUT /v {"settings":{"number_of_shards":5}}
200 {"acknowledged":true,"shards_acknowledged":true,"index":"v"}
PUT /v/_doc/a {}
201 {"_index":"v","_id":"a","result":"created","_seq_no":0}
PUT /v/_doc/b {}
201 {"_index":"v","_id":"b","result":"created","_seq_no":0}
PUT /v/_doc/c {}
201 {"_index":"v","_id":"c","result":"created","_seq_no":0}
PUT /v/_doc/d {}
201 {"_index":"v","_id":"d","result":"created","_seq_no":1}
PUT /v/_doc/e {}
201 {"_index":"v","_id":"e","result":"created","_seq_no":0}
PUT /v/_doc/f {}
201 {"_index":"v","_id":"f","result":"created","_seq_no":0}
POST /v/_refresh
200 {"_shards":{"total":5,"successful":5,"failed":0}}
POST /v/_pit?keep_alive=1m
200 {"id":"UAAAAAAAAAAB"}
POST /_search {"pit":{"id":"UAAAAAAAAAAB"},"slice":{"id":0,"max":2}}
200 {"pit_id":"UAAAAAAAAAAB","took":0,"timed_out":false,"_shards":{"total":5,"successful":5,"skipped":2,"failed":0},"hits":{"total":{"value":3,"relation":"eq"},"max_score":null,"hits":[{"_index":"v","_id":"a","_score":null,"_source":{},"sort":[0]},{"_index":"v","_id":"b","_score":null,"_source":{},"sort":[8589934592]},{"_index":"v","_id":"e","_score":null,"_source":{},"sort":[17179869184]}]}}
POST /_search {"pit":{"id":"UAAAAAAAAAAB"},"slice":{"id":1,"max":2}}
200 {"pit_id":"UAAAAAAAAAAB","took":0,"timed_out":false,"_shards":{"total":5,"successful":5,"skipped":3,"failed":0},"hits":{"total":{"value":3,"relation":"eq"},"max_score":null,"hits":[{"_index":"v","_id":"f","_score":null,"_source":{},"sort":[4294967296]},{"_index":"v","_id":"c","_score":null,"_source":{},"sort":[12884901888]},{"_index":"v","_id":"d","_score":null,"_source":{},"sort":[12884901889]}]}}
PUT /docs/_doc/a {}
201 {"_index":"docs","_id":"a","result":"created","_seq_no":0}
PUT /docs/_doc/b {}
201 {"_index":"docs","_id":"b","result":"created","_seq_no":1}
PUT /docs/_doc/c {}
201 {"_index":"docs","_id":"c","result":"created","_seq_no":2}
POST /docs/_refresh
200 {"_shards":{"total":1,"successful":1,"failed":0}}
POST /docs/_pit?keep_alive=1m
200 {"id":"UAAAAAAAAAAC"}
POST /_search {"pit":{"id":"UAAAAAAAAAAC"},"slice":{"id":0,"max":2}}
200 {"pit_id":"UAAAAAAAAAAC","took":0,"timed_out":false,"_shards":{"total":1,"successful":1,"skipped":0,"failed":0},"hits":{"total":{"value":2,"relation":"eq"},"max_score":null,"hits":[{"_index":"docs","_id":"a","_score":null,"_source":{},"sort":[0]},{"_index":"docs","_id":"c","_score":null,"_source":{},"sort":[2]}]}}
POST /_search {"pit":{"id":"UAAAAAAAAAAC"},"slice":{"id":1,"max":2}}
200 {"pit_id":"UAAAAAAAAAAC","took":0,"timed_out":false,"_shards":{"total":1,"successful":1,"skipped":0,"failed":0},"hits":{"total":{"value":1,"relation":"eq"},"max_score":null,"hits":[{"_index":"docs","_id":"b","_score":null,"_source":{},"sort":[1]}]}}
POST /v/_search?batched_reduce_size=2
200 {"took":0,"timed_out":false,"num_reduce_phases":3,"_shards":{"total":5,"successful":5,"skipped":0,"failed":0},"hits":{"total":{"value":6,"relation":"eq"},"max_score":null,"hits":[{"_index":"v","_id":"a","_score":null,"_source":{}},{"_index":"v","_id":"f","_score":null,"_source":{}},{"_index":"v","_id":"b","_score":null,"_source":{}},{"_index":"v","_id":"c","_score":null,"_source":{}},{"_index":"v","_id":"d","_score":null,"_source":{}},{"_index":"v","_id":"e","_score":null,"_source":{}}]}}
GET /v/_search?batched_reduce_size=4
200 {"took":0,"timed_out":false,"num_reduce_phases":2,"_shards":{"total":5,"successful":5,"skipped":0,"failed":0},"hits":{"total":{"value":6,"relation":"eq"},"max_score":null,"hits":[{"_index":"v","_id":"a","_score":null,"_source":{}},{"_index":"v","_id":"f","_score":null,"_source":{}},{"_index":"v","_id":"b","_score":null,"_source":{}},{"_index":"v","_id":"c","_score":null,"_source":{}},{"_index":"v","_id":"d","_score":null,"_source":{}},{"_index":"v","_id":"e","_score":null,"_source":{}}]}}
GET /v/_search?batched_reduce_size=5 {"size":0}
200 {"took":0,"timed_out":false,"_shards":{"total":5,"successful":5,"skipped":0,"failed":0},"hits":{"total":{"value":6,"relation":"eq"},"max_score":null,"hits":[]}}
POST /_search?batched_reduce_size=2 {"pit":{"id":"UAAAAAAAAAAB"},"slice":{"id":0,"max":2},"size":1}
200 {"pit_id":"UAAAAAAAAAAB","took":0,"timed_out":false,"num_reduce_phases":2,"_shards":{"total":5,"successful":5,"skipped":2,"failed":0},"hits":{"total":{"value":3,"relation":"eq"},"max_score":null,"hits":[{"_index":"v","_id":"a","_score":null,"_source":{},"sort":[0]}]}}
POST /v/_search?batched_reduce_size=2 {"query":{"match_none":{}}}
200 {"took":0,"timed_out":false,"_shards":{"total":5,"successful":5,"skipped":5,"failed":0},"hits":{"total":{"value":0,"relation":"eq"},"max_score":null,"hits":[]}}
POST /v/_search?batched_reduce_size=1
400 illegal_argument_exception: limit [batch]
POST /v/_search?batched_reduce_size=1025 {"sort":["_score"]}
400 illegal_argument_exception: limit [batch]
POST /v/_search?batched_reduce_size=-2
400 illegal_argument_exception: bad parameter [batched_reduce_size]
"#;

#[test]
fn fewer_slices_than_shards(rt: HostRuntime) -> Result<(), Fail> {
    plays(&rt, rt.alloc(), FEWER_SLICES)
}
