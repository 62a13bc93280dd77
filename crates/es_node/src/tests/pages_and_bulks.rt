//! Sessions with documents, refreshes, points in time and bulks.
use crate::tests::session::plays;
use std::test::Fail;

const PAGES: &str = r#"
PUT /docs/_doc/a {"n":1}
201 {"_index":"docs","_id":"a","result":"created","_seq_no":0}
PUT /docs/_doc/b  {"n":2} 
201 {"_index":"docs","_id":"b","result":"created","_seq_no":1}
POST /docs/_refresh
200 {"_shards":{"total":1,"successful":1,"failed":0}}
POST /docs/_pit?keep_alive=1m
200 {"id":"UAAAAAAAAAAB"}
POST /_search {"pit":{"id":"UAAAAAAAAAAB"},"size":1}
200 {"pit_id":"UAAAAAAAAAAB","took":0,"timed_out":false,"_shards":{"total":1,"successful":1,"skipped":0,"failed":0},"hits":{"total":{"value":2,"relation":"eq"},"max_score":null,"hits":[{"_index":"docs","_id":"a","_score":null,"_source":{"n":1},"sort":[0]}]}}
POST /_search {"pit":{"id":"UAAAAAAAAAAB"},"size":1,"search_after":[0]}
200 {"pit_id":"UAAAAAAAAAAB","took":0,"timed_out":false,"_shards":{"total":1,"successful":1,"skipped":0,"failed":0},"hits":{"total":{"value":2,"relation":"eq"},"max_score":null,"hits":[{"_index":"docs","_id":"b","_score":null,"_source":{"n":2},"sort":[1]}]}}
POST /_search {"pit":{"id":"UAAAAAAAAAAB"},"size":1,"search_after":[1]}
200 {"pit_id":"UAAAAAAAAAAB","took":0,"timed_out":false,"_shards":{"total":1,"successful":1,"skipped":0,"failed":0},"hits":{"total":{"value":2,"relation":"eq"},"max_score":null,"hits":[]}}
"#;

#[test]
fn pages_of_a_point_in_time(rt: HostRuntime) -> Result<(), Fail> {
    plays(&rt, rt.alloc(), PAGES)
}

const LATER: &str = r#"
PUT /docs/_doc/a {"n":1}
201 {"_index":"docs","_id":"a","result":"created","_seq_no":0}
PUT /docs/_doc/b {"n":2}
201 {"_index":"docs","_id":"b","result":"created","_seq_no":1}
POST /docs/_refresh
200 {"_shards":{"total":1,"successful":1,"failed":0}}
POST /docs/_pit?keep_alive=1m
200 {"id":"UAAAAAAAAAAB"}
PUT /docs/_doc/c {}
201 {"_index":"docs","_id":"c","result":"created","_seq_no":2}
POST /_search {"pit":{"id":"UAAAAAAAAAAB"},"size":10}
200 {"pit_id":"UAAAAAAAAAAB","took":0,"timed_out":false,"_shards":{"total":1,"successful":1,"skipped":0,"failed":0},"hits":{"total":{"value":2,"relation":"eq"},"max_score":null,"hits":[{"_index":"docs","_id":"a","_score":null,"_source":{"n":1},"sort":[0]},{"_index":"docs","_id":"b","_score":null,"_source":{"n":2},"sort":[1]}]}}
POST /docs/_pit?keep_alive=1m
200 {"id":"UAAAAAAAAAAC"}
POST /_search {"size":10,"pit":{"id":"UAAAAAAAAAAC"}}
200 {"pit_id":"UAAAAAAAAAAC","took":0,"timed_out":false,"_shards":{"total":1,"successful":1,"skipped":0,"failed":0},"hits":{"total":{"value":2,"relation":"eq"},"max_score":null,"hits":[{"_index":"docs","_id":"a","_score":null,"_source":{"n":1},"sort":[0]},{"_index":"docs","_id":"b","_score":null,"_source":{"n":2},"sort":[1]}]}}
GET /docs/_refresh
200 {"_shards":{"total":1,"successful":1,"failed":0}}
POST /docs/_pit?keep_alive=1m
200 {"id":"UAAAAAAAAAAD"}
POST /_search {"pit":{"id":"UAAAAAAAAAAD"},"size":10}
200 {"pit_id":"UAAAAAAAAAAD","took":0,"timed_out":false,"_shards":{"total":1,"successful":1,"skipped":0,"failed":0},"hits":{"total":{"value":3,"relation":"eq"},"max_score":null,"hits":[{"_index":"docs","_id":"a","_score":null,"_source":{"n":1},"sort":[0]},{"_index":"docs","_id":"b","_score":null,"_source":{"n":2},"sort":[1]},{"_index":"docs","_id":"c","_score":null,"_source":{},"sort":[2]}]}}
POST /_search {"pit":{"id":"UAAAAAAAAAAB"},"size":10}
200 {"pit_id":"UAAAAAAAAAAB","took":0,"timed_out":false,"_shards":{"total":1,"successful":1,"skipped":0,"failed":0},"hits":{"total":{"value":2,"relation":"eq"},"max_score":null,"hits":[{"_index":"docs","_id":"a","_score":null,"_source":{"n":1},"sort":[0]},{"_index":"docs","_id":"b","_score":null,"_source":{"n":2},"sort":[1]}]}}
"#;

#[test]
fn later_writes_do_not_show(rt: HostRuntime) -> Result<(), Fail> {
    plays(&rt, rt.alloc(), LATER)
}

const OUTLIVED: &str = r#"
PUT /docs/_doc/a {}
201 {"_index":"docs","_id":"a","result":"created","_seq_no":0}
POST /docs/_refresh
200 {"_shards":{"total":1,"successful":1,"failed":0}}
PUT /docs/_doc/b {}
201 {"_index":"docs","_id":"b","result":"created","_seq_no":1}
POST /docs/_refresh
200 {"_shards":{"total":1,"successful":1,"failed":0}}
PUT /docs/_doc/c {}
201 {"_index":"docs","_id":"c","result":"created","_seq_no":2}
POST /docs/_refresh
200 {"_shards":{"total":1,"successful":1,"failed":0}}
PUT /docs/_doc/d {}
201 {"_index":"docs","_id":"d","result":"created","_seq_no":3}
POST /docs/_refresh
200 {"_shards":{"total":1,"successful":1,"failed":0}}
PUT /docs/_doc/e {}
201 {"_index":"docs","_id":"e","result":"created","_seq_no":4}
POST /docs/_refresh
200 {"_shards":{"total":1,"successful":1,"failed":0}}
PUT /docs/_doc/f {}
201 {"_index":"docs","_id":"f","result":"created","_seq_no":5}
POST /docs/_refresh
200 {"_shards":{"total":1,"successful":1,"failed":0}}
PUT /docs/_doc/g {}
201 {"_index":"docs","_id":"g","result":"created","_seq_no":6}
POST /docs/_refresh
200 {"_shards":{"total":1,"successful":1,"failed":0}}
POST /docs/_pit?keep_alive=1m
200 {"id":"UAAAAAAAAAAB"}
DELETE /docs/_doc/a
200 {"_index":"docs","_id":"a","result":"deleted","_seq_no":7}
PUT /docs/_doc/h {}
201 {"_index":"docs","_id":"h","result":"created","_seq_no":8}
POST /docs/_refresh
200 {"_shards":{"total":1,"successful":1,"failed":0}}
POST /_search {"pit":{"id":"UAAAAAAAAAAB"},"size":10}
200 {"pit_id":"UAAAAAAAAAAB","took":0,"timed_out":false,"_shards":{"total":1,"successful":1,"skipped":0,"failed":0},"hits":{"total":{"value":7,"relation":"eq"},"max_score":null,"hits":[{"_index":"docs","_id":"a","_score":null,"_source":{},"sort":[0]},{"_index":"docs","_id":"b","_score":null,"_source":{},"sort":[1]},{"_index":"docs","_id":"c","_score":null,"_source":{},"sort":[2]},{"_index":"docs","_id":"d","_score":null,"_source":{},"sort":[3]},{"_index":"docs","_id":"e","_score":null,"_source":{},"sort":[4]},{"_index":"docs","_id":"f","_score":null,"_source":{},"sort":[5]},{"_index":"docs","_id":"g","_score":null,"_source":{},"sort":[6]}]}}
POST /docs/_pit?keep_alive=1m
200 {"id":"UAAAAAAAAAAC"}
POST /_search {"pit":{"id":"UAAAAAAAAAAC"},"size":10}
200 {"pit_id":"UAAAAAAAAAAC","took":0,"timed_out":false,"_shards":{"total":1,"successful":1,"skipped":0,"failed":0},"hits":{"total":{"value":7,"relation":"eq"},"max_score":null,"hits":[{"_index":"docs","_id":"b","_score":null,"_source":{},"sort":[0]},{"_index":"docs","_id":"c","_score":null,"_source":{},"sort":[1]},{"_index":"docs","_id":"d","_score":null,"_source":{},"sort":[2]},{"_index":"docs","_id":"e","_score":null,"_source":{},"sort":[3]},{"_index":"docs","_id":"f","_score":null,"_source":{},"sort":[4]},{"_index":"docs","_id":"g","_score":null,"_source":{},"sort":[5]},{"_index":"docs","_id":"h","_score":null,"_source":{},"sort":[6]}]}}
"#;

#[test]
fn a_view_outlives_a_removal(rt: HostRuntime) -> Result<(), Fail> {
    plays(&rt, rt.alloc(), OUTLIVED)
}

const REMOVED: &str = r#"
PUT /docs/_doc/a?refresh {}
201 {"_index":"docs","_id":"a","result":"created","_seq_no":0}
PUT /docs/_doc/b?refresh=true {}
201 {"_index":"docs","_id":"b","result":"created","_seq_no":1}
POST /docs/_doc/c?refresh=wait_for {}
201 {"_index":"docs","_id":"c","result":"created","_seq_no":2}
PUT /docs/_doc/d?refresh=false {}
201 {"_index":"docs","_id":"d","result":"created","_seq_no":3}
POST /docs/_pit?keep_alive=1m
200 {"id":"UAAAAAAAAAAB"}
DELETE /docs/_doc/a
200 {"_index":"docs","_id":"a","result":"deleted","_seq_no":4}
DELETE /docs/_doc/zz?refresh=true
404 {"_index":"docs","_id":"zz","result":"not_found","_seq_no":5}
PUT /docs/_doc/b {"n":2}
200 {"_index":"docs","_id":"b","result":"updated","_seq_no":6}
POST /_search {"pit":{"id":"UAAAAAAAAAAB"},"size":10}
200 {"pit_id":"UAAAAAAAAAAB","took":0,"timed_out":false,"_shards":{"total":1,"successful":1,"skipped":0,"failed":0},"hits":{"total":{"value":3,"relation":"eq"},"max_score":null,"hits":[{"_index":"docs","_id":"a","_score":null,"_source":{},"sort":[0]},{"_index":"docs","_id":"b","_score":null,"_source":{},"sort":[1]},{"_index":"docs","_id":"c","_score":null,"_source":{},"sort":[2]}]}}
POST /docs/_pit?keep_alive=1m
200 {"id":"UAAAAAAAAAAC"}
POST /_search {"pit":{"id":"UAAAAAAAAAAC"},"size":10}
200 {"pit_id":"UAAAAAAAAAAC","took":0,"timed_out":false,"_shards":{"total":1,"successful":1,"skipped":0,"failed":0},"hits":{"total":{"value":3,"relation":"eq"},"max_score":null,"hits":[{"_index":"docs","_id":"b","_score":null,"_source":{},"sort":[0]},{"_index":"docs","_id":"c","_score":null,"_source":{},"sort":[1]},{"_index":"docs","_id":"d","_score":null,"_source":{},"sort":[2]}]}}
PUT /docs/_doc/a%2Fb {}
201 {"_index":"docs","_id":"a/b","result":"created","_seq_no":7}
"#;

#[test]
fn refreshes_after_writes(rt: HostRuntime) -> Result<(), Fail> {
    plays(&rt, rt.alloc(), REMOVED)
}

const BULK: &str = r#"
PUT /r {"settings":{"number_of_shards":2},"mappings":{"properties":{"n":{"type":"long"}}}}
200 {"acknowledged":true,"shards_acknowledged":true,"index":"r"}
POST /r/_bulk
  {"index":{"_id":"a"}}
  {"n":1}
  {"index":{"_id":"b"}}
  {"n":"x"}
  {"index":{"_id":"c"}}
  {"n":3}
  {"index":{"_id":"a"}}
  {"n":4}
200 {"took":0,"errors":true,"items":[{"index":{"_index":"r","_id":"a","result":"created","_seq_no":0,"status":201}},{"index":{"_index":"r","_id":"b","status":400,"error":{"type":"document_parsing_exception","reason":"field [0] has a value of another kind"}}},{"index":{"_index":"r","_id":"c","result":"created","_seq_no":1,"status":201}},{"index":{"_index":"r","_id":"a","result":"updated","_seq_no":2,"status":200}}]}
PUT /_bulk?refresh
  {"delete":{"_index":"r","_id":"a"}}
  {"index":{"_index":"docs","_id":"a"}}
   {"n":"x"} 
  {"delete":{"_index":"r","_id":"zz"}}
200 {"took":0,"errors":false,"items":[{"delete":{"_index":"r","_id":"a","result":"deleted","_seq_no":3,"status":200}},{"index":{"_index":"docs","_id":"a","result":"created","_seq_no":0,"status":201}},{"delete":{"_index":"r","_id":"zz","result":"not_found","_seq_no":0,"status":404}}]}
POST /docs/_pit?keep_alive=1m
200 {"id":"UAAAAAAAAAAB"}
POST /_search {"pit":{"id":"UAAAAAAAAAAB"},"size":10}
200 {"pit_id":"UAAAAAAAAAAB","took":0,"timed_out":false,"_shards":{"total":1,"successful":1,"skipped":0,"failed":0},"hits":{"total":{"value":1,"relation":"eq"},"max_score":null,"hits":[{"_index":"docs","_id":"a","_score":null,"_source":{"n":"x"},"sort":[0]}]}}
POST /r/_refresh
200 {"_shards":{"total":2,"successful":2,"failed":0}}
"#;

#[test]
fn bulks(rt: HostRuntime) -> Result<(), Fail> {
    plays(&rt, rt.alloc(), BULK)
}

const REFUSED_ITEMS: &str = r#"
POST /B/_bulk
  {"index":{"_id":"a"}}
  {}
  {"index":{"_index":"docs","_id":""}}
  {}
  {"index":{"_index":"zz","_id":"a"}}
  {}
  {"index":{"_index":"docs","_id":"a"}}
  []
  {"index":{"_index":"docs","_id":"b"}}
  {}
200 {"took":0,"errors":true,"items":[{"index":{"_index":"B","_id":"a","status":400,"error":{"type":"illegal_argument_exception","reason":"limit [index]"}}},{"index":{"_index":"docs","_id":"","status":400,"error":{"type":"illegal_argument_exception","reason":"limit [id]"}}},{"index":{"_index":"zz","_id":"a","status":404,"error":{"type":"index_not_found_exception","reason":"no such index [zz]"}}},{"index":{"_index":"docs","_id":"a","status":400,"error":{"type":"parsing_exception","reason":"bad body"}}},{"index":{"_index":"docs","_id":"b","result":"created","_seq_no":0,"status":201}}]}
POST /_bulk
  {"index":{"_index":"docs","_id":"c"}}
  {}
  {"index":{"_id":"d"}}
  {}
400 parsing_exception: bad body
POST /_bulk {"delete":{"_index":"docs","_id":"b"}}
400 parsing_exception: bad body
POST /docs/_bulk
400 parsing_exception: bad body
PUT /docs/_doc/c {}
201 {"_index":"docs","_id":"c","result":"created","_seq_no":1}
"#;

#[test]
fn items_are_refused_by_themselves(rt: HostRuntime) -> Result<(), Fail> {
    plays(&rt, rt.alloc(), REFUSED_ITEMS)
}

const REFUSED: &str = r#"
POST /zz/_refresh
404 index_not_found_exception: no such index [zz]
PUT /zz/_doc/a {}
404 index_not_found_exception: no such index [zz]
PUT /docs
400 resource_already_exists_exception: index [docs] exists
PUT /t {"settings":{"number_of_shards":0}}
400 illegal_argument_exception: limit [shards]
PUT /t {"settings":{"number_of_shards":1025},"mappings":{"properties":{"a.b":{"type":"long"}}}}
400 illegal_argument_exception: limit [shards]
PUT /t {"mappings":{"properties":{"a.b":{"type":"long"}}}}
400 illegal_argument_exception: limit [fields]
PUT /T {"settings":{"number_of_shards":0}}
400 illegal_argument_exception: limit [index]
PUT /T {"x":1}
400 parsing_exception: bad body
PUT /t?x=1 {"x":1}
400 illegal_argument_exception: bad parameter [x]
PUT /t%FF?x=1
400 illegal_argument_exception: bad parameter [index]
PUT /t%FF/_doc/%FF?x=1
400 illegal_argument_exception: bad parameter [index]
PUT /docs/_doc/%FF?x=1
400 illegal_argument_exception: bad parameter [id]
PUT /docs/_doc/a?refresh=maybe {}
400 illegal_argument_exception: bad parameter [refresh]
PUT /docs/_doc/a?refresh&refresh {}
400 illegal_argument_exception: bad parameter [refresh]
PUT /docs/_doc/a?refresh&x= {}
400 illegal_argument_exception: bad parameter [x]
PUT /docs/_doc/a [1]
400 parsing_exception: bad body
PUT /D/_doc/a {
400 parsing_exception: bad body
PUT /D/_doc/a {}
400 illegal_argument_exception: limit [index]
DELETE /docs/_doc/a {}
400 parsing_exception: bad body
POST /docs/_refresh {}
400 parsing_exception: bad body
POST /docs/_refresh?x=1 {}
400 illegal_argument_exception: bad parameter [x]
POST /docs/_bulk?x=1
400 illegal_argument_exception: bad parameter [x]
PUT /docs/_doc/a?pretty {}
501 not_built_exception: not built
PUT /_x
501 not_built_exception: not built
PUT /t/
501 not_built_exception: not built
GET /docs
501 not_built_exception: not built
GET /
501 not_built_exception: not built
POST /_search {"pit":{"id":"UAAAAAAAAAAB"},"size":1}
404 search_context_missing_exception: no context [UAAAAAAAAAAB]
PUT /docs/_doc/a {}
201 {"_index":"docs","_id":"a","result":"created","_seq_no":0}
"#;

#[test]
fn refusals(rt: HostRuntime) -> Result<(), Fail> {
    plays(&rt, rt.alloc(), REFUSED)
}
