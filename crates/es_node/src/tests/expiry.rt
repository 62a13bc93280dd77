//! Sessions of points in time that expire, are kept longer, and are closed.
use crate::tests::session::{SIX_EQUAL, plays};
use std::test::Fail;

const EXPIRES: &str = r#"
POST /docs/_pit?keep_alive=1m
200 {"id":"UAAAAAAAAAAB"}
@60000 POST /_search {"pit":{"id":"UAAAAAAAAAAB"},"size":0}
200 {"pit_id":"UAAAAAAAAAAB","took":0,"timed_out":false,"_shards":{"total":1,"successful":1,"skipped":1,"failed":0},"hits":{"total":{"value":0,"relation":"eq"},"max_score":null,"hits":[]}}
@5 POST /_search {"pit":{"id":"UAAAAAAAAAAB"},"size":0}
200 {"pit_id":"UAAAAAAAAAAB","took":0,"timed_out":false,"_shards":{"total":1,"successful":1,"skipped":1,"failed":0},"hits":{"total":{"value":0,"relation":"eq"},"max_score":null,"hits":[]}}
POST /_search {"pit":{"id":"UAAAAAAAAAAB"},"size":0}
200 {"pit_id":"UAAAAAAAAAAB","took":0,"timed_out":false,"_shards":{"total":1,"successful":1,"skipped":1,"failed":0},"hits":{"total":{"value":0,"relation":"eq"},"max_score":null,"hits":[]}}
@60001 POST /_search {"pit":{"id":"UAAAAAAAAAAB"},"size":0}
404 search_context_missing_exception: no context [UAAAAAAAAAAB]
@0 POST /_search {"pit":{"id":"UAAAAAAAAAAB"},"size":0}
404 search_context_missing_exception: no context [UAAAAAAAAAAB]
"#;

#[test]
fn expires_after_its_last_moment(rt: HostRuntime) -> Result<(), Fail> {
    plays(&rt, rt.alloc(), EXPIRES)
}

// A refused request moves the moment too, unless its own can't be read.
const REFUSED: &str = r#"
POST /docs/_pit?keep_alive=1m
200 {"id":"UAAAAAAAAAAB"}
@60001 GET /docs/_search?q=a
400 illegal_argument_exception: bad parameter [q]
POST /_search {"pit":{"id":"UAAAAAAAAAAB"},"size":0}
404 search_context_missing_exception: no context [UAAAAAAAAAAB]
POST /docs/_pit?keep_alive=0
200 {"id":"UAAAAAAAAAAC"}
POST /_search {"pit":{"id":"UAAAAAAAAAAC"},"size":0}
200 {"pit_id":"UAAAAAAAAAAC","took":0,"timed_out":false,"_shards":{"total":1,"successful":1,"skipped":1,"failed":0},"hits":{"total":{"value":0,"relation":"eq"},"max_score":null,"hits":[]}}
@x GET /docs/_search {"size":10001}
400 illegal_argument_exception: limit [moment]
@99999999999999999 GET /docs/_search
400 illegal_argument_exception: limit [moment]
@9007199254740993 PUT /docs/_doc/a {}
400 illegal_argument_exception: limit [moment]
@9007199254740993 PUT /docs/_doc/a [
400 parsing_exception: bad body
@-1 GET /docs/_search?q=a
400 illegal_argument_exception: bad parameter [q]
POST /_search {"pit":{"id":"UAAAAAAAAAAC"},"size":0}
200 {"pit_id":"UAAAAAAAAAAC","took":0,"timed_out":false,"_shards":{"total":1,"successful":1,"skipped":1,"failed":0},"hits":{"total":{"value":0,"relation":"eq"},"max_score":null,"hits":[]}}
@60002 GET /
501 not_built_exception: not built
POST /_search {"pit":{"id":"UAAAAAAAAAAC"},"size":0}
404 search_context_missing_exception: no context [UAAAAAAAAAAC]
@9007199254740992 POST /docs/_pit?keep_alive=24h
200 {"id":"UAAAAAAAAAAD"}
POST /_search {"pit":{"id":"UAAAAAAAAAAD"},"size":0}
200 {"pit_id":"UAAAAAAAAAAD","took":0,"timed_out":false,"_shards":{"total":1,"successful":1,"skipped":1,"failed":0},"hits":{"total":{"value":0,"relation":"eq"},"max_score":null,"hits":[]}}
"#;

#[test]
fn moments_of_refused_requests(rt: HostRuntime) -> Result<(), Fail> {
    plays(&rt, rt.alloc(), REFUSED)
}

const KEPT: &str = r#"
POST /docs/_pit?keep_alive=1m
200 {"id":"UAAAAAAAAAAB"}
POST /_search {"pit":{"id":"UAAAAAAAAAAB","keep_alive":"5m"},"size":0}
200 {"pit_id":"UAAAAAAAAAAB","took":0,"timed_out":false,"_shards":{"total":1,"successful":1,"skipped":1,"failed":0},"hits":{"total":{"value":0,"relation":"eq"},"max_score":null,"hits":[]}}
POST /_search {"pit":{"id":"UAAAAAAAAAAB","keep_alive":"1s"},"size":0}
200 {"pit_id":"UAAAAAAAAAAB","took":0,"timed_out":false,"_shards":{"total":1,"successful":1,"skipped":1,"failed":0},"hits":{"total":{"value":0,"relation":"eq"},"max_score":null,"hits":[]}}
@300000 POST /_search {"pit":{"id":"UAAAAAAAAAAB"},"size":0}
200 {"pit_id":"UAAAAAAAAAAB","took":0,"timed_out":false,"_shards":{"total":1,"successful":1,"skipped":1,"failed":0},"hits":{"total":{"value":0,"relation":"eq"},"max_score":null,"hits":[]}}
@300000 POST /_search {"pit":{"id":"UAAAAAAAAAAB","keep_alive":"1h"},"sort":"zz"}
400 query_shard_exception: no mapping for a sort field
@300001 POST /_search {"pit":{"id":"UAAAAAAAAAAB"},"size":0}
404 search_context_missing_exception: no context [UAAAAAAAAAAB]
POST /_search {"pit":{"id":"UAAAAAAAAAAB","keep_alive":"1h"},"size":0}
404 search_context_missing_exception: no context [UAAAAAAAAAAB]
POST /_search {"pit":{"id":"UAAAAAAAAAAB","keep_alive":"25h"}}
400 illegal_argument_exception: limit [keep_alive]
"#;

#[test]
fn kept_longer_and_never_shorter(rt: HostRuntime) -> Result<(), Fail> {
    plays(&rt, rt.alloc(), KEPT)
}

const CLOSED: &str = r#"
DELETE /_pit {"id":"UAAAAAAAAAAB"}
200 {"succeeded":true,"num_freed":2}
DELETE /_pit {"id":"UAAAAAAAAAAB"}
404 {"succeeded":true,"num_freed":0}
DELETE /_pit {"id":"UAAAAAAAAAAJ"}
404 {"succeeded":true,"num_freed":0}
DELETE /_pit {"id":"%%"}
400 illegal_argument_exception: bad id
POST /_search {"pit":{"id":"UAAAAAAAAAAB"}}
404 search_context_missing_exception: no context [UAAAAAAAAAAB]
POST /_search {"pit":{"id":"UwAAAAAAAAAB"}}
404 search_context_missing_exception: no context [UwAAAAAAAAAB]
DELETE /_pit {"id":"UwAAAAAAAAAB"}
404 {"succeeded":true,"num_freed":0}
POST /t/_pit?keep_alive=1m
200 {"id":"UAAAAAAAAAAC"}
@60001 DELETE /_pit {"id":"UAAAAAAAAAAC"}
404 {"succeeded":true,"num_freed":0}
POST /t/_pit?keep_alive=1m {}
200 {"id":"UAAAAAAAAAAD"}
DELETE /_pit
400 parsing_exception: bad body
DELETE /_pit {"id":"UAAAAAAAAAAD","x":1}
400 parsing_exception: bad body
DELETE /_pit {"id":"UAAAAAAAAAAD"}
200 {"succeeded":true,"num_freed":2}
"#;

#[test]
fn closed_once(rt: HostRuntime) -> Result<(), Fail> {
    let alloc = rt.alloc();
    let text = format!(in alloc; "{SIX_EQUAL}{CLOSED}")?;
    plays(&rt, alloc, text.as_str())
}
