//! What a search is asked of.
use es_types::{Bounds, IndexName, Mapping, Row};

/// The rows of a shard that a search sees, and between which values those of each field lie.
#[derive(Drop)]
pub struct ShardRef<'a> {
    pub rows: &'a [Row],
    pub bounds: &'a Bounds,
}

/// What a search looks at: the shards of an index at one moment.
#[derive(Drop)]
pub struct ViewRef<'a> {
    pub index: &'a IndexName,
    pub mapping: &'a Mapping,
    pub shards: &'a [ShardRef<'a>],
}
