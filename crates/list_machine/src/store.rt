//! Indexes and their shards, as the machine holds them.
ghost use Rattle.std.specs.Prelude.{◌≡◌, ◌<◌, ◌^◌, bytes_eq, position};
ghost use Rattle.es_types.specs.declared.limits.TheConstants.{MOST_ENTRIES};
ghost use Rattle.list_machine.specs.Rows.{last_number as last_number_of};
ghost use Rattle.list_machine.specs.Seen.Stores.{shard_seen};

use crate::Limits;
use crate::context::ContextStore;
use es_types::{DocId, IndexName, Mapping, Moment, Op, Row};

/// A shard: how many of its operations were applied, the rows that a search sees, and the operations that wait.
#[derive(Drop)]
pub struct ShardStore {
    pub base: u64,
    pub rows: Vec<Row>,
    pub pending: Vec<Op>,
}

/// An index, which has at least one shard.
#[derive(Drop)]
pub struct IndexStore {
    pub name: IndexName,
    pub mapping: Mapping,
    pub shards: Vec<ShardStore>,
}

/// The state of the machine in lists.
#[derive(Drop)]
pub struct Store {
    pub limits: Limits,
    pub moment: Moment,
    /// The number that the next context gets.
    pub next: u64,
    pub indexes: Vec<IndexStore>,
    pub contexts: Vec<ContextStore>,
}

pub fn is_same_id(a: &DocId, b: &DocId) -> bool
    ensures { result ≡ bytes_eq a.now b.now }
{
    a.text().as_str() == b.text().as_str()
}

/// The place of the index of that name.
pub fn place_of(indexes: &[IndexStore], name: &IndexName) -> Option<usize>
    ensures { result ≡ position (λ index. bytes_eq index.name name.now) indexes.now }
{
    indexes
        .iter()
        .position(|index| index.name.text().as_str() == name.text().as_str())
}

/// The number of the last operation.
pub fn last_number(shard: &ShardStore) -> u64
    requires { last_number_of (shard_seen shard.now) < MOST_ENTRIES }
    ensures { result ≡ last_number_of (shard_seen shard.now) }
{
    shard.base + shard.pending.len() as u64
}
