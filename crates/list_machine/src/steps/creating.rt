//! New indexes.
ghost use Rattle.std.specs.Prelude.{◌≡◌, ◌≤◌, IfOk, OnErr, None, length, replicate, sum_by};
ghost use Rattle.list_machine.specs.declared.event.Event.TheVariants.{Create};
ghost use Rattle.list_machine.specs.State.{empty_shard, shard_count};
ghost use Rattle.list_machine.specs.Step.{create, happen};
ghost use Rattle.list_machine.specs.Changes.{Moves};
ghost use Rattle.list_machine.specs.Seen.Stores.{index_seen, indexes_seen, shards_seen};

use crate::Reply;
use crate::store::{IndexStore, ShardStore, place_of};
use es_types::{ALL_SHARDS, Copied, IndexName, Mapping, NoMemory};
use std::alloc::Global;

/// Makes an index with so many empty shards, unless one of that name is there, or there would be too many shards.
pub fn create(
    alloc: Global,
    indexes: &mut Vec<IndexStore>,
    name: &IndexName,
    shards: u32,
    mapping: &Mapping,
) -> Result<Reply, NoMemory>
    requires { shard_count (indexes_seen indexes.old.items) ≤ ALL_SHARDS }
    ensures ok { IfOk result (Moves (λ state. happen state (Create name.now shards mapping.now)) (indexes_seen indexes.old.items) (indexes_seen indexes.new.items)) }
    ensures err { OnErr result (indexes_seen indexes.new.items ≡ indexes_seen indexes.old.items) }
{
    match place_of(indexes, name) {
        Some(_) => Ok(Reply::Exists),
        None => add_index(alloc, indexes, name, shards, mapping),
    }
}

fn add_index(
    alloc: Global,
    indexes: &mut Vec<IndexStore>,
    name: &IndexName,
    shards: u32,
    mapping: &Mapping,
) -> Result<Reply, NoMemory>
    requires { shard_count (indexes_seen indexes.old.items) ≤ ALL_SHARDS }
    ensures ok { IfOk result (Moves (λ state. create state name.now shards mapping.now None) (indexes_seen indexes.old.items) (indexes_seen indexes.new.items)) }
    ensures err { OnErr result (indexes_seen indexes.new.items ≡ indexes_seen indexes.old.items) }
{
    if count_shards(indexes) + shards as usize > ALL_SHARDS as usize {
        return Ok(Reply::TooMany {
            limit: u64::from(ALL_SHARDS),
        });
    }
    let index = make_index(alloc, name, shards, mapping)?;
    indexes.push(index)?;
    Ok(Reply::Done)
}

fn count_shards(indexes: &[IndexStore]) -> usize
    requires { sum_by (λ index. length index.shards.items) indexes.now ≤ ALL_SHARDS }
    ensures { result ≡ sum_by (λ index. length index.shards.items) indexes.now }
{
    let mut count = 0;
    for index in indexes {
        count += index.shards.len();
    }
    count
}

/// An index with so many empty shards.
pub fn make_index(
    alloc: Global,
    name: &IndexName,
    shards: u32,
    mapping: &Mapping,
) -> Result<IndexStore, NoMemory>
    ensures { IfOk result (λ index. index_seen index ≡ record { name = name.now; mapping = mapping.now; shards = replicate shards empty_shard }) }
{
    let mut made = Vec::new(alloc);
    for _shard in 0..shards {
        made.push(ShardStore {
            base: 0,
            rows: Vec::new(alloc),
            pending: Vec::new(alloc),
        })?;
    }
    Ok(IndexStore {
        name: name.copy(alloc)?,
        mapping: mapping.copy(alloc)?,
        shards: made,
    })
}
