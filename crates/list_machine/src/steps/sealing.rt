//! Seals: waiting operations become a batch.
ghost use Rattle.std.specs.Prelude.{◌≡◌, ◌≤◌, IfOk, All, map};
ghost use Rattle.list_machine.specs.declared.event.Event.TheVariants.{Seal};
ghost use Rattle.list_machine.specs.Rows.{last_number as last_number_of};
ghost use Rattle.list_machine.specs.Step.{happen};
ghost use Rattle.list_machine.specs.Changes.{Moves};
ghost use Rattle.list_machine.specs.Seen.Stores.{IsCountedIndex, indexes_seen, most_entries, shard_seen};

use crate::Reply;
use crate::store::{IndexStore, ShardStore, last_number, place_of};
use es_types::{IndexName, Items, NoMemory};
use std::alloc::Global;

/// The number of the last operation of each shard.
pub fn seal(alloc: Global, indexes: &[IndexStore], name: &IndexName) -> Result<Reply, NoMemory>
    requires { All (IsCountedIndex most_entries) (indexes_seen indexes.now) }
    ensures { IfOk result (Moves (λ state. happen state (Seal name.now)) (indexes_seen indexes.now) (indexes_seen indexes.now)) }
{
    let Some(at) = place_of(indexes, name) else {
        return Ok(Reply::NoIndex);
    };
    let numbers = last_numbers(alloc, &indexes[at].shards)?;
    Ok(Reply::Sealed(Items::of(numbers)))
}

fn last_numbers(alloc: Global, shards: &[ShardStore]) -> Result<Vec<u64>, NoMemory>
    requires { All (λ shard. last_number_of (shard_seen shard) ≤ most_entries) shards.now }
    ensures { IfOk result (λ numbers. numbers.items ≡ map (λ shard. last_number_of (shard_seen shard)) shards.now) }
{
    let mut numbers = Vec::with_capacity(alloc, shards.len())?;
    for shard in shards {
        numbers.push(last_number(shard))?;
    }
    Ok(numbers)
}
