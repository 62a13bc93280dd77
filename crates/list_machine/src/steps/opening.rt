//! Openings of points in time.
ghost use Rattle.std.specs.Prelude.{◌≡◌, ◌+◌, ◌≤◌, IfOk, OnErr, map, count_by};
ghost use Rattle.list_machine.specs.declared.event.Event.TheVariants.{OpenPit};
ghost use Rattle.list_machine.specs.State.{is_live, pit, view_of};
ghost use Rattle.list_machine.specs.Step.{happen};
ghost use Rattle.list_machine.specs.Seen.Stores.{contexts_seen, context_seen, index_seen, most_entries, state_seen};

use crate::Reply;
use crate::context::ContextStore;
use crate::store::{IndexStore, ShardStore, Store, place_of};
use es_types::{Copied, IndexName, KeepAlive, Moment, NoMemory, Row, copy_all};
use std::alloc::Global;

/// Copies the rows of an index into a new context, unless as many as may be are live.
pub fn open_pit(
    alloc: Global,
    store: &mut Store,
    moment: Moment,
    name: &IndexName,
    keep: &KeepAlive,
) -> Result<Reply, NoMemory>
    requires { store.old.next ≤ most_entries + 1 }
    ensures ok { IfOk result (λ reply. happen (record (state_seen store.old) { moment = moment }) (OpenPit name.now keep.now)
        ≡ (record (state_seen store.new) { moment = moment }, reply)) }
    ensures err { OnErr result (state_seen store.new ≡ state_seen store.old) }
{
    let Some(at) = place_of(&store.indexes, name) else {
        return Ok(Reply::NoIndex);
    };
    let limit = store.limits.pits;
    if live_contexts(&store.contexts, moment) == limit {
        return Ok(Reply::TooMany { limit });
    }
    let number = store.next;
    let expiry = moment.millis() + keep.millis();
    let context = make_context(alloc, &store.indexes[at], number, expiry)?;
    store.contexts.push(context)?;
    store.next = number + 1;
    Ok(Reply::Opened { number })
}

fn live_contexts(contexts: &[ContextStore], moment: Moment) -> u64
    ensures { result ≡ count_by (is_live moment) (contexts_seen contexts.now) }
{
    let mut count = 0;
    for context in contexts {
        if context.is_live(moment) {
            count += 1;
        }
    }
    count
}

fn make_context(
    alloc: Global,
    index: &IndexStore,
    number: u64,
    expiry: u64,
) -> Result<ContextStore, NoMemory>
    ensures { IfOk result (λ context. context_seen context ≡ pit number (view_of (index_seen index.now)) expiry) }
{
    let name = index.name.copy(alloc)?;
    let mapping = index.mapping.copy(alloc)?;
    let shards = copy_shards(alloc, &index.shards)?;
    ContextStore::make(alloc, number, name, mapping, shards, expiry)
}

fn copy_shards(alloc: Global, shards: &[ShardStore]) -> Result<Vec<Vec<Row>>, NoMemory>
    ensures { IfOk result (λ copies. map (λ rows. rows.items) copies.items ≡ map (λ shard. shard.rows.items) shards.now) }
{
    let mut copies = Vec::with_capacity(alloc, shards.len())?;
    for shard in shards {
        copies.push(copy_all(alloc, &shard.rows)?)?;
    }
    Ok(copies)
}
