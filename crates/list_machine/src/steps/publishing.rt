//! Publishes: sealed operations become rows.
ghost use Rattle.std.specs.Prelude.{◌≡◌, ◌+◌, ◌<◌, ◌≤◌, ◌^◌, ◌++◌, [], filter, not, OnOk, IfOk, OnErr, All, vec_capacity, vec_len};
ghost use Rattle.std.specs.BTreeSet.{contains_text};
ghost use Rattle.list_machine.specs.declared.event.Event.TheVariants.{Publish};
ghost use Rattle.list_machine.specs.Seen.Lasts.{AreLasts, are_last};
ghost use Rattle.list_machine.specs.Rows.{apply, apply_all, last_number};
ghost use Rattle.list_machine.specs.Step.{happen};
ghost use Rattle.list_machine.specs.Changes.{Moves, publish_in, publish_of};
ghost use Rattle.list_machine.specs.Seen.Stores.{AreNumbered, IsCountedIndex, indexes_seen, most_entries, shard_seen, shards_seen};

use crate::Reply;
use crate::steps::written::{Lasts, lasts_of};
use crate::store::{IndexStore, ShardStore, last_number, place_of};
use es_types::{IndexName, NoMemory, Op, Row};
use std::alloc::Global;
use std::collections::BTreeSet;
use std::mem;

/// Applies the operations up to a number. A number that no operation has yet changes nothing.
pub fn publish(
    alloc: Global,
    indexes: &mut Vec<IndexStore>,
    name: &IndexName,
    shard: u32,
    upto: u64,
) -> Result<Reply, NoMemory>
    requires { All (IsCountedIndex most_entries) (indexes_seen indexes.old.items) }
    ensures ok { IfOk result (Moves (λ state. happen state (Publish name.now shard upto)) (indexes_seen indexes.old.items) (indexes_seen indexes.new.items)) }
    ensures err { OnErr result (indexes_seen indexes.new.items ≡ indexes_seen indexes.old.items) }
{
    let Some(at) = place_of(indexes, name) else {
        return Ok(Reply::Done);
    };
    publish_in(alloc, &mut indexes[at].shards, shard as usize, upto)?;
    Ok(Reply::Done)
}

fn publish_in(
    alloc: Global,
    shards: &mut Vec<ShardStore>,
    at: usize,
    upto: u64,
) -> Result<(), NoMemory>
    requires { AreNumbered most_entries (shards_seen shards.old.items) }
    ensures ok { OnOk result (shards_seen shards.new.items ≡ publish_in (shards_seen shards.old.items) at upto) }
    ensures err { OnErr result (shards_seen shards.new.items ≡ shards_seen shards.old.items) }
{
    if at >= shards.len() {
        return Ok(());
    }
    publish_shard(alloc, &mut shards[at], upto)
}

/// All memory that is needed is taken first, so that nothing has changed where there is none.
fn publish_shard(alloc: Global, shard: &mut ShardStore, upto: u64) -> Result<(), NoMemory>
    requires { last_number (shard_seen shard.old) ≤ most_entries }
    ensures ok { OnOk result (shard_seen shard.new ≡ publish_of (shard_seen shard.old) upto) }
    ensures err { OnErr result (shard_seen shard.new ≡ shard_seen shard.old) }
{
    if last_number(shard) < upto || upto <= shard.base {
        return Ok(());
    }
    let count = (upto - shard.base) as usize;
    let lasts = lasts_of(alloc, &shard.pending[..count])?;
    shard.rows.reserve(count)?;
    let waiting = shard.pending.split_off(count)?;
    let ops = mem::replace(&mut shard.pending, waiting);
    apply_ops(&mut shard.rows, shard.base, ops, lasts);
    shard.base = upto;
    Ok(())
}

/// Applies operations that are numbered from `base + 1` on. The rows have room for them.
pub fn apply_ops(rows: &mut Vec<Row>, base: u64, ops: Vec<Op>, lasts: Lasts)
    requires numbers { base + vec_len ops < 2 ^ 64 }
    requires room { vec_len rows.old + vec_len ops ≤ vec_capacity rows.old }
    requires lasts { AreLasts ops.items lasts }
    ensures { rows.new.items ≡ apply_all rows.old.items base ops.items }
{
    let Lasts { ids, last } = lasts;
    keep_others(rows, &ids);
    put_lasts(rows, base, ops, &last);
}

/// Removes the rows of these ids.
fn keep_others(rows: &mut Vec<Row>, ids: &BTreeSet<String>)
    ensures items { rows.new.items ≡ filter (λ row. not (contains_text ids.now row.id)) rows.old.items }
    ensures len { vec_len rows.new ≤ vec_len rows.old }
    ensures capacity { vec_capacity rows.new ≡ vec_capacity rows.old }
{
    rows.retain(|row| !ids.contains(row.id.text().as_str()));
}

/// Puts the rows of the operations at the end, each for the last one of its id.
fn put_lasts(rows: &mut Vec<Row>, base: u64, ops: Vec<Op>, last: &[bool])
    requires numbers { base + vec_len ops < 2 ^ 64 }
    requires room { vec_len rows.old + vec_len ops ≤ vec_capacity rows.old }
    requires last { last.now ≡ are_last ops.items }
    ensures { rows.new.items ≡ rows.old.items ++ apply_all [] base ops.items }
{
    let mut at = 0;
    for op in ops {
        let is_last = last[at];
        at += 1;
        if is_last {
            put(rows, base + at as u64, op);
        }
    }
}

/// A put's row takes over its id and its source.
fn put(rows: &mut Vec<Row>, number: u64, op: Op)
    requires { vec_len rows.old < vec_capacity rows.old }
    ensures items { rows.new.items ≡ rows.old.items ++ apply [] number op }
    ensures len { vec_len rows.new ≤ vec_len rows.old + 1 }
    ensures capacity { vec_capacity rows.new ≡ vec_capacity rows.old }
{
    match op {
        Op::Put { id, source, values } => {
            rows.push_reserved(Row {
                seq: number,
                id,
                source,
                values,
            });
        }
        Op::Remove { .. } => {}
    }
}
