//! Writes: operations that wait.
ghost use Rattle.std.specs.Prelude.{◌≡◌, ◌≤◌, ℕ, All, IfOk, OnErr, length};
ghost use Rattle.es_types.specs.declared.limits.TheConstants.{ALL_SHARDS};
ghost use Rattle.es_types.specs.Fail.{Answers};
ghost use Rattle.list_machine.specs.declared.event.Event.TheVariants.{Write};
ghost use Rattle.list_machine.specs.Rows.{apply_all, has_id, last_number};
ghost use Rattle.list_machine.specs.Step.{happen, op_of};
ghost use Rattle.list_machine.specs.Changes.{Moves, did, write_in, write_of};
ghost use Rattle.list_machine.specs.Seen.Stores.{AreNumbered, IsCountedIndex, indexes_seen, most_entries, shard_seen, shards_seen};
ghost use Rattle.list_machine.specs.Seen.Standing.{stands_after};

use crate::steps::written::id_of;
use crate::store::{IndexStore, ShardStore, is_same_id, last_number, place_of};
use crate::{Change, Reply, Wrote};
use es_types::{
    Copied, DocFault, DocId, Fail, IndexName, Mapping, NoMemory, Op, Row, SHARD_ROWS, fit_doc,
    shard_of,
};
use std::alloc::Global;

/// Adds the operation of a write to the shard of the document.
pub fn write(
    alloc: Global,
    indexes: &mut Vec<IndexStore>,
    name: &IndexName,
    id: &DocId,
    change: &Change,
) -> Result<Reply, NoMemory>
    requires { All (IsCountedIndex most_entries) (indexes_seen indexes.old.items) }
    ensures ok { IfOk result (Moves (λ state. happen state (Write name.now id.now change.now)) (indexes_seen indexes.old.items) (indexes_seen indexes.new.items)) }
    ensures err { OnErr result (indexes_seen indexes.new.items ≡ indexes_seen indexes.old.items) }
{
    let Some(at) = place_of(indexes, name) else {
        return Ok(Reply::NoIndex);
    };
    let index = &mut indexes[at];
    write_in(alloc, &index.mapping, &mut index.shards, id, change)
}

fn write_in(
    alloc: Global,
    mapping: &Mapping,
    shards: &mut Vec<ShardStore>,
    id: &DocId,
    change: &Change,
) -> Result<Reply, NoMemory>
    requires some { 1 ≤ length shards.old.items }
    requires few { length shards.old.items ≤ ALL_SHARDS }
    requires numbers { AreNumbered most_entries (shards_seen shards.old.items) }
    ensures ok { IfOk result (λ reply. write_in mapping.now (shards_seen shards.old.items) id.now change.now ≡ (shards_seen shards.new.items, reply)) }
    ensures err { OnErr result (shards_seen shards.new.items ≡ shards_seen shards.old.items) }
{
    let op = match make_op(alloc, mapping, id, change) {
        Ok(op) => op,
        Err(Fail::Is(fault)) => return Ok(Reply::BadDoc(fault)),
        Err(Fail::NoMemory) => return Err(NoMemory),
    };
    let home = shard_of(id, shards.len() as u32);
    write_shard(&mut shards[home as usize], op)
}

fn write_shard(shard: &mut ShardStore, op: Op) -> Result<Reply, NoMemory>
    requires { last_number (shard_seen shard.old) ≤ most_entries }
    ensures ok { IfOk result (λ reply. write_of (shard_seen shard.old) op ≡ (shard_seen shard.new, reply)) }
    ensures err { OnErr result (shard_seen shard.new ≡ shard_seen shard.old) }
{
    if shard.rows.len() + shard.pending.len() >= SHARD_ROWS {
        return Ok(Reply::ShardFull);
    }
    let result = judge(&op, will_stand(&shard.rows, &shard.pending, id_of(&op)));
    let seq = last_number(shard) + 1;
    shard.pending.push(op)?;
    Ok(Reply::Wrote { result, seq })
}

/// The operation that a change of a document is, unless the document has a value that is not one of its field.
pub fn make_op(
    alloc: Global,
    mapping: &Mapping,
    id: &DocId,
    change: &Change,
) -> Result<Op, Fail<DocFault>>
    ensures { Answers result (op_of mapping.now id.now change.now) }
{
    match change {
        Change::Put(doc) => {
            let values = fit_doc(alloc, mapping, doc)?;
            let source = doc.source.copy(alloc)?;
            Ok(Op::Put {
                id: id.copy(alloc)?,
                source,
                values,
            })
        }
        Change::Remove => {
            Ok(Op::Remove {
                id: id.copy(alloc)?,
            })
        }
    }
}

/// What an operation did, by whether its document was there.
fn judge(op: &Op, was_there: bool) -> Wrote
    ensures { result ≡ did op.now was_there }
{
    match op {
        Op::Put { .. } => if was_there {
            Wrote::Updated
        } else {
            Wrote::Created
        },
        Op::Remove { .. } => if was_there {
            Wrote::Deleted
        } else {
            Wrote::NotFound
        },
    }
}

/// Whether the id has a row once all operations are applied.
fn will_stand(rows: &[Row], pending: &[Op], id: &DocId) -> bool
    ensures { (base : ℕ) → result ≡ has_id id.now (apply_all rows.now base pending.now) }
{
    let mut stands = stands_in(rows, id);
    for op in pending {
        stands = stands_after(op, id, stands);
    }
    stands
}

fn stands_in(rows: &[Row], id: &DocId) -> bool
    ensures { result ≡ has_id id.now rows.now }
{
    rows.iter().any(|row| is_same_id(&row.id, id))
}

/// Whether the id has a row after an operation, by whether it had one before.
fn stands_after(op: &Op, id: &DocId, stood: bool) -> bool
    ensures { result ≡ stands_after op.now id.now stood }
{
    match op {
        Op::Put { id: put, .. } => is_same_id(put, id) || stood,
        Op::Remove { id: removed } => !is_same_id(removed, id) && stood,
    }
}
