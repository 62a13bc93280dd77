//! One index: its shards, and for each what is kept of it for readers.
ghost use Rattle.std.specs.Prelude.{◌≡◌, ◌≤◌, length, map, replicate, slice_get, All, IfOk, IsSome, OnOk, OnErr, None};
ghost use Rattle.std.specs.Arc.{arc_value};
ghost use Rattle.std.proofs.Props.{props};
ghost use Rattle.es_types.specs.declared.limits.TheConstants.{ALL_SHARDS};
ghost use Rattle.list_machine.specs.Changes.{publish_in, write_in, write_of};
ghost use Rattle.list_machine.specs.Rows.{last_number};
ghost use Rattle.list_machine.specs.Seen.Stores.{AreNumbered, most_entries};
ghost use Rattle.list_machine.specs.State.{empty_shard, view_of};
ghost use Rattle.es_core.specs.Shards.{AreShown, sealed, views_left};

use crate::shard::Shard;
use crate::viewing::keep_views;
use context_book::{ShardView, View};
use es_types::{Copied, DocId, Fail, IndexName, Items, Mapping, NoMemory, Op, shard_of};
use list_machine::{Change, Reply, make_op};
use std::alloc::Global;
use std::sync::Arc;

/// An index, which has at least one shard, and no more than all indexes may have together.
#[derive(Drop)]
pub struct Index {
    pub name: IndexName,
    pub mapping: Arc<Mapping>,
    pub shards: Vec<Shard>,
    /// What readers see of each shard as it is now, where it is kept.
    views: Vec<Option<Arc<ShardView>>>,
    ghost some: { 1 ≤ length shards.items },
    ghost few: { length shards.items ≤ ALL_SHARDS },
    ghost shown: { AreShown (arc_value mapping) (map (λ shard. shard.rows) shards.items) views.items } by { Prim.hlevel props },
}

impl Index {
    ghost use Rattle.es_core.specs.Indexes.{index_seen};

    /// An index with so many empty shards.
    pub fn make(
        alloc: Global,
        name: IndexName,
        mapping: Mapping,
        shards: u32,
    ) -> Result<Index, NoMemory>
        requires some { 1 ≤ shards }
        requires few { shards ≤ ALL_SHARDS }
        ensures { IfOk result (λ index. index_seen index ≡ record { name = name; mapping = mapping; shards = replicate shards empty_shard }) }
    {
        Ok(Index {
            name,
            mapping: Arc::new(alloc, mapping)?,
            shards: empty_shards(alloc, shards)?,
            views: no_views(alloc, shards)?,
        })
    }

    /// Adds the operation of a write to the shard of the document. What is kept for readers stays, and after an error the shards are as
    /// they were.
    pub fn write(&mut self, alloc: Global, id: &DocId, change: &Change) -> Result<Reply, NoMemory>
        ensures like { index_seen self.new ≡ record (index_seen self.old) { shards = self.new.shards.items } }
        ensures ok { IfOk result (λ reply. AreNumbered most_entries self.old.shards.items
            → write_in (arc_value self.old.mapping) self.old.shards.items id.now change.now ≡ (self.new.shards.items, reply)) }
        ensures kept { self.new.views ≡ self.old.views }
        ensures err { OnErr result (index_seen self.new ≡ index_seen self.old) }
    {
        write_home(alloc, &self.mapping, &mut self.shards, id, change)
    }

    /// The number of the last operation of each shard.
    pub fn seal(&self, alloc: Global) -> Result<Vec<u64>, NoMemory>
        ensures { IfOk result (λ numbers. numbers.items ≡ map sealed self.now.shards.items) }
    {
        let mut numbers = Vec::with_capacity(alloc, self.shards.len())?;
        for shard in &self.shards {
            numbers.push(shard.seal())?;
        }
        Ok(numbers)
    }

    /// Applies the operations of a shard up to a number. The view that is kept of it goes where one was applied, and no other view does.
    /// After an error the shards and the kept views are as they were.
    pub fn publish(&mut self, alloc: Global, at: u32, upto: u64) -> Result<(), NoMemory>
        ensures like { index_seen self.new ≡ record (index_seen self.old) { shards = self.new.shards.items } }
        ensures ok { OnOk result (self.new.shards.items ≡ publish_in self.old.shards.items at upto) }
        ensures kept { OnOk result (self.new.views.items ≡ views_left self.old.views.items at upto (slice_get self.old.shards.items at)) }
        ensures left { OnErr result (self.new.views.items ≡ self.old.views.items) }
        ensures err { OnErr result (index_seen self.new ≡ index_seen self.old) }
    {
        if at as usize >= self.shards.len() {
            return Ok(());
        }
        if self.shards[at as usize].publish(alloc, upto)? {
            self.views[at as usize] = None;
        }
        Ok(())
    }

    /// What a reader sees of the index as it is now. Where it is answered, the view of each shard is kept for the next reader.
    pub fn view(&mut self, alloc: Global) -> Result<Arc<View>, NoMemory>
        ensures same { index_seen self.new ≡ index_seen self.old }
        ensures view { IfOk result (λ view. arc_value view ≡ view_of (index_seen self.old)) }
        ensures kept { OnOk result (All (λ view. IsSome view) self.new.views.items) }
    {
        let shards = keep_views(alloc, &self.mapping, &self.shards, &mut self.views)?;
        let name = self.name.copy(alloc)?;
        let mapping = Arc::try_clone(&self.mapping)?;
        let view = Arc::new(alloc, View::make(name, mapping, Items::of(shards)))?;
        Ok(view)
    }
}

fn empty_shards(alloc: Global, count: u32) -> Result<Vec<Shard>, NoMemory>
    ensures { IfOk result (λ shards. shards.items ≡ replicate count empty_shard) }
{
    let mut shards = Vec::new(alloc);
    for _made in 0..count {
        shards.push(Shard::make(alloc))?;
    }
    Ok(shards)
}

fn no_views(alloc: Global, count: u32) -> Result<Vec<Option<Arc<ShardView>>>, NoMemory>
    ensures { IfOk result (λ views. views.items ≡ replicate count None) }
{
    let mut views = Vec::new(alloc);
    for _made in 0..count {
        views.push(None)?;
    }
    Ok(views)
}

/// Adds the operation of a write to the shard of its document, which no search sees yet.
fn write_home(
    alloc: Global,
    mapping: &Mapping,
    shards: &mut Vec<Shard>,
    id: &DocId,
    change: &Change,
) -> Result<Reply, NoMemory>
    requires some { 1 ≤ length shards.old.items }
    requires few { length shards.old.items ≤ ALL_SHARDS }
    ensures ok { IfOk result (λ reply. AreNumbered most_entries shards.old.items
        → write_in mapping.now shards.old.items id.now change.now ≡ (shards.new.items, reply)) }
    ensures many { length shards.new.items ≡ length shards.old.items }
    ensures rows { map (λ shard. shard.rows) shards.new.items ≡ map (λ shard. shard.rows) shards.old.items }
    ensures err { OnErr result (shards.new.items ≡ shards.old.items) }
{
    let op = match make_op(alloc, mapping, id, change) {
        Ok(op) => op,
        Err(Fail::Is(fault)) => return Ok(Reply::BadDoc(fault)),
        Err(Fail::NoMemory) => return Err(NoMemory),
    };
    let home = shard_of(id, shards.len() as u32);
    write_shard(alloc, &mut shards[home as usize], op)
}

/// Adds an operation to its shard.
fn write_shard(alloc: Global, shard: &mut Shard, op: Op) -> Result<Reply, NoMemory>
    ensures ok { IfOk result (λ reply. last_number shard.old ≤ most_entries → write_of shard.old op ≡ (shard.new, reply)) }
    ensures rows { shard.new.rows ≡ shard.old.rows }
    ensures err { OnErr result (shard.new ≡ shard.old) }
{
    match shard.write(alloc, op) {
        Ok((result, seq)) => Ok(Reply::Wrote { result, seq }),
        Err(Fail::Is(_)) => Ok(Reply::ShardFull),
        Err(Fail::NoMemory) => Err(NoMemory),
    }
}
