//! What a reader sees of an index.
ghost use Rattle.std.specs.Prelude.{◌≡◌, ◌≤◌, length, map, IfOk};
ghost use Rattle.std.specs.Arc.{arc_value};
ghost use Rattle.es_types.specs.declared.limits.TheConstants.{ALL_SHARDS};
ghost use Rattle.list_machine.specs.Seen.Stores.{IsCountable, bounds_of_each};
ghost use Rattle.context_book.specs.Shards.{bounds_in, rows_of_each};

use crate::ShardView;
use es_types::{IndexName, Items, Mapping, NoMemory};
use list_machine::ShardRef;
use std::alloc::Global;
use std::marker::Model;
use std::sync::Arc;

/// What a reader sees: the shards of an index at one moment, at most 65,536. Contracts see it as the machine's view.
#[derive(Drop)]
pub struct View {
    index: IndexName,
    mapping: Arc<Mapping>,
    shards: Items<Arc<ShardView>>,
}

impl Model for View {
    ghost use Rattle.std.specs.Prelude.{◌≡◌, ◌≤◌, length};
    ghost use Rattle.std.specs.Arc.{arc_value};
    ghost use Rattle.es_types.specs.declared.limits.TheConstants.{ALL_SHARDS};
    ghost use Rattle.list_machine.specs.Seen.Stores.{bounds_of_each, view_over};
    ghost use Rattle.list_machine.specs.Views.{View as Seen};
    ghost use Rattle.context_book.specs.Shards.{bounds_in, rows_of_each};

    ghost Value = { Seen };

    ghost view = { λ v. view_over v.index (arc_value v.mapping) (rows_of_each v.shards) };

    ghost invariant = { λ v. (bounds_in v.shards ≡ bounds_of_each (arc_value v.mapping) (rows_of_each v.shards))
        × (length v.shards ≤ ALL_SHARDS) };
}

impl View {
    ghost use Rattle.list_machine.specs.Seen.Stores.{view_over};

    /// The view of shards whose bounds are those of that mapping.
    pub fn make(index: IndexName, mapping: Arc<Mapping>, shards: Items<Arc<ShardView>>) -> View
        requires bounded { bounds_in shards ≡ bounds_of_each (arc_value mapping) (rows_of_each shards) }
        requires few { length shards ≤ ALL_SHARDS }
        ensures { result ≡ view_over index (arc_value mapping) (rows_of_each shards) }
    {
        View {
            index,
            mapping,
            shards,
        }
    }

    pub fn index(&self) -> &IndexName
        ensures { result.now ≡ self.now.index }
    {
        &self.index
    }

    pub fn mapping(&self) -> &Mapping
        ensures { result.now ≡ self.now.mapping }
    {
        &self.mapping
    }

    pub fn shards(&self) -> &[Arc<ShardView>]
        ensures rows { rows_of_each result.now ≡ self.now.shards }
        ensures bounds { bounds_in result.now ≡ bounds_of_each self.now.mapping self.now.shards }
        ensures many { length result.now ≡ length self.now.shards }
        ensures countable { IsCountable self.now }
    {
        self.shards.as_slice()
    }

    /// The shards as a search takes them.
    pub fn shard_refs<'a>(&'a self, alloc: Global) -> Result<Vec<ShardRef<'a>>, NoMemory>
        ensures rows { IfOk result (λ refs. map (λ shard. shard.rows.now) refs.items ≡ self.now.shards) }
        ensures bounds { IfOk result (λ refs. map (λ shard. shard.bounds.now) refs.items ≡ bounds_of_each self.now.mapping self.now.shards) }
        ensures countable { IsCountable self.now }
    {
        refs_of(alloc, self.shards())
    }
}

fn refs_of<'a>(alloc: Global, shards: &'a [Arc<ShardView>]) -> Result<Vec<ShardRef<'a>>, NoMemory>
    ensures rows { IfOk result (λ refs. map (λ shard. shard.rows.now) refs.items ≡ rows_of_each shards.now) }
    ensures bounds { IfOk result (λ refs. map (λ shard. shard.bounds.now) refs.items ≡ bounds_in shards.now) }
{
    let mut refs = Vec::with_capacity(alloc, shards.len())?;
    for shard in shards {
        refs.push(ShardRef {
            rows: shard.as_slice(),
            bounds: shard.bounds(),
        })?;
    }
    Ok(refs)
}
