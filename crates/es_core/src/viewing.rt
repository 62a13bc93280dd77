//! What a reader sees of each shard.
ghost use Rattle.std.specs.Prelude.{◌≡◌, map, All, IfOk, IsSome, OnOk, Some};
ghost use Rattle.context_book.specs.Shards.{bounds_in, rows_of_each};
ghost use Rattle.list_machine.specs.Seen.Stores.{bounds_of_each};
ghost use Rattle.es_core.specs.Shards.{AreShown, IsShown};

use crate::shard::Shard;
use context_book::ShardView;
use es_types::{Items, Mapping, NoMemory};
use std::alloc::Global;
use std::sync::Arc;

/// What a reader sees of each shard. Where it is answered, a view of each is kept for the next reader.
pub fn keep_views(
    alloc: Global,
    mapping: &Mapping,
    shards: &[Shard],
    views: &mut Vec<Option<Arc<ShardView>>>,
) -> Result<Vec<Arc<ShardView>>, NoMemory>
    requires { AreShown mapping.now (map (λ shard. shard.rows) shards.now) views.old.items }
    ensures shown { AreShown mapping.now (map (λ shard. shard.rows) shards.now) views.new.items }
    ensures rows { IfOk result (λ them. rows_of_each them.items ≡ map (λ shard. shard.rows) shards.now) }
    ensures bounds { IfOk result (λ them. bounds_in them.items ≡ bounds_of_each mapping.now (map (λ shard. shard.rows) shards.now)) }
    ensures kept { OnOk result (All (λ view. IsSome view) views.new.items) }
{
    let mut them = Vec::with_capacity(alloc, shards.len())?;
    for at in 0..shards.len() {
        let view = keep_view(alloc, mapping, &shards[at], &mut views[at])?;
        them.push(view)?;
    }
    Ok(them)
}

/// The view of one shard: a copy of its rows, with their bounds. One that is kept stays.
fn keep_view(
    alloc: Global,
    mapping: &Mapping,
    shard: &Shard,
    kept: &mut Option<Arc<ShardView>>,
) -> Result<Arc<ShardView>, NoMemory>
    requires { IsShown mapping.now shard.now.rows kept.old }
    ensures shown { IsShown mapping.now shard.now.rows kept.new }
    ensures view { IfOk result (λ view. IsShown mapping.now shard.now.rows (Some view)) }
    ensures kept { OnOk result (IsSome kept.new) }
    ensures again { IsSome kept.old → kept.new ≡ kept.old }
{
    if let Some(view) = kept {
        return Arc::try_clone(view);
    }
    let rows = Items::of(shard.view(alloc)?);
    let view = Arc::new(alloc, ShardView::of_rows(alloc, mapping, rows)?)?;
    *kept = Some(Arc::try_clone(&view)?);
    Ok(view)
}
