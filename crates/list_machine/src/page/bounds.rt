//! Between which values the rows of shards lie.
ghost use Rattle.std.specs.Prelude.{◌≡◌, map, IfOk};
ghost use Rattle.list_machine.specs.Seen.Stores.{bounds_of_each};

use es_query::bounds_of;
use es_types::{Bounds, Mapping, NoMemory, Row};
use std::alloc::Global;

/// The rows of each shard of a context.
pub fn rows_of_context<'a>(
    alloc: Global,
    shards: &'a [Vec<Row>],
) -> Result<Vec<&'a [Row]>, NoMemory>
    ensures { IfOk result (λ rows. map (λ rows. rows.now) rows.items ≡ map (λ shard. shard.items) shards.now) }
{
    let mut rows = Vec::with_capacity(alloc, shards.len())?;
    for shard in shards {
        rows.push(shard.as_slice())?;
    }
    Ok(rows)
}

/// Between which values the rows of each shard lie.
pub fn bounds_of_each(
    alloc: Global,
    mapping: &Mapping,
    rows: &[&[Row]],
) -> Result<Vec<Bounds>, NoMemory>
    ensures { IfOk result (λ bounds. bounds.items ≡ bounds_of_each mapping.now (map (λ rows. rows.now) rows.now)) }
{
    let mut bounds = Vec::with_capacity(alloc, rows.len())?;
    for rows in rows {
        bounds.push(bounds_of(alloc, mapping, rows)?)?;
    }
    Ok(bounds)
}
