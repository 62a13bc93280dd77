//! What a reader sees of a shard.
ghost use Rattle.std.specs.Prelude.{◌≡◌, ◌≤◌, length, slice_get, option_copied, IfOk};
ghost use Rattle.es_types.specs.declared.limits.TheConstants.{SHARD_ROWS};
ghost use Rattle.es_query.specs.Limits.{bounds_of};

use es_query::bounds_of;
use es_types::{Bounds, Items, Mapping, NoMemory, Row};
use std::alloc::Global;

/// The rows of one shard at one moment, fewer than 2^31, and between which values they lie.
#[derive(Drop)]
pub struct ShardView {
    rows: Items<Row>,
    bounds: Bounds,
    ghost few: { length rows ≤ SHARD_ROWS },
}

impl ShardView {
    /// Looks once at each value, to find the bounds.
    pub fn of_rows(
        alloc: Global,
        mapping: &Mapping,
        rows: Items<Row>,
    ) -> Result<ShardView, NoMemory>
        requires { length rows ≤ SHARD_ROWS }
        ensures rows { IfOk result (λ shard. shard.rows ≡ rows) }
        ensures bounds { IfOk result (λ shard. shard.bounds ≡ bounds_of mapping.now rows) }
    {
        let bounds = bounds_of(alloc, mapping, rows.as_slice())?;
        Ok(ShardView { rows, bounds })
    }

    /// How many rows there are.
    pub fn rows(&self) -> u64
        ensures is { result ≡ length self.now.rows }
        ensures few { result ≤ SHARD_ROWS }
    {
        self.rows.as_slice().len() as u64
    }

    /// The row after that many others.
    pub fn row_at(&self, rank: u32) -> Option<&Row>
        ensures { option_copied result ≡ slice_get self.now.rows rank }
    {
        self.rows.as_slice().get(rank as usize)
    }

    pub fn bounds(&self) -> &Bounds
        ensures { result.now ≡ self.now.bounds }
    {
        &self.bounds
    }

    pub fn as_slice(&self) -> &[Row]
        ensures value { result.now ≡ self.now.rows }
        ensures few { length self.now.rows ≤ SHARD_ROWS }
    {
        self.rows.as_slice()
    }
}
