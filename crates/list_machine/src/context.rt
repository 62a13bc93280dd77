//! Points in time, as the machine holds them.
ghost use Rattle.std.specs.Prelude.{◌≡◌, IfOk, map};
ghost use Rattle.es_query.specs.Limits.{bounds_of};

use crate::page::bounds::{bounds_of_each, rows_of_context};
use es_types::{Bounds, IndexName, Mapping, Moment, NoMemory, Row};
use std::alloc::Global;

/// A point in time: the rows of each shard that it keeps, between which values they lie, the last moment at which it is
/// live, in milliseconds, and whether it is closed.
#[derive(Drop)]
pub struct ContextStore {
    pub number: u64,
    pub index: IndexName,
    pub mapping: Mapping,
    pub shards: Vec<Vec<Row>>,
    pub bounds: Vec<Bounds>,
    pub expiry: u64,
    pub closed: bool,
    ghost bounded: { bounds.items ≡ map (λ rows. bounds_of mapping rows) (map (λ rows. rows.items) shards.items) },
}

impl ContextStore {
    ghost use Rattle.list_machine.specs.State.{is_live, pit};
    ghost use Rattle.list_machine.specs.Seen.Stores.{context_seen, view_over};

    /// A point in time of an index, whose shards have these rows.
    pub fn make(
        alloc: Global,
        number: u64,
        index: IndexName,
        mapping: Mapping,
        shards: Vec<Vec<Row>>,
        expiry: u64,
    ) -> Result<ContextStore, NoMemory>
        ensures { IfOk result (λ context. context_seen context ≡ pit number (view_over index mapping (map (λ rows. rows.items) shards.items)) expiry) }
    {
        let rows = rows_of_context(alloc, &shards)?;
        let bounds = bounds_of_each(alloc, &mapping, &rows)?;
        drop(rows);
        Ok(ContextStore {
            number,
            index,
            mapping,
            shards,
            bounds,
            expiry,
            closed: false,
        })
    }

    /// Whether it is live at a moment.
    pub fn is_live(&self, moment: Moment) -> bool
        ensures { result ≡ is_live moment (context_seen self.now) }
    {
        !self.closed && moment.millis() <= self.expiry
    }
}
