//! What a search asks for.
ghost use Rattle.std.specs.Prelude.{◌≡◌, IfOk};

use es_query::Query;
use es_sort::{Keys, SortSpec};
use es_types::{Bytes, Copied, DocId, IndexName, Items, NoMemory, Value};
use slice_rule::Slice;
use std::alloc::Global;

/// What a search asks for: the rows that match, of a slice where one is given, in the order of `sort`, and of those strictly
/// after the values `after`, where they are given, at most `size` without the first `from`. The number of phases is that of its
/// batches: the tops of `batch` shards would be brought together at a time.
#[derive(Drop)]
pub struct SearchRequest {
    pub query: Query,
    pub sort: SortSpec,
    pub from: u32,
    pub size: u32,
    pub after: Option<Keys>,
    pub slice: Option<Slice>,
    pub batch: u32,
}

impl Copied for SearchRequest {
    fn copy(&self, alloc: Global) -> Result<SearchRequest, NoMemory> {
        let query = self.query.copy(alloc)?;
        let sort = self.sort.copy(alloc)?;
        let after = match &self.after {
            Some(keys) => Some(keys.copy(alloc)?),
            None => None,
        };
        Ok(SearchRequest {
            query,
            sort,
            from: self.from,
            size: self.size,
            after,
            slice: self.slice,
            batch: self.batch,
        })
    }
}

/// A document that a search found, with the values that are shown of those that it was ordered by.
#[derive(Drop)]
pub struct Hit {
    pub index: IndexName,
    pub id: DocId,
    pub source: Bytes,
    pub shown: Items<Value>,
}

/// How many shards a search spoke to, and how they fared. A skipped one counts as successful.
#[derive(Drop)]
pub struct Counts {
    pub total: u32,
    pub successful: u32,
    pub skipped: u32,
    pub failed: u32,
}

/// The answer to a search: `total` is how many documents match, `hits` is the page, and `phases` is how many batches the shards
/// that weren't skipped make.
#[derive(Drop)]
pub struct Answer {
    pub counts: Counts,
    pub phases: u32,
    pub total: u64,
    pub hits: Items<Hit>,
}
