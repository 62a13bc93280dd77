//! The limits that a request may break.
/// A limit that a request may break.
#[derive(Clone, Copy)]
pub enum LimitName {
    /// The moment that a request hands in: 1 to 16 digits, at most 2^53.
    Moment,
    /// The name of an index: see [`IndexName`](crate::IndexName).
    Index,
    /// A document's id: see [`DocId`](crate::DocId).
    Id,
    /// How many shards an index gets: 1 to 1,024.
    Shards,
    /// The fields of a mapping: at most 1,000, of names as [`FieldName`](crate::FieldName) takes them.
    Fields,
    /// How long something is kept: see [`KeepAlive`](crate::KeepAlive); a point in time at most 24 hours.
    KeepAlive,
    /// How many shards make a batch, of which the number of phases is counted: 2 to 1,024.
    Batch,
    /// A point in time together with an index, or neither of them, or a slice without a point in time.
    Pit,
    /// Hits to leave out, together with values after which the page begins.
    From,
    /// How many hits a search leaves out and asks for: at most 10,000 together.
    Window,
    /// A slice that there can't be: there are 2 to 1,024, numbered from 0.
    Slice,
    /// What a search sorts by: at most 64 keys, no score, and `_shard_doc` only in a point in time.
    Sort,
}
