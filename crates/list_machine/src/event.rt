//! Events, entries, replies and limits.
use crate::{Answer, SearchRequest};
use es_types::{Doc, DocFault, DocId, IndexName, Items, KeepAlive, Mapping, Moment};

/// What becomes of a document.
#[derive(Drop)]
pub enum Change {
    Put(Doc),
    Remove,
}

/// What a search looks at: an index as it is now, or the view of a point in time, which is kept longer where `keep` is given.
#[derive(Drop)]
pub enum Target {
    Index(IndexName),
    Pit {
        number: u64,
        keep: Option<KeepAlive>,
    },
}

/// Which contexts are closed.
#[derive(Drop)]
pub enum Which {
    /// The points in time of these numbers.
    Pits(Items<u64>),
}

/// One step of the machine.
#[derive(Drop)]
pub enum Event {
    /// Makes an index with so many empty shards, from 1 to 1,024.
    Create {
        index: IndexName,
        shards: u32,
        mapping: Mapping,
    },
    /// Puts or removes a document; a search sees it once it is published.
    Write {
        index: IndexName,
        id: DocId,
        change: Change,
    },
    /// Asks for the number of the last operation of each shard.
    Seal {
        index: IndexName,
    },
    /// Applies the operations of a shard up to a number, so that searches see them.
    Publish {
        index: IndexName,
        shard: u32,
        upto: u64,
    },
    /// Opens a point in time: a view of the index as it is now.
    OpenPit {
        index: IndexName,
        keep: KeepAlive,
    },
    /// Searches a view.
    Search {
        target: Target,
        request: SearchRequest,
    },
    /// Closes those of these contexts that are live.
    Close {
        which: Which,
    },
    /// Changes nothing.
    Quiet,
}

/// An entry of a history: an event, who made it, and at which moment.
#[derive(Drop)]
pub struct Entry {
    pub who: u64,
    pub moment: Moment,
    pub event: Event,
}

/// What a write did.
#[derive(Clone, Copy)]
pub enum Wrote {
    Created,
    Updated,
    Deleted,
    NotFound,
}

/// What the machine replies to an event. Those from `Spent` on refuse it.
#[derive(Drop)]
pub enum Reply {
    Done,
    /// `seq` is the operation's number in its shard, from 1.
    Wrote { result: Wrote, seq: u64 },
    /// The number of the last operation of each shard.
    Sealed(Items<u64>),
    /// The number by which a search names the new point in time.
    Opened { number: u64 },
    Found(Answer),
    /// How many shards the contexts have that were closed, together.
    Closed { freed: u64 },
    /// The history has as many entries as it may have.
    Spent,
    NoIndex,
    /// An index of that name is there.
    Exists,
    /// No point in time of that number is live.
    Missing,
    /// The document has a value that is not one of its field.
    BadDoc(DocFault),
    /// The query has a value of another kind than its field's.
    BadQuery,
    /// The sort has a field that isn't mapped.
    BadSort,
    /// The values to go on after are not those of the sort.
    BadAfter,
    /// As many points in time as may be are live, or all indexes together would have more shards than they may have.
    TooMany { limit: u64 },
    ShardFull,
}

/// How many points in time may be live, and how many entries a history may have (1 to 2^53).
#[derive(Clone, Copy)]
pub struct Limits {
    pub pits: u64,
    pub entries: u64,
}
