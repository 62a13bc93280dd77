//! What is answered to a request.
use crate::fault::RestFault;
use es_types::{DocId, IndexName, Items, Text};
use list_machine::{Reply, Wrote};

/// Which route a reply answers, with what its text names.
#[derive(Drop)]
pub enum RouteName {
    Create { index: IndexName },
    Put { index: IndexName, id: DocId },
    Remove { index: IndexName, id: DocId },
    Refresh,
    OpenPit,
    ClosePit,
    /// A search of an index, or of the point in time of that number.
    Search { pit: Option<u64> },
}

/// What became of an item of a bulk. `seq` is the operation's number in its shard, from 1.
#[derive(Drop)]
pub enum BulkOutcome {
    Wrote { result: Wrote, seq: u64 },
    Fault(RestFault),
}

/// An item of a bulk: whether it removes, the names as they were sent, and what became of it.
#[derive(Drop)]
pub struct BulkLine {
    pub remove: bool,
    pub index: Text,
    pub id: Text,
    pub outcome: BulkOutcome,
}

/// What a request is answered.
#[derive(Drop)]
pub enum Response {
    /// A reply that its route gives a text: `Done` to Create, `Wrote` to Put and Remove, `Sealed` to Refresh, `Opened` to
    /// OpenPit, `Closed` to ClosePit, `Found` to Search. Another one has an empty body.
    Json {
        status: u16,
        reply: Reply,
        route: RouteName,
    },
    /// The items of a bulk in their order, with the status 200.
    Bulk(Items<BulkLine>),
    Fault(RestFault),
}
