//! What requests ask for.
use ctx_ids::ContextId;
use doc_json::{BulkAction, IndexSpec};
use es_types::{Bytes, Doc, DocId, IndexName, Items, KeepAlive, Text};
use list_machine::{SearchRequest, Target};

/// What a request asks for, with the values that it gives.
#[derive(Drop)]
pub enum Ask {
    Create {
        index: IndexName,
        spec: IndexSpec,
    },
    Put {
        index: IndexName,
        id: DocId,
        doc: Doc,
        refresh: bool,
    },
    Remove {
        index: IndexName,
        id: DocId,
        refresh: bool,
    },
    /// `index` is that of the items that name none, and `items` are the actions of the body, in their order.
    Bulk {
        index: Option<Text>,
        body: Bytes,
        refresh: bool,
        items: Items<BulkAction>,
    },
    Refresh {
        index: IndexName,
    },
    OpenPit {
        index: IndexName,
        keep: KeepAlive,
    },
    /// `number` is 0 for an id of another kind.
    ClosePit {
        number: u64,
    },
    /// `sent` is the id as it was sent; where that is of another kind of context, the number in `target` is 0.
    Search {
        target: Target,
        request: SearchRequest,
        sent: Option<ContextId>,
    },
}
