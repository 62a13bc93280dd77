//! The items of a bulk, and their lines of the response.
ghost use Rattle.std.specs.Prelude.{◌≡◌, ℕ, List, IfOk};
ghost use Rattle.doc_json.specs.Bulks.{item_of};
ghost use Rattle.es_rest.specs.Items.{line_of, outcome_of};

use crate::refusal::{Named, refusal};
use doc_json::{ActionKind, BulkAction};
use es_types::{Copied, NoMemory, Text};
use list_machine::Reply;
use reply_json::{BulkLine, BulkOutcome, RestFault};
use std::alloc::Global;

/// What the reply to an item's Write comes to.
pub fn outcome_of(alloc: Global, index: &Text, reply: Reply) -> Result<BulkOutcome, NoMemory>
    ensures { IfOk result (λ outcome. outcome ≡ outcome_of index.now reply) }
{
    match reply {
        Reply::Wrote { result, seq } => Ok(BulkOutcome::Wrote { result, seq }),
        other => match refusal(Named::Index(index.copy(alloc)?), &other) {
            Some(fault) => Ok(BulkOutcome::Fault(fault)),
            None => Ok(BulkOutcome::Fault(RestFault::NotBuilt)),
        },
    }
}

/// The line of an item in the response.
pub fn line_of(action: BulkAction, outcome: BulkOutcome) -> BulkLine
    ensures { (body : List ℕ) → result ≡ line_of (item_of body action) outcome }
{
    let BulkAction {
        index,
        id,
        kind,
        next: _,
    } = action;
    let remove = match kind {
        ActionKind::Put(_) => false,
        ActionKind::Remove => true,
    };
    BulkLine {
        remove,
        index,
        id,
        outcome,
    }
}
