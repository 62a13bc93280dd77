//! What the bodies of requests say: a new index, a document, the items of a bulk.
#![tactic(auto)]

mod bulk;
mod document;
mod fault;
mod index;
mod value;

pub use bulk::{ActionKind, BulkAction, BulkChange, BulkItem, Line, next_action, next_bulk};
pub use document::read_doc;
pub use fault::BodyFault;
pub use index::{IndexSpec, filled, read_index};
pub use value::{is_form, read_data};
