//! The text of responses: replies, items of a bulk and faults as JSON (RFC 8259), after the head of an HTTP/1.1
//! response (RFC 9112).
#![tactic(auto)]

mod bulk;
mod document;
mod fault;
mod found;
mod frame;
mod ids;
mod pieces;
mod refused;
mod reply;
mod response;

pub use document::{closed_status, wrote_status};
pub use fault::RestFault;
pub use reply::{no_memory_text, print};
pub use response::{BulkLine, BulkOutcome, Response, RouteName};
