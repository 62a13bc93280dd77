//! The bytes of a response, whatever it is.
ghost use Rattle.std.specs.Prelude.{◌≡◌, IfOk, false, true};
ghost use Rattle.reply_json.specs.Replies.{reply_text, text};

use crate::bulk::bulk_text;
use crate::document::{closed_text, created_text, opened_text, refreshed_text, wrote_text};
use crate::fault::RestFault;
use crate::found::{found_text, lead_of};
use crate::frame::frame;
use crate::refused::{fault_status, fault_text};
use crate::response::{Response, RouteName};
use es_types::{Bytes, NoMemory};
use list_machine::Reply;
use std::alloc::Global;

/// The body of a reply; of one that its route gives no text it is empty.
fn reply_text(alloc: Global, route: &RouteName, reply: &Reply) -> Result<Vec<u8>, NoMemory>
    ensures { IfOk result (λ body. body.items ≡ reply_text route.now reply.now) }
{
    match (route, reply) {
        (RouteName::Create { index }, Reply::Done) => {
            Ok(created_text(alloc, index)?.into_bytes())
        }
        (RouteName::Put { index, id }, Reply::Wrote { result: wrote, seq }) => {
            Ok(wrote_text(alloc, index, id, *wrote, *seq)?.into_bytes())
        }
        (RouteName::Remove { index, id }, Reply::Wrote { result: wrote, seq }) => {
            Ok(wrote_text(alloc, index, id, *wrote, *seq)?.into_bytes())
        }
        (RouteName::Refresh, Reply::Sealed(numbers)) => {
            Ok(refreshed_text(alloc, numbers.as_slice())?.into_bytes())
        }
        (RouteName::OpenPit, Reply::Opened { number }) => {
            Ok(opened_text(alloc, *number)?.into_bytes())
        }
        (RouteName::ClosePit, Reply::Closed { freed }) => {
            Ok(closed_text(alloc, *freed)?.into_bytes())
        }
        (RouteName::Search { pit }, Reply::Found(answer)) => found_text(
            alloc,
            lead_of(*pit),
            answer,
        ),
        _ => Ok(Vec::new(alloc)),
    }
}

/// The bytes of a response, which may be the last of its connection: a head in HTTP/1.1 (RFC 9112), and a body in JSON
/// (RFC 8259), whose texts are escaped as `serde_json` escapes them. Takes steps in proportion to those bytes.
pub fn print(alloc: Global, response: &Response, last: bool) -> Result<Bytes, NoMemory>
    ensures { IfOk result (λ bytes. bytes ≡ text response.now last) }
{
    match response {
        Response::Json {
            status,
            reply,
            route,
        } => {
            let body = reply_text(alloc, route, reply)?;
            frame(alloc, *status, body.as_slice(), last)
        }
        Response::Bulk(lines) => {
            let body = bulk_text(alloc, lines.as_slice())?;
            frame(alloc, 200, body.as_slice(), last)
        }
        Response::Fault(fault) => {
            let body = fault_text(alloc, fault)?;
            frame(alloc, fault_status(fault), body.as_bytes(), last)
        }
    }
}

fn no_memory_last() -> &'static [u8]
    ensures { result.now ≡ text (Response.Fault RestFault.NoMemory) true }
{
    b"HTTP/1.1 503 Service Unavailable\r\ncontent-type: application/json\r\ncontent-length: 141\r\nconnection: close\r\n\r\n{\"error\":{\"root_cause\":[{\"type\":\"no_memory_exception\",\"reason\":\"no memory\"}],\"type\":\"no_memory_exception\",\"reason\":\"no memory\"},\"status\":503}"
}

fn no_memory_kept() -> &'static [u8]
    ensures { result.now ≡ text (Response.Fault RestFault.NoMemory) false }
{
    b"HTTP/1.1 503 Service Unavailable\r\ncontent-type: application/json\r\ncontent-length: 141\r\n\r\n{\"error\":{\"root_cause\":[{\"type\":\"no_memory_exception\",\"reason\":\"no memory\"}],\"type\":\"no_memory_exception\",\"reason\":\"no memory\"},\"status\":503}"
}

/// The bytes of the response that memory ran out. It takes none.
pub fn no_memory_text(last: bool) -> &'static [u8]
    ensures { result.now ≡ text (Response.Fault RestFault.NoMemory) last }
{
    if last {
        no_memory_last()
    } else {
        no_memory_kept()
    }
}
