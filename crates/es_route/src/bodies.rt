//! Requests that have a body, and that have none.
ghost use Rattle.std.specs.Prelude.{◌≡◌, IfOk};
ghost use Rattle.doc_json.specs.Json.{data_of};
ghost use Rattle.es_route.specs.Answers.{Answers};
ghost use Rattle.es_route.specs.Bodies.{empty_body, is_blank, is_empty_object, no_body, some_body};

use doc_json::{is_form, read_data};
use es_types::NoMemory;
use http_wire::Request;
use reply_json::RestFault;
use std::alloc::Global;

// Whether the bytes are nothing but white space.
fn is_blank(bytes: &[u8]) -> bool
    ensures { result ≡ is_blank bytes.now }
{
    bytes.iter().all(|b| *b == b' ' || *b == b'\t' || *b == b'\n' || *b == b'\r')
}

/// A request without a body. White space is none.
pub fn no_body(request: &Request) -> Result<(), RestFault>
    ensures { result ≡ no_body request.now }
{
    if is_blank(request.body.as_slice()) {
        Ok(())
    } else {
        Err(RestFault::BadBody)
    }
}

/// A request with a body, if only of white space.
pub fn some_body(request: &Request) -> Result<(), RestFault>
    ensures { result ≡ some_body request.now }
{
    if request.body.as_slice().is_empty() {
        Err(RestFault::BadBody)
    } else {
        Ok(())
    }
}

fn is_empty_object(alloc: Global, body: &[u8]) -> Result<bool, NoMemory>
    ensures { IfOk result (λ is. is ≡ is_empty_object (data_of body.now)) }
{
    match read_data(alloc, body)? {
        Some(value) => Ok(is_form(&value, &[])),
        None => Ok(false),
    }
}

/// A request without a body, or whose body is an object without members.
pub fn empty_body(alloc: Global, request: &Request) -> Result<(), RestFault>
    ensures { Answers result (empty_body request.now) }
{
    let body = request.body.as_slice();
    if is_blank(body) || is_empty_object(alloc, body)? {
        Ok(())
    } else {
        Err(RestFault::BadBody)
    }
}
