//! A request, made of its head and its body.
ghost use Rattle.std.specs.Prelude.{◌≡◌, length, IfSome, IsUtf8};
ghost use Rattle.http.specs.Token.{IsToken};
ghost use Rattle.http_wire.specs.Heads.{path_of, query_of};
ghost use Rattle.http_wire.specs.Requests.{request_of};

use crate::Request;
use es_types::{Bytes, Text};
use http::Method;
use http::method::MethodError;
use std::alloc::Global;

/// The request that these parts are. `None` says that memory ran out.
pub(crate) fn make_request(
    alloc: Global,
    method: &[u8],
    target: &[u8],
    moment: Option<Bytes>,
    body: &[u8],
) -> Option<Request>
    requires token { IsToken method.now }
    requires text { IsUtf8 target.now }
    ensures { IfSome result (λ request. request ≡ request_of
        (record { method = method.now; target = target.now; moment = moment; body = length body.now }) body.now) }
{
    let method = make_method(alloc, method)?;
    let Ok(target) = str::from_utf8(target) else {
        unreachable!("a target is UTF-8")
    };
    let (path, query) = split_target(target);
    Some(Request {
        method,
        path: make_text(alloc, path)?,
        query: make_bytes(alloc, query)?,
        moment,
        body: make_bytes(alloc, body)?,
        last: false,
    })
}

fn make_method(alloc: Global, method: &[u8]) -> Option<Method>
    requires { IsToken method.now }
    ensures { IfSome result (λ it. it ≡ method.now) }
{
    match Method::from_bytes(alloc, method) {
        Ok(method) => Some(method),
        Err(MethodError::OutOfMemory) => None,
        Err(MethodError::Invalid) => unreachable!("a method is a token"),
    }
}

/// The path and the query.
fn split_target(target: &str) -> (&str, &[u8])
    ensures path { result.0.now ≡ path_of target.now }
    ensures query { result.1.now ≡ query_of target.now }
{
    match target.split_once('?') {
        Some((path, query)) => (path, query.as_bytes()),
        None => (target, &[]),
    }
}

fn make_text(alloc: Global, text: &str) -> Option<Text>
    ensures { IfSome result (λ it. it ≡ text.now) }
{
    match String::from_str(alloc, text) {
        Ok(text) => Some(Text::of(text)),
        Err(_) => None,
    }
}

pub(crate) fn make_bytes(alloc: Global, bytes: &[u8]) -> Option<Bytes>
    ensures { IfSome result (λ it. it ≡ bytes.now) }
{
    match Vec::from_slice(alloc, bytes) {
        Ok(bytes) => Some(Bytes::of(bytes)),
        Err(_) => None,
    }
}
