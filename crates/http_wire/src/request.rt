//! A request as it was sent.
use es_types::{Bytes, Text};
use http::Method;

/// A request as it was sent. `path` and `query` are the target up to its first `?` and after it, `moment` is the value
/// of its `x-moment` without spaces and tabs at its ends, and `last` says that the connection ends with it.
#[derive(Drop)]
pub struct Request {
    pub method: Method,
    pub path: Text,
    pub query: Bytes,
    pub moment: Option<Bytes>,
    pub body: Bytes,
    pub last: bool,
}
