//! Where a head ends, and what it says.
ghost use Rattle.std.specs.Prelude.{◌≡◌, ◌+◌, ◌≤◌, ◌==◌, length, take, drop, option_map, slice_index, All, IfSome, IfNone};
ghost use Rattle.es_types.specs.declared.limits.TheConstants.{BODY_BYTES};
ghost use Rattle.http_wire.specs.Heads.{Head, IsHead, head_len};
ghost use Rattle.http_wire.specs.Parts.{IsParsed, IsParsedWithin, is_taken_head, parsed_of};
ghost use Rattle.httparse.specs.Spans.{IsHeaderWithin, IsWithin};

use crate::fields::{all_known, length_in, moment_in};
use es_types::{HEAD_BYTES, HEADER_LINES};
use httparse::Status;
use httparse::spans::{EMPTY_HEADER_SPAN, HeaderSpan, RequestSpans, Span, parse_request};

/// Where the parts of a head are, and how long its body is. `moment` is the value of its `x-moment`.
#[derive(Clone, Copy)]
pub(crate) struct Parsed {
    pub method: Span,
    pub target: Span,
    pub moment: Option<Span>,
    pub body: usize,
}

/// In how many of the first 16,384 bytes a head ends, where it doesn't end in the first `seen` bytes.
pub(crate) fn head_end(held: &[u8], seen: usize) -> Option<usize>
    requires seen { seen ≤ length held.now }
    requires limit { seen ≤ HEAD_BYTES }
    requires none { head_len (take seen held.now) ≡ None }
    ensures { result ≡ head_len (take HEAD_BYTES held.now) }
{
    let window = &held[..held.len().min(HEAD_BYTES)];
    scan(window, seen.saturating_sub(3))
}

fn scan(bytes: &[u8], from: usize) -> Option<usize>
    requires { from ≤ length bytes.now }
    ensures { result ≡ option_map (λ n. n + from) (head_len (drop from bytes.now)) }
{
    for at in from..bytes.len() {
        if bytes[at..].starts_with(b"\r\n\r\n") {
            return Some(at + 4);
        }
    }
    None
}

/// The parts of a whole head, if it is one that is taken.
pub(crate) fn head_of(bytes: &[u8]) -> Option<Parsed>
    ensures is { IfSome result (IsParsed bytes.now) }
    ensures within { IfSome result (IsParsedWithin (length bytes.now)) }
    ensures not { IfNone result ((head : Head) → IsHead bytes.now head → ⊥) }
{
    let mut headers = [EMPTY_HEADER_SPAN; HEADER_LINES];
    match parse_request(bytes, &mut headers) {
        Ok(Status::Complete(spans)) => accept(bytes, &headers[..spans.headers], &spans),
        _ => None,
    }
}

fn accept(bytes: &[u8], headers: &[HeaderSpan], spans: &RequestSpans) -> Option<Parsed>
    requires method { IsWithin (length bytes.now) spans.now.method }
    requires path { IsWithin (length bytes.now) spans.now.path }
    requires headers { All (IsHeaderWithin (length bytes.now)) headers.now }
    ensures is { result ≡ parsed_of bytes.now headers.now spans.now }
    ensures within { IfSome result (IsParsedWithin (length bytes.now)) }
{
    if is_taken(bytes, headers, spans) {
        let body = length_in(bytes, headers)?;
        let moment = moment_in(bytes, headers)?;
        Some(Parsed {
            method: spans.method,
            target: spans.path,
            moment,
            body,
        })
    } else {
        None
    }
}

fn is_taken(bytes: &[u8], headers: &[HeaderSpan], spans: &RequestSpans) -> bool
    requires path { IsWithin (length bytes.now) spans.now.path }
    requires headers { All (IsHeaderWithin (length bytes.now)) headers.now }
    ensures { result ≡ is_taken_head bytes.now headers.now spans.now }
{
    spans.len == bytes.len()
        && spans.version == 1
        && starts_with_slash(spans.path.of(bytes))
        && all_known(bytes, headers)
}

fn starts_with_slash(target: &[u8]) -> bool
    ensures { result ≡ (slice_index target.now 0 == 47) }
{
    match target {
        [] => false,
        [first, ..] => *first == b'/',
    }
}
