//! The lines of a head: which are taken, and what they say.
ghost use Rattle.std.specs.Prelude.{◌≡◌, ◌<◌, ◌≤◌, ◌^◌, length, map, filter, All, IfSome};
ghost use Rattle.std.specs.List.{list_all};
ghost use Rattle.http_wire.specs.Heads.{is_known, is_length, length_of, number_of};
ghost use Rattle.http_wire.specs.Names.{is_known_name, is_length_name, is_moment_name};
ghost use Rattle.http_wire.specs.Parts.{moment_in};
ghost use Rattle.httparse.specs.Spans.{IsHeaderWithin, IsWithin, header_bytes};

use es_types::BODY_BYTES;
use httparse::spans::{HeaderSpan, Span};

/// Whether the names of all header lines are known.
pub(crate) fn all_known(bytes: &[u8], headers: &[HeaderSpan]) -> bool
    requires { All (IsHeaderWithin (length bytes.now)) headers.now }
    ensures { result ≡ list_all is_known (map (header_bytes bytes.now) headers.now) }
{
    for header in headers {
        if !names_known(header.name.of(bytes)) {
            return false;
        }
    }
    true
}

fn names_known(name: &[u8]) -> bool
    ensures { result ≡ is_known_name name.now }
{
    name.eq_ignore_ascii_case(b"host")
        || name.eq_ignore_ascii_case(b"user-agent")
        || name.eq_ignore_ascii_case(b"accept")
        || name.eq_ignore_ascii_case(b"content-type")
        || names_length(name)
        || names_moment(name)
}

fn names_length(name: &[u8]) -> bool
    ensures { result ≡ is_length_name name.now }
{
    name.eq_ignore_ascii_case(b"content-length")
}

fn names_moment(name: &[u8]) -> bool
    ensures { result ≡ is_moment_name name.now }
{
    name.eq_ignore_ascii_case(b"x-moment")
}

/// Where the moment is that the header lines hand in, unless more than one do.
pub(crate) fn moment_in(bytes: &[u8], headers: &[HeaderSpan]) -> Option<Option<Span>>
    requires { All (IsHeaderWithin (length bytes.now)) headers.now }
    ensures is { result ≡ moment_in bytes.now headers.now }
    ensures within { IfSome result (λ moment. IfSome moment (IsWithin (length bytes.now))) }
{
    let mut moment = None;
    for header in headers {
        if names_moment(header.name.of(bytes)) {
            if moment.is_some() {
                return None;
            }
            moment = Some(header.value);
        }
    }
    Some(moment)
}

/// The length that the header lines give.
pub(crate) fn length_in(bytes: &[u8], headers: &[HeaderSpan]) -> Option<usize>
    requires { All (IsHeaderWithin (length bytes.now)) headers.now }
    ensures is { result ≡ length_of (filter is_length (map (header_bytes bytes.now) headers.now)) }
    ensures bound { IfSome result (λ length. length ≤ BODY_BYTES) }
{
    let mut found = None;
    for header in headers {
        if names_length(header.name.of(bytes)) {
            if found.is_some() {
                return None;
            }
            found = Some(number(header.value.of(bytes), 18, BODY_BYTES)? as usize);
        }
    }
    Some(found.unwrap_or(0))
}

/// The number of 1 to `most` digits, where it is at most the limit.
pub fn number(digits: &[u8], most: usize, limit: u64) -> Option<u64>
    requires { limit < 2 ^ 60 }
    ensures is { result ≡ number_of most limit digits.now }
    ensures bound { IfSome result (λ value. value ≤ limit) }
{
    if digits.is_empty() || digits.len() > most {
        return None;
    }
    let mut value: u64 = 0;
    for digit in digits {
        if !digit.is_ascii_digit() {
            return None;
        }
        value = value * 10 + (*digit - b'0') as u64;
        if value > limit {
            return None;
        }
    }
    Some(value)
}
