//! The next request of a link, however its bytes come in pieces.
ghost use Rattle.std.specs.Prelude.{◌≡◌, ◌+◌, ◌<◌, ◌≤◌, length, IfOk, IfSome, OnOk, OnErr, IsUtf8, option_map};
ghost use Rattle.http.specs.Token.{IsToken};
ghost use Rattle.httparse.specs.Spans.{IsWithin, span_bytes};
ghost use Rattle.http_wire.specs.Parts.{IsParsedWithin, request_at};
ghost use Rattle.http_wire.specs.Steps.{BodyCame, HeadCame, IsShort};
ghost use Rattle.http_wire.specs.Stream.{NextOf, Wrote, WroteSome, size};
ghost use Rattle.es_outside.specs.Told.{Rose};

use crate::buf::read_more;
use crate::head::{Parsed, head_end, head_of};
use crate::make::{make_bytes, make_request};
use crate::{Buf, Request};
use es_outside::Link;
use es_types::{Bytes, HEAD_BYTES};
use httparse::spans::Span;
use std::alloc::Global;

/// Why a connection gave no further request. `NotBuilt` is a head that is not taken yet.
#[derive(Clone, Copy, PartialEq, Eq)]
pub enum WireEnd {
    Truncated,
    NotBuilt,
    ReadFault,
    TooMuch,
    NoMemory,
}

/// Takes the next request from the link. `None` is the end of input before a byte of it. The body is read in time
/// linear in its length, and nothing is read after a whole request. After an end the buffer isn't used again.
pub fn next_request<L: Link>(
    alloc: Global,
    link: &mut L,
    buf: &mut Buf,
) -> Result<Option<Request>, WireEnd>
    // Where the link tells what it has left, the answer is what those bytes begin with.
    ensures next { NextOf buf.old buf.new (L.left link.old) (L.left link.new) result }
    ensures smaller { IfOk result (λ next. IfSome next (λ _. size buf.new < size buf.old)) }
    ensures fault { result ≡ Err WireEnd.ReadFault → Rose (L.read_faults link.old) (L.read_faults link.new) }
    ensures reported { L.read_faults link.old < L.read_faults link.new → result ≡ Err WireEnd.ReadFault }
    ensures count { L.read_faults link.old ≤ L.read_faults link.new }
    ensures written { L.written link.new ≡ L.written link.old }
    ensures write_faults { L.write_faults link.new ≡ L.write_faults link.old }
    ensures held { L.held link.new ≡ L.held link.old }
{
    let long = match read_head(link, buf) {
        Ok(Some(long)) => long,
        Ok(None) => return Ok(None),
        Err(end) => return Err(end),
    };
    let Some(head) = head_of(&buf.held()[..long]) else {
        return Err(WireEnd::NotBuilt);
    };
    match read_body(link, buf, long + head.body) {
        Ok(()) => {}
        Err(end) => return Err(end),
    }
    match cut(alloc, buf.held(), long, &head) {
        Some(request) => {
            buf.advance(alloc, long + head.body);
            Ok(Some(request))
        }
        None => Err(WireEnd::NoMemory),
    }
}

/// Reads until the end of a head is held, and says how long the head is. `None` is the end of input before a byte.
fn read_head<L: Link>(link: &mut L, buf: &mut Buf) -> Result<Option<usize>, WireEnd>
    ensures came { HeadCame buf.old buf.new (L.left link.old) (L.left link.new) result }
    ensures fault { result ≡ Err WireEnd.ReadFault → Rose (L.read_faults link.old) (L.read_faults link.new) }
    ensures reported { L.read_faults link.old < L.read_faults link.new → result ≡ Err WireEnd.ReadFault }
    ensures count { L.read_faults link.old ≤ L.read_faults link.new }
    ensures written { L.written link.new ≡ L.written link.old }
    ensures write_faults { L.write_faults link.new ≡ L.write_faults link.old }
    ensures held { L.held link.new ≡ L.held link.old }
{
    let mut seen = 0;
    loop {
        let held = buf.held();
        if let Some(long) = head_end(held, seen) {
            return Ok(Some(long));
        }
        seen = held.len();
        if seen >= HEAD_BYTES {
            return Err(WireEnd::NotBuilt);
        }
        match read_more(link, buf) {
            Ok(true) => {}
            Ok(false) if seen == 0 => return Ok(None),
            Ok(false) => return Err(WireEnd::Truncated),
            Err(end) => return Err(end),
        }
    }
}

/// Reads until so many bytes are held.
fn read_body<L: Link>(link: &mut L, buf: &mut Buf, long: usize) -> Result<(), WireEnd>
    requires begun { 0 < length buf.old.bytes }
    requires short { IsShort buf.old.bytes long }
    ensures came { BodyCame buf.old buf.new (L.left link.old) (L.left link.new) long result }
    ensures fault { result ≡ Err WireEnd.ReadFault → Rose (L.read_faults link.old) (L.read_faults link.new) }
    ensures reported { L.read_faults link.old < L.read_faults link.new → result ≡ Err WireEnd.ReadFault }
    ensures count { L.read_faults link.old ≤ L.read_faults link.new }
    ensures written { L.written link.new ≡ L.written link.old }
    ensures write_faults { L.write_faults link.new ≡ L.write_faults link.old }
    ensures held { L.held link.new ≡ L.held link.old }
{
    while buf.held().len() < long {
        match read_more(link, buf) {
            Ok(true) => {}
            Ok(false) => return Err(WireEnd::Truncated),
            Err(end) => return Err(end),
        }
    }
    Ok(())
}

// The moment that a head hands in. The outer `None` says that memory ran out.
fn moment_of(alloc: Global, held: &[u8], moment: Option<Span>) -> Option<Option<Bytes>>
    requires { IfSome moment (IsWithin (length held.now)) }
    ensures { IfSome result (λ it. it ≡ option_map (span_bytes held.now) moment) }
{
    match moment {
        Some(span) => Some(Some(make_bytes(alloc, span.of(held))?)),
        None => Some(None),
    }
}

/// The request at the front of the bytes.
fn cut(alloc: Global, held: &[u8], long: usize, head: &Parsed) -> Option<Request>
    requires within { IsParsedWithin long head.now }
    requires body { long + head.now.body ≤ length held.now }
    requires token { IsToken (span_bytes held.now head.now.method) }
    requires text { IsUtf8 (span_bytes held.now head.now.target) }
    ensures { IfSome result (λ request. request ≡ request_at held.now long head.now) }
{
    let moment = moment_of(alloc, held, head.moment)?;
    make_request(
        alloc,
        head.method.of(held),
        head.target.of(held),
        moment,
        &held[long..long + head.body],
    )
}

/// A write failed.
#[derive(Clone, Copy)]
pub struct WriteFault;

/// Writes all of the bytes, or some first ones, and not all, where a write fails.
pub fn write_all<L: Link>(link: &mut L, bytes: &[u8]) -> Result<(), WriteFault>
    ensures ok { OnOk result (Wrote (L.written link.old) (L.written link.new) bytes.now) }
    ensures err { OnErr result (WroteSome (L.written link.old) (L.written link.new) bytes.now) }
    ensures fault { OnErr result (Rose (L.write_faults link.old) (L.write_faults link.new)) }
    ensures uncounted { OnOk result (L.write_faults link.new ≡ L.write_faults link.old) }
    ensures count { L.write_faults link.old ≤ L.write_faults link.new }
    ensures left { L.left link.new ≡ L.left link.old }
    ensures read_faults { L.read_faults link.new ≡ L.read_faults link.old }
    ensures held { L.held link.new ≡ L.held link.old }
{
    let mut at = 0;
    while at < bytes.len() {
        match link.write(&bytes[at..]) {
            Ok(count) => at += count,
            Err(_) => return Err(WriteFault),
        }
    }
    Ok(())
}
