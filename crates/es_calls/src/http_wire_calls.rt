//! The calls of `http_wire`.
use crate::es_types_calls::bytes;
use es_outside::{Link, MemSink, MemSource, Pair};
use es_types::{Bytes, Items};
use http_wire::{Buf, Request, WireEnd, next_request, one_cut, write_all};
use std::alloc::Global;
use std::process::Abort;
use std::test::Fail;

fn end_text(end: &WireEnd) -> &'static str {
    match end {
        WireEnd::Truncated => " truncated",
        WireEnd::NotBuilt => " not built",
        WireEnd::ReadFault => " read fault",
        WireEnd::TooMuch => " too much",
        WireEnd::NoMemory => " no memory",
    }
}

// How many requests come, and why no more do, if not by a clean end.
fn came<L: Link>(alloc: Global, link: &mut L, buf: &mut Buf) -> (u32, &'static str) {
    for count in 0..9 {
        match next_request(alloc, link, buf) {
            Ok(Some(_)) => {}
            Ok(None) => return (count, ""),
            Err(end) => return (count, end_text(&end)),
        }
    }
    (9, "")
}

fn no_sink(alloc: Global) -> Result<MemSink, Fail> {
    Ok(MemSink::make(alloc, 0, 1, Items::of(Vec::new(alloc)))?)
}

fn came_of(alloc: Global, source: &mut MemSource) -> Result<(u32, &'static str), Fail> {
    let mut buf = Buf::make(alloc)?;
    let mut sink = no_sink(alloc)?;
    Ok(came(alloc, &mut Pair::make(source, &mut sink), &mut buf))
}

// These bytes, in such pieces, where one read fails.
fn source(alloc: Global, stream: &[u8], piece: u32, failing: u64) -> Result<MemSource, Fail> {
    let failing = Items::of(vec![in alloc; failing]?);
    Ok(MemSource::make(bytes(alloc, stream)?, piece.max(1), failing))
}

fn came_text(alloc: Global, stream: &[u8], piece: u32, failing: u64) -> Result<String, Fail> {
    let mut source = source(alloc, stream, piece, failing)?;
    let (count, end) = came_of(alloc, &mut source)?;
    Ok(format!(in alloc; "{count}{end}")?)
}

// So many requests come, and then this end, in whatever pieces the bytes come.
fn expect(rt: &impl Abort, alloc: Global, stream: &[u8], want: &str) -> Result<(), Fail> {
    for piece in [1, 7, 4096] {
        let found = came_text(alloc, stream, piece, 0)?;
        assert_eq!(rt; found.as_str(), want, "in pieces of {piece}: {stream:?}");
    }
    Ok(())
}

// A head, whose lines are parted by `|`, with a body of so many bytes.
fn request_bytes(alloc: Global, body: &str, head: &str) -> Result<Vec<u8>, Fail> {
    let mut bytes = Vec::new(alloc);
    for line in head.split('|') {
        bytes.extend_from_slice(line.as_bytes())?;
        bytes.extend_from_slice(b"\r\n")?;
    }
    bytes.extend_from_slice(b"\r\n")?;
    let body = body.parse::<usize>().ok().ok_or("a length")?;
    bytes.extend_from_slice("z".repeat(alloc, body)?.as_bytes())?;
    Ok(bytes)
}

// How many bytes of a body, the head, and what comes.
const HEADS: &str = "\
0 GET / HTTP/1.1|Host: h|USER-AGENT:x|accept: */*|Content-Type: a -> 1
0 GET / HTTP/1.1|content-length:0 -> 1
70000 GET / HTTP/1.1|content-length: 70000 -> 1
1 GET / HTTP/1.1|content-length: 000000000000000001 -> 1
1 GET / HTTP/1.1|content-length: 0000000000000000001 -> 0 not built
0 GET / HTTP/1.1|content-length: 1x -> 0 not built
0 GET / HTTP/1.1|content-length: 104857600 -> 0 truncated
0 GET / HTTP/1.1|content-length: 104857601 -> 0 not built
0 GET / HTTP/1.1|content-length: 1|content-length: 1 -> 0 not built
0 GET / HTTP/1.1|X-Moment: 5|host: h -> 1
0 GET / HTTP/1.1|x-moment: what is no moment -> 1
0 GET / HTTP/1.1|x-moment: 5|X-MOMENT: 5 -> 0 not built
0 GET / HTTP/1.1|x-moments: 5 -> 0 not built
0 GET / HTTP/1.1|te: x -> 0 not built
0 GET / HTTP/1.0|host: h -> 0 not built
0 OPTIONS * HTTP/1.1|host: h -> 0 not built
";

#[test]
fn heads(rt: HostRuntime) -> Result<(), Fail> {
    let alloc = rt.alloc();
    for line in HEADS.lines() {
        let (body, line) = line.split_once(' ').ok_or("a length")?;
        let (head, want) = line.split_once(" -> ").ok_or("an end")?;
        let bytes = request_bytes(alloc, body, head)?;
        expect(&rt, alloc, &bytes, want)?;
    }
    let feeds = b"GET / HTTP/1.1\n\n\r\nhost: h\r\n\r\n";
    expect(&rt, alloc, feeds, "0 not built")?;
    // A head that does not end.
    for (long, want) in [(16_383, "0 truncated"), (16_384, "0 not built")] {
        let bytes = "a".repeat(alloc, long)?;
        expect(&rt, alloc, bytes.as_bytes(), want)?;
    }
    Ok(())
}

// The last request of the link, where there is one.
fn last_of<L: Link>(alloc: Global, link: &mut L, buf: &mut Buf) -> Option<Request> {
    let mut last = None;
    for _count in 0..9 {
        match next_request(alloc, link, buf) {
            Ok(Some(request)) => last = Some(request),
            _ => break,
        }
    }
    last
}

fn shown(bytes: &Bytes) -> &str {
    str::from_utf8(bytes.as_slice()).unwrap_or("no text")
}

// A request, which closes nothing, or the moment that it hands in, in angle brackets.
fn request_text(alloc: Global, request: &Request) -> Result<String, Fail> {
    if request.last {
        return Ok(String::from_str(alloc, "the last one")?);
    }
    if let Some(moment) = &request.moment {
        return Ok(format!(in alloc; "<{}>", shown(moment))?);
    }
    let method = request.method.as_str();
    let path = request.path.as_str();
    let query = shown(&request.query);
    let body = shown(&request.body);
    Ok(format!(in alloc; "{method} {path} [{query}] [{body}]")?)
}

fn last_request(alloc: Global, stream: &str) -> Result<Option<Request>, Fail> {
    let mut source = source(alloc, stream.as_bytes(), 5, 0)?;
    let mut sink = no_sink(alloc)?;
    let mut buf = Buf::make(alloc)?;
    Ok(last_of(alloc, &mut Pair::make(&mut source, &mut sink), &mut buf))
}

fn last_text(alloc: Global, stream: &str) -> Result<String, Fail> {
    match last_request(alloc, stream)? {
        None => Err("a request")?,
        Some(request) => request_text(alloc, &request),
    }
}

#[test]
fn cuts(rt: HostRuntime) -> Result<(), Fail> {
    let alloc = rt.alloc();
    let two = "GET /a HTTP/1.1\r\n\r\nPUT /b?c?d HTTP/1.1\r\ncontent-LENGTH:  3 \r\n\r\nabc";
    // Cut short, the first request is whole from its 19th byte on, and the second at the end alone.
    for cut in 0..two.len() {
        let want = match cut {
            0 => "0",
            19 => "1",
            1..=18 => "0 truncated",
            _ => "1 truncated",
        };
        expect(&rt, alloc, &two.as_bytes()[..cut], want)?;
    }
    expect(&rt, alloc, two.as_bytes(), "2")?;
    let found = came_text(alloc, two.as_bytes(), 5, 3)?;
    assert_eq!(rt; found.as_str(), "0 read fault");
    for (text, want) in [
        (two, "PUT /b [c?d] [abc]"),
        ("PUT /a? HTTP/1.1\r\n\r\n", "PUT /a [] []"),
        ("PUT /a HTTP/1.1\r\n\r\n", "PUT /a [] []"),
        (
            "GET /a HTTP/1.1\r\nx-moment: \t 60 000 \t\r\nhost: 5\r\n\r\n",
            "<60 000>",
        ),
        ("GET /a HTTP/1.1\r\nhost: 5\r\nX-Moment:\r\n\r\n", "<>"),
    ] {
        let found = last_text(alloc, text)?;
        assert_eq!(rt; found.as_str(), want);
    }
    one_cut();
    Ok(())
}

// Into room for eight bytes, in pieces of three, where one write fails: whether each of two pieces is written, and what is then.
fn wrote(
    rt: &impl Abort,
    sink: &mut MemSink,
    source: &mut MemSource,
    pieces: [&str; 2],
    done: [bool; 2],
) {
    let mut link = Pair::make(source, sink);
    for at in 0..2 {
        let is_done = write_all(&mut link, pieces[at].as_bytes()).is_ok();
        assert!(rt; is_done == done[at], "{}", pieces[at]);
    }
}

fn eight(alloc: Global, failing: u64) -> Result<MemSink, Fail> {
    let failing = Items::of(vec![in alloc; failing]?);
    Ok(MemSink::make(alloc, 8, 3, failing)?)
}

#[test]
fn writes(rt: HostRuntime) -> Result<(), Fail> {
    let alloc = rt.alloc();
    for (failing, pieces, done, written) in [
        (0, ["seven  ", "ab"], [true, false], "seven  a"),
        (0, ["", "eightles"], [true, true], "eightles"),
        (2, ["seven  ", "ab"], [false, true], "sevab"),
    ] {
        let mut source = source(alloc, b"", 1, 0)?;
        let mut sink = eight(alloc, failing)?;
        wrote(&rt, &mut sink, &mut source, pieces, done);
        assert_eq!(rt; sink.bytes(), written.as_bytes());
    }
    Ok(())
}
