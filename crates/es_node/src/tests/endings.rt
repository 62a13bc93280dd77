//! How runs over memory end.
ghost use Rattle.std.specs.Prelude.{None};

use crate::adapter::{Input, Output};
use crate::run::{Status, run};
use crate::solo::Solo;
use context_book::View;
use es_core::{Core, Plan};
use es_outside::{Failed, MemSink, MemSource, Sink, Source};
use es_types::{Bytes, Items, NoMemory, Text};
use std::alloc::Global;
use std::io::{self, ErrorKind, Read, Write};
use std::process::Abort;
use std::test::Fail;

const CREATED_A: (&str, &str) = (
    "201 Created",
    "{\"_index\":\"docs\",\"_id\":\"a\",\"result\":\"created\",\"_seq_no\":0}",
);

const NOT_BUILT: &str =
    "{\"error\":{\"root_cause\":[{\"type\":\"not_built_exception\",\"reason\":\"not built\"}],\"type\":\"not_built_exception\",\"reason\":\"not built\"},\"status\":501}";

// The bytes of requests, each a method with a target, and a body.
fn requests(alloc: Global, all: &[(&str, &str)]) -> Result<Vec<u8>, Fail> {
    let mut bytes = Vec::new(alloc);
    for (line, body) in all {
        let length = body.len();
        let text = format!(in alloc; "{line} HTTP/1.1\r\ncontent-length: {length}\r\n\r\n{body}")?;
        bytes.extend_from_slice(text.as_bytes())?;
    }
    Ok(bytes)
}

// The bytes of responses, each a status with its phrase, and a body.
fn responses(alloc: Global, all: &[(&str, &str)]) -> Result<Vec<u8>, Fail> {
    let mut bytes = Vec::new(alloc);
    for (status, body) in all {
        let length = body.len();
        let text = format!(in alloc;
            "HTTP/1.1 {status}\r\ncontent-type: application/json\r\ncontent-length: {length}\r\n\r\n{body}"
        )?;
        bytes.extend_from_slice(text.as_bytes())?;
    }
    Ok(bytes)
}

// Where a link fails: at a read and at a write of these numbers, or nowhere at 0.
#[derive(Drop)]
pub(crate) struct Faults {
    read: u64,
    write: u64,
}

fn words_of(alloc: Global, words: &[&str]) -> Result<Vec<Text>, NoMemory> {
    let mut texts = Vec::new(alloc);
    for word in words {
        texts.push(Text::of(String::from_str(alloc, word)?))?;
    }
    Ok(texts)
}

// The status of a replay of the bytes, and what it wrote.
pub(crate) fn replayed(
    alloc: Global,
    bytes: &[u8],
    piece: u32,
    faults: &Faults,
) -> Result<(Status, Vec<u8>), Fail> {
    let failing_reads = Items::of(vec![in alloc; faults.read]?);
    let failing_writes = Items::of(vec![in alloc; faults.write]?);
    let piece = piece.max(1);
    let mut source = MemSource::make(Bytes::of(bytes.to_vec(alloc)?), piece, failing_reads);
    let mut sink = MemSink::make(alloc, 1 << 20, piece, failing_writes)?;
    let words = words_of(alloc, &["replay"])?;
    let status = run(alloc, &words, &mut source, &mut sink);
    Ok((status, sink.bytes().to_vec(alloc)?))
}

pub(crate) const NO_FAULTS: Faults = Faults { read: 0, write: 0 };

#[test]
fn limits(rt: HostRuntime) -> Result<(), Fail> {
    let alloc = rt.alloc();
    let input = b"POST /docs/_pit?keep_alive=1m HTTP/1.1\r\n\r\n".repeat(alloc, 501)?;
    let (status, written) = replayed(alloc, &input, 4096, &NO_FAULTS)?;
    assert!(rt; status == Status::Done);
    assert!(rt; written.ends_with(b"\"reason\":\"limit [500]\"},\"status\":429}".as_slice()));
    Ok(())
}

// How long each request of an endless source is: of 2^30 bytes it is a sixteenth.
const LONG: usize = 67_108_864;

// The head of such a request. Head and body are that long together.
const LONG_HEAD: &[u8] = b"GET / HTTP/1.1\r\ncontent-length: 67108820\r\n\r\n";

// A source of such requests, one after the other, that never ends. It makes the bytes as it gives them.
#[derive(Drop)]
struct Endless {
    // How many bytes of the next request were given.
    at: usize,
}

// The first bytes of the room become the first ones of the text.
fn put(room: &mut [u8], text: &[u8]) {
    for (to, from) in room.iter_mut().zip(text) {
        *to = *from;
    }
}

impl Source for Endless {
    ghost left = { λ _. None };

    ghost read_faults = { λ _. 0 };

    fn read(&mut self, room: &mut [u8]) -> Result<usize, Failed> {
        let count = room.len().min(LONG);
        room.fill(b'z');
        if let Some(rest) = LONG_HEAD.get(self.at..) {
            put(room, rest);
        }
        if let Some(rest) = room.get_mut(LONG.saturating_sub(self.at)..) {
            put(rest, LONG_HEAD);
        }
        self.at = self.at.wrapping_add(count) % LONG;
        Ok(count)
    }
}

const REFUSED: &str =
    "HTTP/1.1 501 Not Implemented\r\ncontent-type: application/json\r\ncontent-length: 141\r\nconnection: close\r\n\r\n{\"error\":{\"root_cause\":[{\"type\":\"not_built_exception\",\"reason\":\"not built\"}],\"type\":\"not_built_exception\",\"reason\":\"not built\"},\"status\":501}";

// A replay of the bytes ends with this status, whose number is this, and has written that.
fn ends(
    rt: &impl Abort,
    alloc: Global,
    input: &[u8],
    faults: &Faults,
    end: (Status, u8),
    wanted: &[u8],
) -> Result<(), Fail> {
    let (status, code) = end;
    let (found, written) = replayed(alloc, input, 7, faults)?;
    assert!(rt;
        found == status && found.code() == code,
        "the status {code}"
    );
    assert!(rt;
        written.as_slice() == wanted,
        "what the status {code} writes"
    );
    Ok(())
}

#[test]
fn statuses(rt: HostRuntime) -> Result<(), Fail> {
    let alloc = rt.alloc();
    ends(&rt, alloc, b"", &NO_FAULTS, (Status::Done, 0), b"")?;
    let odd = b"GET / HTTP/1.1\r\nx-moment: 1\r\nx-moment: 1\r\n\r\n";
    ends(
        &rt,
        alloc,
        odd,
        &NO_FAULTS,
        (Status::Refused, 1),
        REFUSED.as_bytes(),
    )?;
    let half = b"PUT /docs/_doc/a HTTP/1.1\r\n";
    ends(&rt, alloc, half, &NO_FAULTS, (Status::Truncated, 6), b"")
}

#[test]
fn statuses_between_requests(rt: HostRuntime) -> Result<(), Fail> {
    let alloc = rt.alloc();
    // Of 50 bytes each.
    let two = requests(
        alloc,
        &[("PUT /docs/_doc/a", "{}"), ("PUT /docs/_doc/b", "{}")],
    )?;
    let created = responses(alloc, &[CREATED_A])?;
    assert!(rt; two.len() == 100);
    let (cut, _) = two.split_at(99);
    ends(
        &rt,
        alloc,
        cut,
        &NO_FAULTS,
        (Status::Truncated, 6),
        &created,
    )?;
    let end = (Status::ReadFault, 3);
    ends(&rt, alloc, &two, &Faults { read: 1, write: 0 }, end, b"")?;
    ends(
        &rt,
        alloc,
        &two,
        &Faults { read: 9, write: 0 },
        end,
        &created,
    )?;
    let end = (Status::WriteFault, 4);
    ends(&rt, alloc, &two, &Faults { read: 0, write: 1 }, end, b"")?;
    ends(
        &rt,
        alloc,
        &two,
        &Faults { read: 0, write: 2 },
        end,
        b"HTTP/1.",
    )
}

// Words that are no command. Nothing is read or written then.
#[test]
fn no_command(rt: HostRuntime) -> Result<(), Fail> {
    let alloc = rt.alloc();
    for words in [[].as_slice(), &["replay", "x"]] {
        let words = words_of(alloc, words)?;
        let input = Bytes::of(b"GET / HTTP/1.1\r\n\r\n".to_vec(alloc)?);
        let mut source = MemSource::make(input, 1, Items::of(Vec::new(alloc)));
        let mut sink = MemSink::make(alloc, 1, 1, Items::of(Vec::new(alloc)))?;
        let status = run(alloc, &words, &mut source, &mut sink);
        assert!(rt; status == Status::Usage && status.code() == 2);
        assert!(rt; sink.bytes().is_empty());
        let mut room = [0];
        assert_eq!(rt; source.read(&mut room).ok(), Some(1));
        assert_eq!(rt; room[0], b'G');
    }
    Ok(())
}

#[test]
fn too_much(rt: HostRuntime) -> Result<(), Fail> {
    let alloc = rt.alloc();
    let mut sink = MemSink::make(alloc, 1 << 20, 4096, Items::of(Vec::new(alloc)))?;
    let words = words_of(alloc, &["replay"])?;
    let mut source = Endless { at: 0 };
    let status = run(alloc, &words, &mut source, &mut sink);
    assert!(rt; status == Status::TooMuch && status.code() == 7);
    let wanted = responses(alloc, &[("501 Not Implemented", NOT_BUILT); 16])?;
    assert!(rt; sink.bytes() == wanted.as_slice());
    Ok(())
}

// A reader and writer whose calls fail.
#[derive(Drop)]
struct Failing {
    calls: u64,
}

impl Read for Failing {
    fn read(&mut self, _room: &mut [u8]) -> io::Result<usize> {
        self.calls = self.calls.wrapping_add(1);
        Err(io::Error::from(ErrorKind::Interrupted))
    }
}

impl Write for Failing {
    fn write(&mut self, _piece: &[u8]) -> io::Result<usize> {
        self.calls = self.calls.wrapping_add(1);
        Err(io::Error::from(ErrorKind::Interrupted))
    }

    fn flush(&mut self) -> io::Result<()> {
        Ok(())
    }
}

// An error is one fault, and nothing is tried again.
#[test]
fn errors_are_faults(rt: HostRuntime) {
    let mut input = Input {
        reader: Failing { calls: 0 },
        faults: 0,
    };
    let mut room = [0];
    assert!(rt; input.read(&mut room).is_err());
    assert!(rt; input.faults == 1 && input.reader.calls == 1);
    let mut output = Output {
        writer: Failing { calls: 0 },
        faults: 0,
    };
    assert!(rt; output.write(b"a").is_err());
    assert!(rt; output.faults == 1 && output.writer.calls == 1);
}

// A type that may go to another thread.
fn is_send<T: Send>() {}

#[test]
fn the_service_its_plans_and_views_are_send(_rt: HostRuntime) -> Result<(), Fail> {
    is_send::<Solo>();
    is_send::<Core>();
    is_send::<Plan>();
    is_send::<View>();
    Ok(())
}
