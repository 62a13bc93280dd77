//! The calls of `es_outside`.
use crate::es_types_calls::bytes;
use es_outside::{Clock, Failed, Link, MemSink, MemSource, Pair, ReplayClock, Sink, Source};
use es_types::{Items, Moment};
use std::alloc::Global;
use std::test::Fail;

// Ten digits in pieces of four, with one read that fails.
fn digits(alloc: Global, failing: u64) -> Result<MemSource, Fail> {
    let failing = Items::of(vec![in alloc; failing]?);
    Ok(MemSource::make(bytes(alloc, b"0123456789")?, 4, failing))
}

// Room for five bytes in pieces of three, with two writes that fail.
fn five(alloc: Global, failing: u64, other: u64) -> Result<MemSink, Fail> {
    let failing = Items::of(vec![in alloc; failing, other]?);
    Ok(MemSink::make(alloc, 5, 3, failing)?)
}

// Passes two bytes on.
fn pass<L: Link>(link: &mut L) -> Result<usize, Failed> {
    let mut room = [0; 2];
    let count = link.read(&mut room)?;
    if count == 0 {
        return Ok(0);
    }
    link.write(&room[..count])
}

fn ask<C: Clock>(clock: &mut C, told: Option<u64>) -> u64 {
    clock.pause();
    clock
        .now(told.and_then(|millis| Moment::make(millis)))
        .millis()
}

#[test]
fn sources(rt: HostRuntime) -> Result<(), Fail> {
    let alloc = rt.alloc();
    let mut source = digits(alloc, 2)?;
    for (count, want, shown) in [
        (6, Some(4), "0123.."),
        (6, None, "......"),
        (3, Some(3), "456..."),
        (6, Some(3), "789..."),
        (6, Some(0), "......"),
        (6, Some(0), "......"),
    ] {
        let mut room = *b"......";
        assert!(rt; 0 < count && count <= 6);
        assert_eq!(rt; source.read(&mut room[..count]).ok(), want);
        assert_eq!(rt; room.as_slice(), shown.as_bytes());
    }
    Ok(())
}

#[test]
fn sinks(rt: HostRuntime) -> Result<(), Fail> {
    let alloc = rt.alloc();
    let mut sink = five(alloc, 1, 3)?;
    for (piece, want, shown) in [
        ("abcdef", None, ""),
        ("abcdef", Some(3), "abc"),
        ("def", None, "abc"),
        ("def", Some(2), "abcde"),
        ("f", None, "abcde"),
    ] {
        assert!(rt; 0 < piece.len());
        assert_eq!(rt; sink.write(piece.as_bytes()).ok(), want);
        assert_eq!(rt; sink.bytes(), shown.as_bytes());
    }
    Ok(())
}

#[test]
fn pairs(rt: HostRuntime) -> Result<(), Fail> {
    let alloc = rt.alloc();
    let mut source = digits(alloc, 3)?;
    let mut sink = five(alloc, 4, 0)?;
    let mut pair = Pair::make(&mut source, &mut sink);
    for want in [Some(2), Some(2), None, Some(1), None, None, Some(0)] {
        assert_eq!(rt; pass(&mut pair).ok(), want);
    }
    drop(pair);
    assert_eq!(rt; sink.bytes(), b"01234".as_slice());
    Ok(())
}

#[test]
fn clocks(rt: HostRuntime) {
    let mut clock = ReplayClock::make();
    for (told, want) in [
        (None, 0),
        (Some(70), 70),
        (None, 70),
        (Some(20), 20),
        (None, 20),
    ] {
        assert_eq!(rt; ask(&mut clock, told), want);
    }
}
