//! A service with a small limit of points in time.
use crate::solo::Solo;
use es_types::{IndexName, KeepAlive, Moment};
use list_machine::{Event, Limits, Reply, Service, docs};
use std::alloc::Global;
use std::test::Fail;

// A point in time of `docs` that is kept for a minute: its number, or the limit that refused it.
fn open(alloc: Global, solo: &mut Solo, millis: u64) -> Result<Result<u64, u64>, Fail> {
    let index: IndexName = docs(alloc)?;
    let keep = KeepAlive::read(b"1m").ok().ok_or("a time")?;
    let moment = Moment::make(millis).ok_or("a moment")?;
    match solo.ask(Event::OpenPit { index, keep }, moment)? {
        Reply::Opened { number } => Ok(Ok(number)),
        Reply::TooMany { limit } => Ok(Err(limit)),
        _ => Err("an answer to an opening")?,
    }
}

#[test]
fn expired_ones_do_not_count(rt: HostRuntime) -> Result<(), Fail> {
    let alloc = rt.alloc();
    let limits = Limits {
        pits: 2,
        entries: 100,
    };
    let mut solo = Solo::make(alloc, limits)?;
    for (millis, want) in [
        (0, Ok(1)),
        (0, Ok(2)),
        (60_000, Err(2)),
        (60_001, Ok(3)),
        (60_001, Ok(4)),
        (60_001, Err(2)),
    ] {
        let found = open(alloc, &mut solo, millis)?;
        assert!(rt; found == want, "at {millis}");
    }
    let later = Moment::make(200_000).ok_or("a moment")?;
    assert!(rt; !solo.help(later)?);
    solo.tidy(later)?;
    solo.finish();
    Ok(())
}
