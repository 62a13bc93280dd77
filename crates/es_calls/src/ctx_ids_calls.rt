//! The calls of `ctx_ids`.

use crate::es_types_calls::copies;
use ctx_ids::{ContextId, Kind, no_two_ids_have_one_text};
use std::alloc::Global;
use std::test::Fail;

#[test]
fn ids_at_the_borders(rt: HostRuntime) {
    for kind in [Kind::Pit, Kind::Scroll, Kind::Task] {
        for (number, made) in [
            (0, false),
            (1, true),
            (9007199254740992, true),
            (9007199254740993, false),
            (u64::MAX, false),
        ] {
            let id = ContextId::make(kind, number).map(|id| id.number);
            assert_eq!(rt; id, if made { Some(number) } else { None });
        }
    }
}

// A word for the kind.
fn word(kind: Kind) -> &'static str {
    match kind {
        Kind::Pit => "pit",
        Kind::Scroll => "scroll",
        Kind::Task => "task",
    }
}

// The kind and the number that a text is read as.
fn read(text: &str) -> (&'static str, u64) {
    match ContextId::read_text(text.as_bytes()) {
        Ok(ContextId { kind, number }) => (word(kind), number),
        Err(_) => ("bad", 0),
    }
}

// Whether this is the text of the id, and is read as the id.
fn is_printed_as(alloc: Global, kind: Kind, number: u64, text: &str) -> Result<bool, Fail> {
    let id = ContextId::make(kind, number).ok_or("an id")?;
    let printed = id.to_text(alloc)?;
    let found = read(text);
    Ok(printed.as_str() == text && found.0 == word(kind) && found.1 == number)
}

#[test]
fn texts_of_ids(rt: HostRuntime) -> Result<(), Fail> {
    let alloc = rt.alloc();
    for (kind, number, want) in [
        (Kind::Pit, 1, "UAAAAAAAAAAB"),
        (Kind::Pit, 3, "UAAAAAAAAAAD"),
        (Kind::Pit, 9, "UAAAAAAAAAAJ"),
        (Kind::Pit, 256, "UAAAAAAAAAEA"),
        (Kind::Pit, 4031, "UAAAAAAAAA-_"),
        (Kind::Pit, 9007199254740991, "UAAf________"),
        (Kind::Pit, 9007199254740992, "UAAgAAAAAAAA"),
        (Kind::Scroll, 1, "UwAAAAAAAAAB"),
        (Kind::Scroll, 4031, "UwAAAAAAAA-_"),
        (Kind::Scroll, 9007199254740992, "UwAgAAAAAAAA"),
        (Kind::Task, 1, "QQAAAAAAAAAB"),
        (Kind::Task, 4294967296, "QQAAAAEAAAAA"),
        (Kind::Task, 9007199254740992, "QQAgAAAAAAAA"),
    ] {
        let printed = is_printed_as(alloc, kind, number, want)?;
        assert!(rt; printed, "{number}");
    }
    no_two_ids_have_one_text();
    Ok(())
}

#[test]
fn texts_of_no_ids(rt: HostRuntime) {
    for text in [
        "",
        "U",
        "UAAAAAAAAAA",
        "UAAAAAAAAAABA",
        "UAAAAAAAAAABAA",
        "UAAAAAAAAAAB=",
        "UAAAAAAAAAAB====",
        "UAAAAAAAAAE=",
        "UAAAAAAAAAE",
        "UAAAAAAAAAAB\n",
        " UAAAAAAAAAAB",
        "UAAAAAAAAA+/",
        "UAAAAAAAA%2B",
        "UAAAAAAAAA.A",
        "UQAAAAAAAAAB",
        "cAAAAAAAAAAB",
        "AAAAAAAAAAAB",
        "UAAAAAAAAAAA",
        "UwAAAAAAAAAA",
        "QQAAAAAAAAAA",
        "UAAgAAAAAAAB",
        "UwAgAAAAAAAB",
        "QQAgAAAAAAAB",
        "UP__________",
        "UAEAAAAAAAAA",
    ] {
        assert_eq!(rt; read(text).0, "bad", "{text}");
    }
}

#[test]
fn copies_of_ids(rt: HostRuntime) -> Result<(), Fail> {
    let alloc = rt.alloc();
    let id = ContextId::make(Kind::Task, 7).ok_or("an id")?;
    assert!(rt; copies(alloc, &id));
    assert!(rt; copies(alloc, &id.kind));
    Ok(())
}
