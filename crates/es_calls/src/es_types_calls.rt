//! The calls of `es_types`.
use crate::es_types_fields::document;
use es_types::{
    Bytes, Copied, DocId, DocValue, FieldName, IndexName, Items, KeepAlive, Moment, NoMemory, Op,
    Row, Text, Value,
};
use std::alloc::Global;
use std::test::Fail;

pub(crate) fn text(alloc: Global, text: &str) -> Result<Text, NoMemory> {
    Ok(Text::of(String::from_str(alloc, text)?))
}

pub(crate) fn bytes(alloc: Global, bytes: &[u8]) -> Result<Bytes, NoMemory> {
    Ok(Bytes::of(Vec::from_slice(alloc, bytes)?))
}

// What this text can name: a document, an index or a field.
fn names(alloc: Global, name: &str) -> Result<&'static str, NoMemory> {
    let id = DocId::make(text(alloc, name)?).is_ok();
    let index = IndexName::make(text(alloc, name)?).is_ok();
    let field = FieldName::make(text(alloc, name)?).is_ok();
    Ok(match (id, index, field) {
        (true, true, true) => "id index field",
        (true, true, false) => "id index",
        (true, false, true) => "id field",
        (true, false, false) => "id",
        (false, false, false) => "",
        _ => "no id",
    })
}

#[test]
fn names_at_the_borders(rt: HostRuntime) -> Result<(), Fail> {
    let alloc = rt.alloc();
    for (count, want) in [
        (0, ""),
        (1, "id index field"),
        (255, "id index field"),
        (256, "id"),
        (512, "id"),
        (513, ""),
    ] {
        let name = "x".repeat(alloc, count)?;
        assert_eq!(rt; names(alloc, &name)?, want, "{count} bytes");
    }
    for (name, want) in [
        ("docs", "id index field"),
        ("n", "id index field"),
        ("0", "id index field"),
        ("a.b", "id index"),
        ("a_-z", "id index field"),
        ("_x", "id"),
        ("-x", "id field"),
        (".", "id"),
        ("A", "id field"),
        ("aB", "id field"),
        ("a/b", "id field"),
        ("\u{e9}", "id field"),
    ] {
        assert_eq!(rt; names(alloc, name)?, want, "{name}");
    }
    Ok(())
}

#[test]
fn times_at_the_borders(rt: HostRuntime) -> Result<(), Fail> {
    for (millis, made) in [
        (0, true),
        (9007199254740992, true),
        (9007199254740993, false),
        (u64::MAX, false),
    ] {
        let found = Moment::make(millis).map(|moment| moment.millis());
        assert_eq!(rt; found, if made { Some(millis) } else { None });
    }
    for (one, other, later) in [(3, 5, 5), (5, 3, 5), (4, 4, 4)] {
        let one = Moment::make(one).ok_or("a moment")?;
        let other = Moment::make(other).ok_or("a moment")?;
        assert_eq!(rt; one.later(other).millis(), later);
    }
    assert_eq!(rt; Moment::zero().millis(), 0);
    Ok(())
}

fn read(text: &str) -> Option<u64> {
    KeepAlive::read(text.as_bytes())
        .ok()
        .map(|keep| keep.millis())
}

#[test]
fn times_of_texts(rt: HostRuntime) -> Result<(), Fail> {
    for (text, millis) in [
        ("0", 0),
        ("0ms", 0),
        ("0d", 0),
        ("1ms", 1),
        ("1s", 1000),
        ("007s", 7000),
        ("1m", 60000),
        ("90m", 5400000),
        ("1h", 3600000),
        ("240h", 864000000),
        ("1d", 86400000),
        ("10d", 864000000),
        ("864000s", 864000000),
        ("864000000ms", 864000000),
    ] {
        assert_eq!(rt; read(text), Some(millis), "{text}");
    }
    for text in [
        "",
        "00",
        "1",
        "m",
        "ms",
        "1x",
        "1M",
        "1D",
        "1mm",
        "1md",
        "1ms ",
        " 1m",
        "1 m",
        "-1",
        "-1m",
        "+1m",
        "1.5h",
        "1h30m",
        "1micros",
        "1nanos",
        "\u{661}m",
        "864000001ms",
        "864001s",
        "14401m",
        "241h",
        "11d",
        "18446744073709551616ms",
        "213503982335d",
    ] {
        assert_eq!(rt; read(text), None, "{text}");
    }
    Ok(())
}

#[test]
fn times_of_many_digits(rt: HostRuntime) -> Result<(), Fail> {
    let alloc = rt.alloc();
    let mut zeros = "0".repeat(alloc, 100)?;
    assert_eq!(rt; read(zeros.as_str()), None);
    zeros.push_str("1m")?;
    assert_eq!(rt; read(zeros.as_str()), Some(60000));
    let mut nines = "9".repeat(alloc, 100)?;
    nines.push_str("ms")?;
    assert_eq!(rt; read(nines.as_str()), None);
    Ok(())
}

// Whether there was memory for a copy, which is known to be equal.
pub(crate) fn copies<T: Copied>(alloc: Global, it: &T) -> bool {
    it.copy(alloc).is_ok()
}

fn row(alloc: Global) -> Result<Row, Fail> {
    let id = DocId::make(text(alloc, "a")?).ok().ok_or("an id")?;
    let source = bytes(alloc, b"{}")?;
    let key = Value::Key(text(alloc, "k")?);
    let values = Items::of(vec![in alloc; key, Value::Long(-7), Value::Missing]?);
    Ok(Row {
        seq: 3,
        id,
        source,
        values,
    })
}

#[test]
fn copies_of_rows(rt: HostRuntime) -> Result<(), Fail> {
    let alloc = rt.alloc();
    let row = row(alloc)?;
    assert!(rt; copies(alloc, &row));
    assert!(rt; copies(alloc, &row.id));
    assert!(rt; copies(alloc, &row.source));
    assert!(rt; copies(alloc, &row.values));
    Ok(())
}

#[test]
fn copies_of_operations(rt: HostRuntime) -> Result<(), Fail> {
    let alloc = rt.alloc();
    let Row {
        id,
        source,
        values,
        ..
    } = row(alloc)?;
    let put = Op::Put { id, source, values };
    assert!(rt; copies(alloc, &put));
    let Row { id, .. } = row(alloc)?;
    let remove = Op::Remove { id };
    assert!(rt; copies(alloc, &remove));
    Ok(())
}

#[test]
fn copies_of_documents(rt: HostRuntime) -> Result<(), Fail> {
    let alloc = rt.alloc();
    let doc = document(alloc, "tag=k n=-7")?;
    assert!(rt; copies(alloc, &doc));
    for member in doc.members.as_slice() {
        assert!(rt; copies(alloc, member));
        assert!(rt; copies(alloc, &member.value));
    }
    assert!(rt; copies(alloc, &DocValue::Null));
    assert!(rt; copies(alloc, &DocValue::Other));
    Ok(())
}

#[test]
fn copies_of_names(rt: HostRuntime) -> Result<(), Fail> {
    let alloc = rt.alloc();
    let name = text(alloc, "docs")?;
    assert!(rt; copies(alloc, &name));
    let index = IndexName::make(name).ok().ok_or("an index")?;
    assert!(rt; copies(alloc, &index));
    let field = FieldName::make(text(alloc, "n")?).ok().ok_or("a field")?;
    assert!(rt; copies(alloc, &field));
    assert!(rt; field.text().as_str() == "n");
    Ok(())
}

#[test]
fn numbers_and_insides(rt: HostRuntime) -> Result<(), Fail> {
    let alloc = rt.alloc();
    assert!(rt; copies(alloc, &7u64));
    assert!(rt; copies(alloc, &8u32));
    assert!(rt; copies(alloc, &true));
    assert!(rt; copies(alloc, &Moment::zero()));
    let keep = KeepAlive::read(b"1m").ok().ok_or("a time")?;
    assert!(rt; copies(alloc, &keep));
    let name = text(alloc, "k")?.into_inner();
    assert!(rt; name.as_str() == "k");
    let braces = bytes(alloc, b"{}")?.into_inner();
    assert!(rt; braces.as_slice() == b"{}".as_slice());
    let numbers = Items::of(vec![in alloc; 3u64, 4]?).into_inner();
    assert!(rt; numbers.as_slice() == [3, 4].as_slice());
    Ok(())
}
