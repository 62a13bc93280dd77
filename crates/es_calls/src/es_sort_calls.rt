//! The calls of `es_sort`.
use crate::es_types_calls::{bytes, copies, text};
use crate::es_types_fields::mapping_of_n;
use es_sort::{Keys, SortBy, SortKey, SortSpec, strict_total_order};
use es_types::{DocId, Items, Mapping, NoMemory, Row, Value};
use std::alloc::Global;
use std::cmp::Ordering;
use std::fmt;
use std::test::Fail;

#[derive(Drop)]
struct ValuesText<'a> {
    values: &'a [Value],
}

// Values in a line, with a blank after each.
impl fmt::Display for ValuesText<'_> {
    fn fmt<W: fmt::Write>(&self, f: &mut fmt::Formatter<W>) -> fmt::Result {
        for value in self.values {
            match value {
                Value::Key(key) => write!(f, "{} ", key.as_str())?,
                Value::Long(number) => write!(f, "{number} ")?,
                Value::Missing => write!(f, "missing ")?,
            }
        }
        Ok(())
    }
}

// A word: a whole number, `-` for no value, or else a text.
fn value_of(alloc: Global, word: &str) -> Result<Value, NoMemory> {
    if word == "-" {
        return Ok(Value::Missing);
    }
    match word.parse::<i64>() {
        Ok(number) => Ok(Value::Long(number)),
        Err(_) => Ok(Value::Key(text(alloc, word)?)),
    }
}

// The values of some words. An empty line has none.
fn keys_of(alloc: Global, line: &str) -> Result<Keys, NoMemory> {
    let mut values = Vec::new(alloc);
    for word in line.split(' ') {
        if !word.is_empty() {
            values.push(value_of(alloc, word)?)?;
        }
    }
    Ok(Keys {
        values: Items::of(values),
    })
}

// A key by a field or by the place: `n`, `n-` down, `first-n` with those that have no value first.
fn key(alloc: Global, word: &str) -> Result<SortKey, NoMemory> {
    let name = word.strip_prefix("first-").unwrap_or(word);
    let name = name.strip_suffix("-").unwrap_or(name);
    let by = match name {
        "place" => SortBy::Place,
        _ => SortBy::Field(text(alloc, name)?),
    };
    Ok(SortKey {
        by,
        down: word.ends_with("-"),
        missing_first: word.starts_with("first-"),
    })
}

// A sort by the keys of a line, which may end with `shown`, for the place.
fn sort_of(alloc: Global, line: &str) -> Result<SortSpec, NoMemory> {
    let mut keys = Vec::new(alloc);
    for word in line.split(' ') {
        if !word.is_empty() && word != "shown" {
            keys.push(key(alloc, word)?)?;
        }
    }
    Ok(SortSpec {
        keys: Items::of(keys),
        show_place: line.ends_with("shown"),
    })
}

fn row_of(alloc: Global, value: Value) -> Result<Row, Fail> {
    Ok(Row {
        seq: 1,
        id: DocId::make(text(alloc, "a")?).ok().ok_or("an id")?,
        source: bytes(alloc, b"{}")?,
        values: Items::of(vec![in alloc; value]?),
    })
}

// The key of the third row, which has that value.
fn key_of(alloc: Global, mapping: &Mapping, sort: &SortSpec, value: &str) -> Result<Keys, Fail> {
    let row = row_of(alloc, value_of(alloc, value)?)?;
    Ok(sort.key_of(alloc, mapping, &row, 2)?)
}

fn keys_text(alloc: Global, keys: &Keys) -> Result<String, NoMemory> {
    let values = keys.values.as_slice();
    Ok(format!(in alloc; "{}", ValuesText { values })?)
}

#[test]
fn keys_of_rows(rt: HostRuntime) -> Result<(), Fail> {
    let alloc = rt.alloc();
    let mapping = mapping_of_n(alloc)?;
    for (sort, value, want, shown) in [
        ("n shown", "1", "1 2 ", 2),
        ("n", "1", "1 2 ", 1),
        ("n", "-", "missing 2 ", 1),
        ("", "1", "2 ", 0),
        ("place- n", "1", "2 1 ", 2),
        ("n place- shown", "1", "1 2 ", 2),
        ("n n-", "5", "5 5 2 ", 2),
    ] {
        let sort = sort_of(alloc, sort)?;
        assert_eq!(rt; sort.shown(), shown);
        assert!(rt; sort.fit(&mapping).is_ok());
        assert!(rt; copies(alloc, &sort));
        let key = key_of(alloc, &mapping, &sort, value)?;
        assert!(rt; copies(alloc, &key));
        let found = keys_text(alloc, &key)?;
        assert_eq!(rt; found.as_str(), want);
    }
    strict_total_order();
    Ok(())
}

fn word(order: Ordering) -> &'static str {
    match order {
        Ordering::Less => "<",
        Ordering::Equal => "=",
        Ordering::Greater => ">",
    }
}

#[test]
fn orders_of_keys(rt: HostRuntime) -> Result<(), Fail> {
    let alloc = rt.alloc();
    for (sort, a, b, want, after) in [
        ("n", "1 0", "2 0", "<", false),
        ("n shown", "1 0", "1 1", "<", false),
        ("n shown", "1 1", "1 1", "=", false),
        // The place after the keys is not shown, so equal values are not after each other.
        ("n", "1 1", "1 0", ">", false),
        ("n", "2 0", "1 9", ">", true),
        ("n-", "1 0", "2 0", ">", true),
        ("n-", "2 0", "- 0", "<", false),
        ("n", "- 0", "2 0", ">", true),
        ("first-n", "- 9", "-5 0", "<", false),
        ("first-n-", "5 0", "- 9", ">", true),
        ("n place-", "1 1", "1 2", ">", true),
        ("", "0", "1", "<", false),
    ] {
        let sort = sort_of(alloc, sort)?;
        let a = keys_of(alloc, a)?;
        let b = keys_of(alloc, b)?;
        assert_eq!(rt; word(sort.compare(&a, &b)), want);
        assert_eq!(rt; sort.is_after(&a, &b), after);
    }
    Ok(())
}

#[test]
fn values_to_go_on_after(rt: HostRuntime) -> Result<(), Fail> {
    let alloc = rt.alloc();
    let mapping = mapping_of_n(alloc)?;
    for (sort, after, want) in [
        ("n shown", "1 2", true),
        ("n shown", "- 2", true),
        ("n shown", "1 -", false),
        ("n shown", "1 x", false),
        ("n shown", "x 2", false),
        ("n shown", "1", false),
        ("n shown", "1 2 3", false),
        ("n", "1", true),
        ("n", "1 2", false),
        ("", "", true),
        ("", "1", false),
        ("n place-", "1 2", true),
        ("place- n", "-", false),
    ] {
        let sort = sort_of(alloc, sort)?;
        let after = keys_of(alloc, after)?;
        assert_eq!(rt; sort.after_ok(&mapping, &after).is_ok(), want);
    }
    let unmapped = sort_of(alloc, "n m")?;
    assert!(rt; unmapped.fit(&mapping).is_err());
    Ok(())
}
