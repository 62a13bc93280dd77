//! The calls of `es_query`.
use crate::es_types_calls::{copies, text};
use crate::es_types_fields::mapping_of_n;
use es_query::{Bool, Edge, Need, Query, Side, bounds_of, nothing_excluded_matches};
use es_types::{Bound, Bounds, Items, Row, Value};
use std::alloc::Global;
use std::test::Fail;

fn range(alloc: Global, side: Side, value: i64) -> Result<Query, Fail> {
    let edge = Edge {
        side,
        value: Value::Long(value),
    };
    Ok(Query::Range {
        field: text(alloc, "n")?,
        edges: Items::of(vec![in alloc; edge]?),
    })
}

fn empty_bool(alloc: Global) -> Query {
    Query::Bool(Bool {
        must: Items::of(Vec::new(alloc)),
        filter: Items::of(Vec::new(alloc)),
        must_not: Items::of(Vec::new(alloc)),
        should: Items::of(Vec::new(alloc)),
        need: Need::Usual,
    })
}

// A query of one word, about the whole number `n`.
fn query(alloc: Global, word: &str) -> Result<Query, Fail> {
    match word {
        "above 10" => range(alloc, Side::Above, 10),
        "at least 10" => range(alloc, Side::AtLeast, 10),
        "below 1" => range(alloc, Side::Below, 1),
        "at most 1" => range(alloc, Side::AtMost, 1),
        "is 0" => Ok(Query::Term {
            field: text(alloc, "n")?,
            value: Value::Long(0),
        }),
        "bool" => Ok(empty_bool(alloc)),
        "nothing" => Ok(Query::Nothing),
        _ => Ok(Query::All),
    }
}

// So many rows, with values from 1 to 10.
fn from_1_to_10(alloc: Global, rows: u64) -> Result<Bounds, Fail> {
    let bound = Bound::Longs {
        least: 1,
        greatest: 10,
    };
    Ok(Bounds {
        rows,
        fields: Items::of(vec![in alloc; bound]?),
    })
}

#[test]
fn excluded_by_bounds(rt: HostRuntime) -> Result<(), Fail> {
    let alloc = rt.alloc();
    let mapping = mapping_of_n(alloc)?;
    let bounds = from_1_to_10(alloc, 10)?;
    for (word, want) in [
        ("above 10", true),
        ("at least 10", false),
        ("below 1", true),
        ("at most 1", false),
        ("is 0", true),
        ("bool", false),
        ("nothing", true),
        ("all", false),
    ] {
        let query = query(alloc, word)?;
        assert!(rt; query.fit(&mapping).is_ok());
        assert!(rt; copies(alloc, &query));
        assert_eq!(rt; query.excluded(&mapping, &bounds), want, "{word}");
    }
    let none = from_1_to_10(alloc, 0)?;
    assert!(rt; Query::All.excluded(&mapping, &none));
    nothing_excluded_matches();
    Ok(())
}

#[test]
fn bounds_of_no_rows(rt: HostRuntime) -> Result<(), Fail> {
    let alloc = rt.alloc();
    let mapping = mapping_of_n(alloc)?;
    let rows: Vec<Row> = Vec::new(alloc);
    let bounds = bounds_of(alloc, &mapping, &rows)?;
    assert!(rt; copies(alloc, &bounds));
    assert_eq!(rt; bounds.rows, 0);
    assert!(rt; matches!(bounds.fields.as_slice(), [Bound::Nothing]));
    Ok(())
}
