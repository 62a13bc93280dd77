//! Whether a row matches a query.
ghost use Rattle.std.specs.Prelude.{◌≡◌, map, count_by, length};
ghost use Rattle.std.specs.List.{list_all, list_any};
ghost use Rattle.es_query.specs.Clauses.{holds, needed};
ghost use Rattle.es_query.specs.Matches.{matches};
ghost use Rattle.es_query.specs.Values.{meets};

use crate::values::{is_equal, meets};
use crate::{Bool, Edge, Need, Query};
use es_types::{Mapping, Row, Value};

impl Query {
    /// Whether the query finds a row of that mapping, as the Elasticsearch reference says under "Boolean query", "Term query"
    /// and "Range query".
    pub fn matches(&self, mapping: &Mapping, row: &Row) -> bool
        ensures { result ≡ matches mapping.now row.now.values self.now }
    {
        is_match(self, mapping, row.values.as_slice())
    }
}

#[cycle(matching)]
fn is_match(query: &Query, mapping: &Mapping, values: &[Value]) -> bool
    ensures { result ≡ matches mapping.now values.now query.now }
{
    match query {
        Query::All => true,
        Query::Nothing => false,
        Query::Term { field, value } => match mapping.value_of(values, field.as_str()) {
            Some(found) => is_equal(value, found),
            None => false,
        },
        Query::Range { field, edges } => match mapping.value_of(values, field.as_str()) {
            Some(found) => meets_all(found, edges.as_slice()),
            None => false,
        },
        Query::Bool(clauses) => do_hold(clauses, mapping, values),
    }
}

fn meets_all(value: &Value, edges: &[Edge]) -> bool
    ensures { result ≡ list_all (meets value.now) edges.now }
{
    edges.iter().all(|edge| meets(value, edge))
}

// Whether the clauses of a bool query hold.
#[cycle(matching)]
fn do_hold(clauses: &Bool, mapping: &Mapping, values: &[Value]) -> bool
    ensures { let answers = map (matches mapping.now values.now) in
        result ≡ holds clauses.now.need (answers clauses.now.must) (answers clauses.now.filter)
        (answers clauses.now.must_not) (answers clauses.now.should) }
{
    if !all_match(clauses.must.as_slice(), mapping, values) {
        return false;
    }
    if !all_match(clauses.filter.as_slice(), mapping, values) {
        return false;
    }
    if any_matches(clauses.must_not.as_slice(), mapping, values) {
        return false;
    }
    needed(clauses) <= count_matching(clauses.should.as_slice(), mapping, values)
}

// How many of its `should` have to match.
pub fn needed(clauses: &Bool) -> usize
    ensures { result ≡ needed clauses.now.need (length clauses.now.must) (length clauses.now.filter) (length clauses.now.should) }
{
    match clauses.need {
        Need::AtLeast(count) => count as usize,
        Need::Usual => {
            let alone = clauses.must.as_slice().is_empty() && clauses.filter.as_slice().is_empty();
            if alone && !clauses.should.as_slice().is_empty() {
                1
            } else {
                0
            }
        }
    }
}

#[cycle(matching)]
fn all_match(queries: &[Query], mapping: &Mapping, values: &[Value]) -> bool
    ensures { result ≡ list_all (matches mapping.now values.now) queries.now }
{
    for query in queries {
        if !is_match(query, mapping, values) {
            return false;
        }
    }
    true
}

#[cycle(matching)]
fn any_matches(queries: &[Query], mapping: &Mapping, values: &[Value]) -> bool
    ensures { result ≡ list_any (matches mapping.now values.now) queries.now }
{
    for query in queries {
        if is_match(query, mapping, values) {
            return true;
        }
    }
    false
}

#[cycle(matching)]
fn count_matching(queries: &[Query], mapping: &Mapping, values: &[Value]) -> usize
    ensures { result ≡ count_by (matches mapping.now values.now) queries.now }
{
    let mut count = 0;
    for query in queries {
        if is_match(query, mapping, values) {
            count += 1;
        }
    }
    count
}
