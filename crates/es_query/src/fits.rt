//! Whether a query fits a mapping.
ghost use Rattle.std.specs.Prelude.{◌≡◌, ◌&&◌, MatchResult, IsTrue, IsFalse};
ghost use Rattle.std.specs.List.{list_all};
ghost use Rattle.es_query.specs.Fits.{fits, suits};

use crate::{Bool, Edge, Query};
use es_types::{FieldKind, Mapping, Value};

/// A query that has a value of another kind than its field.
#[derive(Drop)]
pub struct BadQuery;

impl Query {
    /// Whether each value of the query is of its field's kind.
    pub fn fit(&self, mapping: &Mapping) -> Result<(), BadQuery>
        ensures { MatchResult result (λ _. IsTrue (fits mapping.now self.now)) (λ _. IsFalse (fits mapping.now self.now)) }
    {
        if fits(self, mapping) {
            Ok(())
        } else {
            Err(BadQuery)
        }
    }
}

#[cycle(fitting)]
fn fits(query: &Query, mapping: &Mapping) -> bool
    ensures { result ≡ fits mapping.now query.now }
{
    match query {
        Query::All => true,
        Query::Nothing => true,
        Query::Term { field, value } => suits(mapping.kind_of(field.as_str()), value),
        Query::Range { field, edges } => {
            are_of(mapping.kind_of(field.as_str()), edges.as_slice())
        }
        Query::Bool(clauses) => do_fit(clauses, mapping),
    }
}

// Whether a value is of that kind. A field that isn't mapped takes each.
fn suits(kind: Option<FieldKind>, value: &Value) -> bool
    ensures { result ≡ suits kind value.now }
{
    match kind {
        None => true,
        Some(kind) => value.is_of(kind),
    }
}

// Whether the value of each edge is of that kind.
fn are_of(kind: Option<FieldKind>, edges: &[Edge]) -> bool
    ensures { result ≡ list_all (λ edge. suits kind edge.value) edges.now }
{
    edges.iter().all(|edge| suits(kind, &edge.value))
}

// Whether each query in the clauses of a bool query fits.
#[cycle(fitting)]
fn do_fit(clauses: &Bool, mapping: &Mapping) -> bool
    ensures { let all = list_all (fits mapping.now) in
        result ≡ (all clauses.now.must && (all clauses.now.filter && (all clauses.now.must_not && all clauses.now.should))) }
{
    if !all_fit(clauses.must.as_slice(), mapping) {
        return false;
    }
    if !all_fit(clauses.filter.as_slice(), mapping) {
        return false;
    }
    all_fit(clauses.must_not.as_slice(), mapping) && all_fit(clauses.should.as_slice(), mapping)
}

#[cycle(fitting)]
fn all_fit(queries: &[Query], mapping: &Mapping) -> bool
    ensures { result ≡ list_all (fits mapping.now) queries.now }
{
    for query in queries {
        if !fits(query, mapping) {
            return false;
        }
    }
    true
}
