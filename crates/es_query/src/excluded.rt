//! Whether bounds exclude a query.
ghost use Rattle.std.specs.Prelude.{◌≡◌, map, length, count_by, not, MatchOption};
ghost use Rattle.std.specs.List.{list_any};
ghost use Rattle.es_query.specs.Excluded.{bool_excluded, bound_in, excluded, furthest, is_beyond, range_excluded, ruled_out, term_excluded};

use crate::matches::needed;
use crate::values::on_side;
use crate::{Bool, Edge, Query, Side};
use es_types::{Bound, Bounds, Mapping, Text, Value};

impl Query {
    /// Whether no row within these bounds can match, so that a shard that has only such rows need not be searched. `false` says
    /// only that one may match.
    pub fn excluded(&self, mapping: &Mapping, bounds: &Bounds) -> bool
        ensures { result ≡ excluded mapping.now bounds.now self.now }
    {
        bounds.rows == 0 || is_ruled_out(self, mapping, bounds.fields.as_slice())
    }
}

#[cycle(excluding)]
fn is_ruled_out(query: &Query, mapping: &Mapping, bounds: &[Bound]) -> bool
    ensures { result ≡ ruled_out mapping.now bounds.now query.now }
{
    match query {
        Query::All => false,
        Query::Nothing => true,
        Query::Term { field, value } => match bound_in(mapping, bounds, field.as_str()) {
            Some(bound) => excludes_term(value, bound),
            None => true,
        },
        Query::Range { field, edges } => match bound_in(mapping, bounds, field.as_str()) {
            Some(bound) => excludes_range(edges.as_slice(), bound),
            None => true,
        },
        Query::Bool(clauses) => is_bool_excluded(clauses, mapping, bounds),
    }
}

// The bound of the field of that name.
fn bound_in<'a>(mapping: &Mapping, bounds: &'a [Bound], name: &str) -> Option<&'a Bound>
    ensures { MatchOption result (bound_in mapping.now bounds.now name.now ≡ Bound.Nothing)
        (λ bound. bound_in mapping.now bounds.now name.now ≡ bound.now) }
{
    let place = mapping.place_of(name)?;
    bounds.get(place)
}

fn excludes_term(value: &Value, bound: &Bound) -> bool
    ensures { result ≡ term_excluded value.now bound.now }
{
    match (bound, value) {
        (Bound::Nothing, _) => true,
        (Bound::Keys { least, greatest }, Value::Key(text)) => {
            text.as_str().cmp(least.as_str()).is_lt()
                || text.as_str().cmp(greatest.as_str()).is_gt()
        }
        (Bound::Longs { least, greatest }, Value::Long(number)) => {
            number.cmp(least).is_lt() || number.cmp(greatest).is_gt()
        }
        _ => false,
    }
}

fn excludes_range(edges: &[Edge], bound: &Bound) -> bool
    ensures { result ≡ range_excluded edges.now bound.now }
{
    match bound {
        Bound::Nothing => true,
        Bound::Keys { least, greatest } => any_beyond_keys(edges, least, greatest),
        Bound::Longs { least, greatest } => any_beyond_longs(edges, least, greatest),
    }
}

fn any_beyond_keys(edges: &[Edge], least: &Text, greatest: &Text) -> bool
    ensures { result ≡ list_any (is_beyond (Value.Key least.now) (Value.Key greatest.now)) edges.now }
{
    edges
        .iter()
        .any(|edge| is_beyond_keys(least, greatest, edge))
}

fn any_beyond_longs(edges: &[Edge], least: &i64, greatest: &i64) -> bool
    ensures { result ≡ list_any (is_beyond (Value.Long least.now) (Value.Long greatest.now)) edges.now }
{
    edges
        .iter()
        .any(|edge| is_beyond_longs(least, greatest, edge))
}

// Whether no text from `least` to `greatest` meets an edge.
fn is_beyond_keys(least: &Text, greatest: &Text, edge: &Edge) -> bool
    ensures { result ≡ is_beyond (Value.Key least.now) (Value.Key greatest.now) edge.now }
{
    match &edge.value {
        Value::Key(text) => {
            let last = furthest(edge.side, least, greatest);
            !on_side(edge.side, last.as_str().cmp(text.as_str()))
        }
        _ => true,
    }
}

fn is_beyond_longs(least: &i64, greatest: &i64, edge: &Edge) -> bool
    ensures { result ≡ is_beyond (Value.Long least.now) (Value.Long greatest.now) edge.now }
{
    match &edge.value {
        Value::Long(number) => {
            let last = furthest(edge.side, least, greatest);
            !on_side(edge.side, last.cmp(number))
        }
        _ => true,
    }
}

// The one that lies furthest to that side.
fn furthest<'a, T>(side: Side, least: &'a T, greatest: &'a T) -> &'a T
    ensures { result.now ≡ furthest side least.now greatest.now }
{
    match side {
        Side::Above => greatest,
        Side::AtLeast => greatest,
        Side::Below => least,
        Side::AtMost => least,
    }
}

#[cycle(excluding)]
fn is_bool_excluded(clauses: &Bool, mapping: &Mapping, bounds: &[Bound]) -> bool
    ensures { let answers = map (ruled_out mapping.now bounds.now) in
        result ≡ bool_excluded clauses.now.need (answers clauses.now.must) (answers clauses.now.filter) (answers clauses.now.should) }
{
    if any_ruled_out(clauses.must.as_slice(), mapping, bounds) {
        return true;
    }
    if any_ruled_out(clauses.filter.as_slice(), mapping, bounds) {
        return true;
    }
    count_left(clauses.should.as_slice(), mapping, bounds) < needed(clauses)
}

#[cycle(excluding)]
fn any_ruled_out(queries: &[Query], mapping: &Mapping, bounds: &[Bound]) -> bool
    ensures { result ≡ list_any (ruled_out mapping.now bounds.now) queries.now }
{
    for query in queries {
        if is_ruled_out(query, mapping, bounds) {
            return true;
        }
    }
    false
}

// How many of the queries are not ruled out.
#[cycle(excluding)]
fn count_left(queries: &[Query], mapping: &Mapping, bounds: &[Bound]) -> usize
    ensures { result ≡ count_by (λ query. not (ruled_out mapping.now bounds.now query)) queries.now }
{
    let mut count = 0;
    for query in queries {
        if !is_ruled_out(query, mapping, bounds) {
            count += 1;
        }
    }
    count
}
