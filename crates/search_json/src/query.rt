//! The query of a search.
ghost use Rattle.std.specs.Prelude.{◌≡◌, IfOk, option_map};
ghost use Rattle.serde_json.specs.View.{items_view, members_view, view};
ghost use Rattle.search_json.specs.Queries.{bool_of, clause_of, clauses_in, if_empty, no_clauses, placed, queries_in, queries_of, query_by, query_of, with_clause, with_need};
ghost use Rattle.search_json.specs.Values.{small_of};

use crate::names::{Clause, Kind, Occur, clause_of, kind_of};
use crate::value::{only_of, range_of, small_of, term_of};
use doc_json::is_form;
use es_query::{Bool, Need, Query};
use es_types::{Items, NoMemory};
use serde_json::{Map, Value};
use std::alloc::Global;

/// The query that a value is. The calls go down with the levels of the value, of which JSON text has at most 127.
#[cycle(queries)]
pub(crate) fn query_of(alloc: Global, value: &Value) -> Result<Option<Query>, NoMemory>
    ensures { IfOk result (λ query. query ≡ query_of (view value.now)) }
{
    let Some((name, value)) = only_of(value) else {
        return Ok(None);
    };
    match kind_of(name) {
        None => Ok(None),
        Some(Kind::MatchAll) => Ok(if_empty(value, Query::All)),
        Some(Kind::MatchNone) => Ok(if_empty(value, Query::Nothing)),
        Some(Kind::Term) => term_of(alloc, value),
        Some(Kind::Range) => range_of(alloc, value),
        Some(Kind::Bool) => Ok(bool_of(alloc, value)?.map(Query::Bool)),
    }
}

fn if_empty(value: &Value, query: Query) -> Option<Query>
    ensures { result ≡ if_empty (view value.now) query }
{
    if is_form(value, &[]) {
        Some(query)
    } else {
        None
    }
}

#[cycle(queries)]
fn bool_of(alloc: Global, value: &Value) -> Result<Option<Bool>, NoMemory>
    ensures { IfOk result (λ clauses. clauses ≡ bool_of (view value.now)) }
{
    match value.as_object() {
        Some(members) => clauses_in(alloc, members),
        None => Ok(None),
    }
}

#[cycle(queries)]
fn clauses_in(alloc: Global, members: &Map<String, Value>) -> Result<Option<Bool>, NoMemory>
    ensures { IfOk result (λ clauses. clauses ≡ clauses_in (members_view members.now.entries) no_clauses) }
{
    let mut found = no_clauses(alloc);
    for (name, value) in members.iter() {
        match with_clause(alloc, found, name, value)? {
            Some(more) => found = more,
            None => return Ok(None),
        }
    }
    Ok(Some(found))
}

#[cycle(queries)]
fn with_clause(
    alloc: Global,
    found: Bool,
    name: &str,
    value: &Value,
) -> Result<Option<Bool>, NoMemory>
    ensures { IfOk result (λ clauses. clauses
        ≡ with_clause (clause_of name.now) (view value.now) (queries_of (view value.now)) found) }
{
    match clause_of(name) {
        None => Ok(None),
        Some(Clause::MinimumShouldMatch) => Ok(with_minimum(found, small_of(value))),
        Some(Clause::Queries(occur)) => match queries_of(alloc, value)? {
            Some(queries) => Ok(Some(placed(occur, found, Items::of(queries)))),
            None => Ok(None),
        },
    }
}

#[cycle(queries)]
fn queries_of(alloc: Global, value: &Value) -> Result<Option<Vec<Query>>, NoMemory>
    ensures { IfOk result (λ queries. option_map (λ all. all.items) queries ≡ queries_of (view value.now)) }
{
    match value.as_array() {
        Some(values) => queries_in(alloc, values),
        None => match query_of(alloc, value)? {
            Some(query) => Ok(Some(Vec::from_array(alloc, [query])?)),
            None => Ok(None),
        },
    }
}

#[cycle(queries)]
fn queries_in(alloc: Global, values: &[Value]) -> Result<Option<Vec<Query>>, NoMemory>
    ensures { IfOk result (λ queries. option_map (λ all. all.items) queries ≡ queries_in (items_view values.now)) }
{
    let mut queries = Vec::with_capacity(alloc, values.len())?;
    for value in values {
        match query_of(alloc, value)? {
            Some(query) => queries.push(query)?,
            None => return Ok(None),
        }
    }
    Ok(Some(queries))
}

// ---- the clauses of a bool query

fn no_clauses(alloc: Global) -> Bool
    ensures { result ≡ no_clauses }
{
    Bool {
        must: Items::of(Vec::new(alloc)),
        filter: Items::of(Vec::new(alloc)),
        must_not: Items::of(Vec::new(alloc)),
        should: Items::of(Vec::new(alloc)),
        need: Need::Usual,
    }
}

fn placed(occur: Occur, found: Bool, queries: Items<Query>) -> Bool
    ensures { result ≡ placed occur found queries }
{
    let mut clauses = found;
    match occur {
        Occur::Must => clauses.must = queries,
        Occur::Filter => clauses.filter = queries,
        Occur::MustNot => clauses.must_not = queries,
        Occur::Should => clauses.should = queries,
    }
    clauses
}

fn with_minimum(found: Bool, least: Option<u32>) -> Option<Bool>
    ensures { result ≡ option_map (with_need found) least }
{
    match least {
        Some(least) => {
            let mut clauses = found;
            clauses.need = Need::AtLeast(least);
            Some(clauses)
        }
        None => None,
    }
}
