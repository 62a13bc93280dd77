//! Queries.
ghost use Rattle.std.specs.Prelude.{◌≡◌, IfOk};

use es_types::{Copied, Items, NoMemory, Text, Value};
use std::alloc::Global;

/// On which side of an edge's value a value has to lie.
#[derive(Clone, Copy)]
pub enum Side {
    Above,
    AtLeast,
    Below,
    AtMost,
}

/// One edge of a range.
#[derive(Drop)]
pub struct Edge {
    pub side: Side,
    pub value: Value,
}

/// How many of the `should` of a bool query have to match. Usually it is one where they stand alone, and none next to a `must`
/// or a `filter`.
#[derive(Clone, Copy)]
pub enum Need {
    Usual,
    AtLeast(u32),
}

/// A query of queries: all of `must` and of `filter` have to match, none of `must_not`, and as many of `should` as `need`
/// says.
#[derive(Drop)]
#[cycle(query)]
pub struct Bool {
    pub must: Items<Query>,
    pub filter: Items<Query>,
    pub must_not: Items<Query>,
    pub should: Items<Query>,
    pub need: Need,
}

/// Which rows a search wants.
#[derive(Drop)]
#[cycle(query)]
pub enum Query {
    All,
    Nothing,
    /// The rows whose value of the field is this one.
    Term { field: Text, value: Value },
    /// The rows that have a value of the field, and whose value lies on the right side of each edge.
    Range { field: Text, edges: Items<Edge> },
    Bool(Bool),
}

impl Copied for Edge {
    fn copy(&self, alloc: Global) -> Result<Edge, NoMemory> {
        Ok(Edge {
            side: self.side,
            value: self.value.copy(alloc)?,
        })
    }
}

impl Copied for Query {
    fn copy(&self, alloc: Global) -> Result<Query, NoMemory> {
        copy_query(self, alloc)
    }
}

// The copies call one another by name: a `copy` of the trait that leads back to its own impl isn't covered yet.
#[cycle(copying)]
fn copy_query(query: &Query, alloc: Global) -> Result<Query, NoMemory>
    ensures { IfOk result (λ it. it ≡ query.now) }
{
    match query {
        Query::All => Ok(Query::All),
        Query::Nothing => Ok(Query::Nothing),
        Query::Term { field, value } => Ok(Query::Term {
            field: field.copy(alloc)?,
            value: value.copy(alloc)?,
        }),
        Query::Range { field, edges } => Ok(Query::Range {
            field: field.copy(alloc)?,
            edges: edges.copy(alloc)?,
        }),
        Query::Bool(clauses) => Ok(Query::Bool(copy_bool(clauses, alloc)?)),
    }
}

#[cycle(copying)]
fn copy_bool(clauses: &Bool, alloc: Global) -> Result<Bool, NoMemory>
    ensures { IfOk result (λ it. it ≡ clauses.now) }
{
    Ok(Bool {
        must: copy_all(clauses.must.as_slice(), alloc)?,
        filter: copy_all(clauses.filter.as_slice(), alloc)?,
        must_not: copy_all(clauses.must_not.as_slice(), alloc)?,
        should: copy_all(clauses.should.as_slice(), alloc)?,
        need: clauses.need,
    })
}

#[cycle(copying)]
fn copy_all(queries: &[Query], alloc: Global) -> Result<Items<Query>, NoMemory>
    ensures { IfOk result (λ it. it ≡ queries.now) }
{
    let mut all = Vec::with_capacity(alloc, queries.len())?;
    for query in queries {
        all.push(copy_query(query, alloc)?)?;
    }
    Ok(Items::of(all))
}
