//! The names that the bodies of searches use.
ghost use Rattle.std.specs.Prelude.{◌≡◌};
ghost use Rattle.search_json.specs.Queries.{clause_of, kind_of};
ghost use Rattle.search_json.specs.Values.{side_of};

use es_query::Side;

/// The kinds of queries.
#[derive(Clone, Copy)]
pub(crate) enum Kind {
    MatchAll,
    MatchNone,
    Term,
    Range,
    Bool,
}

/// The clause of a bool query that queries stand in.
#[derive(Clone, Copy)]
pub(crate) enum Occur {
    Must,
    Filter,
    MustNot,
    Should,
}

/// The clauses of a bool query.
#[derive(Clone, Copy)]
pub(crate) enum Clause {
    Queries(Occur),
    MinimumShouldMatch,
}

pub(crate) fn kind_of(name: &str) -> Option<Kind>
    ensures { result ≡ kind_of name.now }
{
    if name == "match_all" {
        return Some(Kind::MatchAll);
    }
    if name == "match_none" {
        return Some(Kind::MatchNone);
    }
    if name == "term" {
        return Some(Kind::Term);
    }
    if name == "range" {
        return Some(Kind::Range);
    }
    if name == "bool" {
        return Some(Kind::Bool);
    }
    None
}

pub(crate) fn clause_of(name: &str) -> Option<Clause>
    ensures { result ≡ clause_of name.now }
{
    if name == "must" {
        return Some(Clause::Queries(Occur::Must));
    }
    if name == "filter" {
        return Some(Clause::Queries(Occur::Filter));
    }
    if name == "must_not" {
        return Some(Clause::Queries(Occur::MustNot));
    }
    if name == "should" {
        return Some(Clause::Queries(Occur::Should));
    }
    if name == "minimum_should_match" {
        return Some(Clause::MinimumShouldMatch);
    }
    None
}

pub(crate) fn side_of(name: &str) -> Option<Side>
    ensures { result ≡ side_of name.now }
{
    if name == "gt" {
        return Some(Side::Above);
    }
    if name == "gte" {
        return Some(Side::AtLeast);
    }
    if name == "lt" {
        return Some(Side::Below);
    }
    if name == "lte" {
        return Some(Side::AtMost);
    }
    None
}
