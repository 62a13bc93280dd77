//! Limits that a request breaks, and which of them is told.
ghost use Rattle.std.specs.Prelude.{◌≡◌};
ghost use Rattle.es_route.specs.Limits.{body_fault, both, doc_id, first_of, first_with, index_name, named, rank, told};

use doc_json::BodyFault;
use es_types::{DocId, IndexName, LimitName, Text};
use reply_json::RestFault;

// The limit of the least rank is told of all that a request breaks.
fn rank(name: LimitName) -> u8
    ensures { result ≡ rank name }
{
    match name {
        LimitName::Moment => 0,
        LimitName::Index => 1,
        LimitName::Id => 2,
        LimitName::Shards => 3,
        LimitName::Fields => 4,
        LimitName::KeepAlive => 5,
        LimitName::Batch => 6,
        LimitName::Pit => 7,
        LimitName::From => 8,
        LimitName::Window => 9,
        LimitName::Slice => 10,
        LimitName::Sort => 11,
    }
}

// The one of two limits that is told.
fn first_of(one: LimitName, other: LimitName) -> LimitName
    ensures { result ≡ first_of one other }
{
    if rank(one) <= rank(other) { one } else { other }
}

/// Two parts of what is asked for, or the limit that is told of those that they break.
pub fn both<A: Drop, B: Drop>(
    one: Result<A, LimitName>,
    other: Result<B, LimitName>,
) -> Result<(A, B), LimitName>
    ensures { result ≡ both one other }
{
    match (one, other) {
        (Ok(one), Ok(other)) => Ok((one, other)),
        (Ok(_), Err(name)) => Err(name),
        (Err(name), Ok(_)) => Err(name),
        (Err(one), Err(other)) => Err(first_of(one, other)),
    }
}

/// The limit that is told where this one is broken, and perhaps one of a part that was read with it.
pub fn first_with<A: Drop>(part: Result<A, LimitName>, name: LimitName) -> LimitName
    ensures { result ≡ first_with part name }
{
    match part {
        Ok(_) => name,
        Err(other) => first_of(other, name),
    }
}

/// A limit as a refusal.
pub fn told<A>(asked: Result<A, LimitName>) -> Result<A, RestFault>
    ensures { result ≡ told asked }
{
    match asked {
        Ok(asked) => Ok(asked),
        Err(name) => Err(RestFault::Limit(name)),
    }
}

/// A body's fault as a refusal.
pub fn body_fault(fault: BodyFault) -> RestFault
    ensures { result ≡ body_fault fault }
{
    match fault {
        BodyFault::NotJson | BodyFault::Shape => RestFault::BadBody,
        BodyFault::Limit(name) => RestFault::Limit(name),
        BodyFault::BadId => RestFault::BadId,
    }
}

/// The name of an index, or that it breaks its rule.
pub fn index_name(index: Text) -> Result<IndexName, LimitName>
    ensures { result ≡ index_name index }
{
    match IndexName::make(index) {
        Ok(index) => Ok(index),
        Err(_) => Err(LimitName::Index),
    }
}

fn doc_id(id: Text) -> Result<DocId, LimitName>
    ensures { result ≡ doc_id id }
{
    match DocId::make(id) {
        Ok(id) => Ok(id),
        Err(_) => Err(LimitName::Id),
    }
}

/// The name of an index and the id of a document, or the limit that is told of those that they break.
pub fn named(index: Text, id: Text) -> Result<(IndexName, DocId), RestFault>
    ensures { result ≡ named index id }
{
    told(both(index_name(index), doc_id(id)))
}
