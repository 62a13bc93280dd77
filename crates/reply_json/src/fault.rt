//! Why a request is refused.
ghost use Rattle.std.specs.Prelude.{◌≡◌};
ghost use Rattle.reply_json.specs.declared.fault.RestFault.TheVariants.{NoMemory};

use es_types::{DocFault, LimitName, Text};
use std::alloc::AllocError;

/// Why a request is refused. Each has a status of RFC 9110, and a type that is named as Elasticsearch names exceptions.
#[derive(Drop)]
pub enum RestFault {
    /// A form that isn't built yet.
    NotBuilt,
    /// The parameter of that name has a value that it cannot have, is missing, or is none of its route.
    BadParam(Text),
    /// A body that is not one of its route, as a document that is no JSON object.
    BadBody,
    /// A limit that the request breaks.
    Limit(LimitName),
    /// A text that is the id of no context.
    BadId,
    /// The history has as many entries as it may have.
    Spent,
    /// There is no index of that name.
    NoIndex(Text),
    /// An index of that name is there.
    Exists(Text),
    /// The document has a value that is not one of its field.
    BadDoc(DocFault),
    /// The query has a value of another kind than its field's.
    BadQuery,
    /// The sort has a field that isn't mapped.
    BadSort,
    /// The values to go on after are not those of the sort.
    BadAfter,
    /// No context of that id is live.
    NoContext(Text),
    /// As many contexts as may be are live; the number is how many.
    TooMany(u64),
    /// The shard has as many documents and operations as it may have.
    ShardFull,
    /// Memory ran out.
    NoMemory,
}

impl From<AllocError> for RestFault {
    ghost from_gives = { λ _ fault. fault ≡ NoMemory };

    fn from(_: AllocError) -> RestFault {
        RestFault::NoMemory
    }
}
