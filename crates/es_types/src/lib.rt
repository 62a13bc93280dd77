//! What the service's crates speak of in common: texts, lists, names, times, mappings, documents, rows and operations.
#![tactic(auto)]

mod bounds;
mod copied;
mod doc;
mod fail;
mod fit;
mod home;
mod items;
mod law;
mod limit;
mod limits;
mod mapping;
mod name;
mod row;
mod text;
mod time;
mod values;

pub use bounds::{Bound, Bounds};
pub use copied::Copied;
pub use doc::{Doc, DocValue, Member};
pub use fail::{Fail, NoMemory};
pub use fit::{DocCause, DocFault, fit_doc};
pub use home::shard_of;
pub use items::{Items, copy_all};
pub use law::fit_gives_values;
pub use limit::LimitName;
pub use limits::{
    ALL_SHARDS, BODY_BYTES, CONNECTION_BYTES, CONTEXT_KEEP, HEAD_BYTES, HEADER_LINES, INDEX_SHARDS,
    LAST_MOMENT, LEAST_BATCH, LONGEST_KEEP, MAPPING_FIELDS, MOST_BATCH, MOST_ENTRIES, SHARD_ROWS,
    SORT_KEYS, USUAL_BATCH, USUAL_PITS, USUAL_SIZE, WINDOW,
};
pub use mapping::{Field, FieldKind, Mapping};
pub use name::{DocId, DocIds, FieldName, FieldNames, IndexName, IndexNames, Name, NameRule};
pub use row::{Op, Row, Value};
pub use text::{Bytes, Text};
pub use time::{BadTime, KeepAlive, Moment};
