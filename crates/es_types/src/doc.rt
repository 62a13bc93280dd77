//! Documents and their values.
use crate::{Bytes, Copied, Items, NoMemory, Text};
use std::alloc::Global;

/// The value of a member of a document, as far as a field can take it.
#[derive(Drop)]
pub enum DocValue {
    Key(Text),
    Long(i64),
    Null,
    /// A value that no field takes: a truth value, another number, a list or an object.
    Other,
}

/// A member of a document at its top level.
#[derive(Drop)]
pub struct Member {
    pub name: Text,
    pub value: DocValue,
}

/// A document as it was sent: its text without white space at the ends, and the members in it.
#[derive(Drop)]
pub struct Doc {
    pub source: Bytes,
    pub members: Items<Member>,
}

impl Copied for DocValue {
    fn copy(&self, alloc: Global) -> Result<DocValue, NoMemory> {
        match self {
            DocValue::Key(text) => Ok(DocValue::Key(text.copy(alloc)?)),
            DocValue::Long(number) => Ok(DocValue::Long(*number)),
            DocValue::Null => Ok(DocValue::Null),
            DocValue::Other => Ok(DocValue::Other),
        }
    }
}

impl Copied for Member {
    fn copy(&self, alloc: Global) -> Result<Member, NoMemory> {
        Ok(Member {
            name: self.name.copy(alloc)?,
            value: self.value.copy(alloc)?,
        })
    }
}

impl Copied for Doc {
    fn copy(&self, alloc: Global) -> Result<Doc, NoMemory> {
        Ok(Doc {
            source: self.source.copy(alloc)?,
            members: self.members.copy(alloc)?,
        })
    }
}
