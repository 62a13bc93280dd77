//! Rows, their values, and operations.
use crate::{Bytes, Copied, DocId, Items, NoMemory, Text};
use std::alloc::Global;

/// The value of a mapped field in one document.
#[derive(Drop)]
pub enum Value {
    Key(Text),
    Long(i64),
    Missing,
}

/// A document as its shard keeps it. `seq` is the number of the operation that put it, from 1, and `values`
/// has one value for each mapped field.
#[derive(Drop)]
pub struct Row {
    pub seq: u64,
    pub id: DocId,
    pub source: Bytes,
    pub values: Items<Value>,
}

/// A change to a shard.
#[derive(Drop)]
pub enum Op {
    Put {
        id: DocId,
        source: Bytes,
        values: Items<Value>,
    },
    Remove {
        id: DocId,
    },
}

impl Copied for Value {
    fn copy(&self, alloc: Global) -> Result<Value, NoMemory> {
        match self {
            Value::Key(text) => Ok(Value::Key(text.copy(alloc)?)),
            Value::Long(number) => Ok(Value::Long(*number)),
            Value::Missing => Ok(Value::Missing),
        }
    }
}

impl Copied for Row {
    fn copy(&self, alloc: Global) -> Result<Row, NoMemory> {
        Ok(Row {
            seq: self.seq,
            id: self.id.copy(alloc)?,
            source: self.source.copy(alloc)?,
            values: self.values.copy(alloc)?,
        })
    }
}

impl Copied for Op {
    fn copy(&self, alloc: Global) -> Result<Op, NoMemory> {
        match self {
            Op::Put { id, source, values } => Ok(Op::Put {
                id: id.copy(alloc)?,
                source: source.copy(alloc)?,
                values: values.copy(alloc)?,
            }),
            Op::Remove { id } => Ok(Op::Remove {
                id: id.copy(alloc)?,
            }),
        }
    }
}
