//! Between which values the rows of a list lie.
use crate::{Copied, Items, NoMemory, Text};
use std::alloc::Global;

/// The least and the greatest value that rows have of one field: keywords by their bytes.
#[derive(Drop)]
pub enum Bound {
    /// No row has a value.
    Nothing,
    Keys { least: Text, greatest: Text },
    Longs { least: i64, greatest: i64 },
}

/// How many rows there are, and between which values those of each mapped field lie, in the order of the fields.
#[derive(Drop)]
pub struct Bounds {
    pub rows: u64,
    pub fields: Items<Bound>,
}

impl Copied for Bound {
    fn copy(&self, alloc: Global) -> Result<Bound, NoMemory> {
        match self {
            Bound::Nothing => Ok(Bound::Nothing),
            Bound::Keys { least, greatest } => Ok(Bound::Keys {
                least: least.copy(alloc)?,
                greatest: greatest.copy(alloc)?,
            }),
            Bound::Longs { least, greatest } => Ok(Bound::Longs {
                least: *least,
                greatest: *greatest,
            }),
        }
    }
}

impl Copied for Bounds {
    fn copy(&self, alloc: Global) -> Result<Bounds, NoMemory> {
        Ok(Bounds {
            rows: self.rows,
            fields: self.fields.copy(alloc)?,
        })
    }
}
