//! Sorts and their keys.
use es_types::{Copied, Items, NoMemory, Text, Value};
use std::alloc::Global;

/// What a key of a sort compares: the value of a field, or the place of a row, by the number that `_shard_doc` shows.
#[derive(Drop)]
pub enum SortBy {
    Field(Text),
    Place,
}

/// One key of a sort. It rises, or falls where `down` says so. A row without a value stands last either way, or first where
/// `missing_first` says so.
#[derive(Drop)]
pub struct SortKey {
    pub by: SortBy,
    pub down: bool,
    pub missing_first: bool,
}

/// By which keys rows are ordered, the first one that tells two of them apart. Where no key is the place, the rising place is
/// the last one, and a hit shows it where `show_place` says so, as it does in a search of a point in time.
#[derive(Drop)]
pub struct SortSpec {
    pub keys: Items<SortKey>,
    pub show_place: bool,
}

/// The values that a row has for the keys of a sort, in their order, and its place after them where that is no key. Or values
/// to go on after, as many as a hit shows.
#[derive(Drop)]
pub struct Keys {
    pub values: Items<Value>,
}

impl Copied for SortBy {
    fn copy(&self, alloc: Global) -> Result<SortBy, NoMemory> {
        match self {
            SortBy::Field(name) => Ok(SortBy::Field(name.copy(alloc)?)),
            SortBy::Place => Ok(SortBy::Place),
        }
    }
}

impl Copied for SortKey {
    fn copy(&self, alloc: Global) -> Result<SortKey, NoMemory> {
        Ok(SortKey {
            by: self.by.copy(alloc)?,
            down: self.down,
            missing_first: self.missing_first,
        })
    }
}

impl Copied for SortSpec {
    fn copy(&self, alloc: Global) -> Result<SortSpec, NoMemory> {
        Ok(SortSpec {
            keys: self.keys.copy(alloc)?,
            show_place: self.show_place,
        })
    }
}

impl Copied for Keys {
    fn copy(&self, alloc: Global) -> Result<Keys, NoMemory> {
        Ok(Keys {
            values: self.values.copy(alloc)?,
        })
    }
}
