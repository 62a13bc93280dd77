//! All indexes by their names.
ghost use Rattle.std.specs.Prelude.{◌≡◌, ◌+◌, ◌≤◌, ◌++◌, ◌∷◌, [], min, option_copied, option_map, IfOk, OnOk, OnErr, None};
ghost use Rattle.std.specs.Arc.{arc_value};
ghost use Rattle.std.specs.BTreeMap.{get_by_text};
ghost use Rattle.list_machine.specs.declared.event.Event.TheVariants.{Create, Publish, Seal, Write};
ghost use Rattle.list_machine.specs.Changes.{Moves};
ghost use Rattle.list_machine.specs.Run.{IsBounded};
ghost use Rattle.list_machine.specs.State.{docs, empty_shard, index_of, shard_count, view_of};
ghost use Rattle.list_machine.specs.Step.{create, happen};
ghost use Rattle.es_core.specs.Indexes.{AllNumbered, IsOfIndexes, index_seen, indexes_seen};

use crate::index::Index;
use context_book::View;
use es_types::{ALL_SHARDS, Copied, DocId, IndexName, Items, Mapping, NoMemory};
use list_machine::{Change, Event, Reply, docs};
use std::alloc::Global;
use std::collections::BTreeMap;
use std::marker::Model;
use std::sync::Arc;

/// The indexes by their names. Contracts see them as the machine's.
#[derive(Drop)]
pub struct Catalog {
    alloc: Global,
    places: BTreeMap<String, usize>,
    indexes: Vec<Index>,
}

impl Model for Catalog {
    ghost use Rattle.std.specs.Prelude.{List};
    ghost use Rattle.list_machine.specs.State.{Index as Seen};
    ghost use Rattle.es_core.specs.Indexes.{Placed, indexes_seen};

    ghost Value = { List Seen };

    ghost view = { λ c. indexes_seen c.indexes.items };

    ghost invariant = { λ c. Placed c.places c.indexes.items };
}

impl Catalog {
    /// The index `docs`, with nothing in it.
    pub fn make(alloc: Global) -> Result<Catalog, NoMemory>
        ensures { IfOk result (λ catalog. catalog ≡ record { name = docs; mapping = []; shards = empty_shard ∷ [] } ∷ []) }
    {
        let mut catalog = Catalog {
            alloc,
            places: BTreeMap::new(alloc),
            indexes: Vec::new(alloc),
        };
        let index = Index::make(alloc, docs(alloc)?, Mapping::empty(alloc), 1)?;
        catalog.put_down(index)?;
        Ok(catalog)
    }

    /// Takes the step of an event of the indexes alone. After `NoMemory` the machine's indexes are as they were.
    pub fn step(&mut self, event: &Event) -> Result<Reply, NoMemory>
        requires alone { IsOfIndexes event.now }
        requires bounded { IsBounded event.now }
        ensures ok { IfOk result (λ reply. AllNumbered self.old → Moves (λ state. happen state event.now) self.old self.new reply) }
        ensures err { OnErr result (self.new ≡ self.old) }
    {
        match event {
            Event::Create {
                index,
                shards,
                mapping,
            } => self.create(index, *shards, mapping),
            Event::Write { index, id, change } => self.write(index, id, change),
            Event::Seal { index } => self.seal(index),
            Event::Publish { index, shard, upto } => self.publish(index, *shard, *upto),
            _ => unreachable!("the other events are not of indexes alone"),
        }
    }

    /// Makes an index with so many empty shards, unless one of that name is there, or there would be too many shards.
    fn create(
        &mut self,
        name: &IndexName,
        shards: u32,
        mapping: &Mapping,
    ) -> Result<Reply, NoMemory>
        requires { 1 ≤ shards }
        ensures ok { IfOk result (Moves (λ state. happen state (Create name.now shards mapping.now)) self.old self.new) }
        ensures err { OnErr result (self.new ≡ self.old) }
    {
        match place_of(&self.places, name) {
            Some(_) => Ok(Reply::Exists),
            None => self.add_index(name, shards, mapping),
        }
    }

    fn add_index(
        &mut self,
        name: &IndexName,
        shards: u32,
        mapping: &Mapping,
    ) -> Result<Reply, NoMemory>
        requires some { 1 ≤ shards }
        requires free { index_of name.now self.old ≡ None }
        ensures ok { IfOk result (Moves (λ state. create state name.now shards mapping.now None) self.old self.new) }
        ensures err { OnErr result (self.new ≡ self.old) }
    {
        if count_shards(&self.indexes).saturating_add(shards as usize) > ALL_SHARDS as usize {
            return Ok(Reply::TooMany {
                limit: u64::from(ALL_SHARDS),
            });
        }
        let name = name.copy(self.alloc)?;
        let index = Index::make(self.alloc, name, mapping.copy(self.alloc)?, shards)?;
        self.put_down(index)?;
        Ok(Reply::Done)
    }

    /// Puts an index after the others. After `NoMemory` there are the others alone, as they were.
    fn put_down(&mut self, index: Index) -> Result<(), NoMemory>
        requires { index_of index.name self.old ≡ None }
        ensures ok { OnOk result (self.new ≡ self.old ++ index_seen index ∷ []) }
        ensures err { OnErr result (self.new ≡ self.old) }
    {
        self.indexes.reserve(1)?;
        let name = String::from_str(self.alloc, index.name.text().as_str())?;
        self.places.insert(name, self.indexes.len())?;
        self.indexes.push_reserved(index);
        Ok(())
    }

    /// Adds the operation of a write to the shard of the document.
    fn write(&mut self, name: &IndexName, id: &DocId, change: &Change) -> Result<Reply, NoMemory>
        ensures ok { IfOk result (λ reply. AllNumbered self.old → Moves (λ state. happen state (Write name.now id.now change.now)) self.old self.new reply) }
        ensures err { OnErr result (self.new ≡ self.old) }
    {
        let Some(at) = place_of(&self.places, name) else {
            return Ok(Reply::NoIndex);
        };
        self.indexes[at].write(self.alloc, id, change)
    }

    /// The number of the last operation of each shard.
    fn seal(&self, name: &IndexName) -> Result<Reply, NoMemory>
        ensures { IfOk result (λ reply. AllNumbered self.now → Moves (λ state. happen state (Seal name.now)) self.now self.now reply) }
    {
        let Some(at) = place_of(&self.places, name) else {
            return Ok(Reply::NoIndex);
        };
        let numbers = self.indexes[at].seal(self.alloc)?;
        Ok(Reply::Sealed(Items::of(numbers)))
    }

    /// Applies the operations of a shard up to a number. Where the shard isn't there, or no operation has the number yet, the machine's
    /// indexes stay as they are.
    fn publish(&mut self, name: &IndexName, shard: u32, upto: u64) -> Result<Reply, NoMemory>
        ensures ok { IfOk result (Moves (λ state. happen state (Publish name.now shard upto)) self.old self.new) }
        ensures err { OnErr result (self.new ≡ self.old) }
    {
        let Some(at) = place_of(&self.places, name) else {
            return Ok(Reply::Done);
        };
        self.indexes[at].publish(self.alloc, shard, upto)?;
        Ok(Reply::Done)
    }

    /// The mapping of an index, where it is there.
    pub fn mapping(&self, name: &IndexName) -> Option<&Mapping>
        ensures { option_copied result ≡ option_map (λ index. index.mapping) (index_of name.now self.now) }
    {
        let Some(at) = place_of(&self.places, name) else {
            return None;
        };
        Some(&self.indexes[at].mapping)
    }

    /// What readers see of an index as it is now, where it is there.
    pub fn view(&mut self, name: &IndexName) -> Result<Option<Arc<View>>, NoMemory>
        ensures view { IfOk result (λ view. option_map arc_value view ≡ option_map view_of (index_of name.now self.old)) }
        ensures same { self.new ≡ self.old }
    {
        let Some(at) = place_of(&self.places, name) else {
            return Ok(None);
        };
        let view = self.indexes[at].view(self.alloc)?;
        Ok(Some(view))
    }
}

/// The place of the index of that name.
fn place_of(places: &BTreeMap<String, usize>, name: &IndexName) -> Option<usize>
    ensures { result ≡ get_by_text places.now name.now }
{
    places.get(name.text().as_str()).copied()
}

/// How many shards all indexes have, where that fits.
fn count_shards(indexes: &[Index]) -> usize
    ensures { result ≡ min (shard_count (indexes_seen indexes.now)) 18446744073709551615 }
{
    let mut count: usize = 0;
    for index in indexes {
        count = count.saturating_add(index.shards.len());
    }
    count
}
