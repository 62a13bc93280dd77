//! What is there from the start.
ghost use Rattle.std.specs.Prelude.{◌≡◌, IfOk};
ghost use Rattle.list_machine.specs.State.{docs, start};
ghost use Rattle.list_machine.specs.Seen.Stores.{state_seen};

use crate::Limits;
use crate::steps::creating::make_index;
use crate::store::Store;
use es_types::{IndexName, Mapping, Moment, NoMemory, Text};
use std::alloc::Global;

/// The name of the index that is there from the start.
pub fn docs(alloc: Global) -> Result<IndexName, NoMemory>
    ensures { IfOk result (λ name. name ≡ docs) }
{
    let text = Text::of(String::from_str(alloc, "docs")?);
    match IndexName::make(text) {
        Ok(name) => Ok(name),
        Err(_) => unreachable!("the text is the name of an index"),
    }
}

/// The state at the start: that index, with nothing in it.
pub fn first_store(alloc: Global, limits: Limits) -> Result<Store, NoMemory>
    ensures { IfOk result (λ store. state_seen store ≡ start limits) }
{
    let mut indexes = Vec::new(alloc);
    indexes.push(make_index(alloc, &docs(alloc)?, 1, &Mapping::empty(alloc))?)?;
    Ok(Store {
        limits,
        moment: Moment::zero(),
        next: 1,
        indexes,
        contexts: Vec::new(alloc),
    })
}
