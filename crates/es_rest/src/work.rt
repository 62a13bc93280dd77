//! What each request comes to: one event, a bulk, or a refresh.
ghost use Rattle.std.specs.Prelude.{◌≡◌, [], ◌∷◌, IfOk};
ghost use Rattle.list_machine.specs.declared.event.Which.TheVariants as which;
ghost use Rattle.es_route.specs.Route.{AsksSound};
ghost use Rattle.es_rest.specs.Led.{IsWork};

use crate::label::{Label, index_label, put_label, remove_label, search_label};
use crate::refusal::Named;
use doc_json::{BulkAction, IndexSpec};
use es_route::Ask;
use es_types::{Bytes, Copied, IndexName, Items, NoMemory, Text};
use list_machine::{Change, Event, Which};
use reply_json::RouteName;
use std::alloc::Global;

/// What a request comes to. A bulk asks a Write for each of its items, and a refresh a Seal and then a Publish of each shard.
#[derive(Drop)]
pub enum Work {
    /// One event, and by what its reply is answered.
    One {
        event: Event,
        label: Label,
    },
    Bulk {
        index: Option<Text>,
        body: Bytes,
        refresh: bool,
        items: Items<BulkAction>,
    },
    Refresh {
        index: IndexName,
    },
}

// The closing of one point in time.
fn close_of(alloc: Global, number: u64) -> Result<Which, NoMemory>
    ensures { IfOk result (λ it. it ≡ which.Pits (number ∷ [])) }
{
    let mut numbers = Vec::new(alloc);
    numbers.push(number)?;
    Ok(Which::Pits(Items::of(numbers)))
}

/// What a request comes to.
pub fn work_of(alloc: Global, ask: Ask) -> Result<Work, NoMemory>
    requires { AsksSound ask }
    ensures { IfOk result (λ work. IsWork ask work) }
{
    match ask {
        Ask::Create { index, spec } => {
            let route = RouteName::Create {
                index: index.copy(alloc)?,
            };
            let label = index_label(alloc, &index, route)?;
            let IndexSpec { shards, mapping } = spec;
            let event = Event::Create {
                index,
                shards,
                mapping,
            };
            Ok(Work::One { event, label })
        }
        Ask::Put {
            index,
            id,
            doc,
            refresh,
        } => {
            let label = put_label(alloc, &index, &id, refresh)?;
            let change = Change::Put(doc);
            let event = Event::Write { index, id, change };
            Ok(Work::One { event, label })
        }
        Ask::Remove { index, id, refresh } => {
            let label = remove_label(alloc, &index, &id, refresh)?;
            let change = Change::Remove;
            let event = Event::Write { index, id, change };
            Ok(Work::One { event, label })
        }
        Ask::Bulk {
            index,
            body,
            refresh,
            items,
        } => Ok(Work::Bulk {
            index,
            body,
            refresh,
            items,
        }),
        Ask::Refresh { index } => Ok(Work::Refresh { index }),
        Ask::OpenPit { index, keep } => {
            let label = index_label(alloc, &index, RouteName::OpenPit)?;
            let event = Event::OpenPit { index, keep };
            Ok(Work::One { event, label })
        }
        Ask::ClosePit { number } => {
            let label = Label {
                names: Named::Context(Text::of(String::new(alloc))),
                route: RouteName::ClosePit,
                refreshed: Vec::new(alloc),
            };
            let which = close_of(alloc, number)?;
            let event = Event::Close { which };
            Ok(Work::One { event, label })
        }
        Ask::Search {
            target,
            request,
            sent,
        } => {
            let label = search_label(alloc, &target, sent)?;
            let event = Event::Search { target, request };
            Ok(Work::One { event, label })
        }
    }
}
