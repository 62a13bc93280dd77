//! The machine, and its step.
ghost use Rattle.std.specs.Prelude.{◌≡◌, ◌+◌, ◌<◌, ◌^◌, IfOk, OnOk, OnErr};
ghost use Rattle.es_types.specs.declared.limits.TheConstants.{MOST_ENTRIES};
ghost use Rattle.list_machine.specs.Run.{IsBounded};
ghost use Rattle.list_machine.specs.State.{start};
ghost use Rattle.list_machine.specs.Step.{happen, step};
ghost use Rattle.list_machine.specs.Seen.Stores.{IsCounted, most_entries, state_seen};

use crate::first::first_store;
use crate::steps::closing::close;
use crate::steps::creating::create;
use crate::steps::opening::open_pit;
use crate::steps::publishing::publish;
use crate::steps::sealing::seal;
use crate::steps::searching::search;
use crate::steps::writing::write;
use crate::store::Store;
use crate::{Entry, Event, Limits, Reply};
use es_types::{Moment, NoMemory};
use std::alloc::Global;
use std::marker::Model;

/// The machine of one thread over plain lists. A step takes as long as its lists are long; a search puts what it
/// found in order.
#[derive(Drop)]
pub struct Machine {
    alloc: Global,
    entries: u64,
    store: Store,
}

impl Model for Machine {
    ghost use Rattle.list_machine.specs.Seen.Ran.{Ran};

    ghost Value = { Ran };

    ghost use Rattle.list_machine.specs.Seen.Stores.{IsCounted, state_seen};

    ghost view = { λ machine. record { state = state_seen machine.store; entries = machine.entries } };

    ghost invariant = { λ machine. IsCounted machine.entries (state_seen machine.store) };
}

impl Machine {
    /// A machine with the empty index `docs`.
    pub fn make(alloc: Global, limits: Limits) -> Result<Machine, NoMemory>
        ensures { IfOk result (λ machine. machine ≡ record { state = start limits; entries = 0 }) }
    {
        Ok(Machine {
            alloc,
            entries: 0,
            store: first_store(alloc, limits)?,
        })
    }

    /// Takes the step of an entry. After `NoMemory` nothing has changed.
    pub fn step(&mut self, entry: &Entry) -> Result<Reply, NoMemory>
        requires early { self.old.entries < MOST_ENTRIES }
        requires bounded { IsBounded entry.now.event }
        ensures reply { IfOk result (λ reply. reply ≡ (step self.old.state entry.now).1) }
        ensures state { OnOk result (self.new ≡ record { state = (step self.old.state entry.now).0; entries = self.old.entries + 1 }) }
        ensures err { OnErr result (self.new ≡ self.old) }
    {
        let reply = take_step(self.alloc, &mut self.store, entry)?;
        self.entries += 1;
        Ok(reply)
    }
}

/// The step at the later one of the two moments.
fn take_step(alloc: Global, store: &mut Store, entry: &Entry) -> Result<Reply, NoMemory>
    requires counted { IsCounted most_entries (state_seen store.old) }
    requires bounded { IsBounded entry.now.event }
    ensures ok { IfOk result (λ reply. step (state_seen store.old) entry.now ≡ (state_seen store.new, reply)) }
    ensures err { OnErr result (state_seen store.new ≡ state_seen store.old) }
{
    let moment = store.moment.later(entry.moment);
    let reply = reply_to(alloc, store, moment, &entry.event)?;
    store.moment = moment;
    Ok(reply)
}

fn reply_to(
    alloc: Global,
    store: &mut Store,
    moment: Moment,
    event: &Event,
) -> Result<Reply, NoMemory>
    requires counted { IsCounted most_entries (state_seen store.old) }
    requires bounded { IsBounded event.now }
    ensures ok { IfOk result (λ reply. happen (record (state_seen store.old) { moment = moment }) event.now
        ≡ (record (state_seen store.new) { moment = moment }, reply)) }
    ensures err { OnErr result (state_seen store.new ≡ state_seen store.old) }
{
    match event {
        Event::Create {
            index,
            shards,
            mapping,
        } => create(alloc, &mut store.indexes, index, *shards, mapping),
        Event::Write { index, id, change } => write(alloc, &mut store.indexes, index, id, change),
        Event::Seal { index } => seal(alloc, &store.indexes, index),
        Event::Publish { index, shard, upto } => {
            publish(alloc, &mut store.indexes, index, *shard, *upto)
        }
        Event::OpenPit { index, keep } => open_pit(alloc, store, moment, index, keep),
        Event::Search { target, request } => search(alloc, store, moment, target, request),
        Event::Close { which } => Ok(close(&mut store.contexts, moment, which)),
        Event::Quiet => Ok(Reply::Done),
    }
}
