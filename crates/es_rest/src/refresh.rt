//! Refreshes of indexes.
ghost use Rattle.std.specs.Prelude.{◌≡◌, ◌≤◌, ℕ, List, None, MatchResult, length};
ghost use Rattle.es_types.specs.declared.limits.TheConstants.{ALL_SHARDS};
ghost use Rattle.list_machine.specs.declared.event.Reply.TheVariants as replies;
ghost use Rattle.es_rest.specs.Led.{AreSealed, Published, RefreshWent};
ghost use Rattle.es_rest.specs.Scripts.{CutShort, Part, RanScript, Script, Strayed, after_seal, publishes, refresh, refreshes};

use crate::refusal::{Named, is_refused, refusal};
use es_types::{Copied, IndexName, Items, Moment, NoMemory};
use list_machine::{Event, Reply, Service, sound_states};
use reply_json::RestFault;
use std::alloc::Global;

/// How the refresh of an index went: the numbers that were sealed, or the reply that ended it.
#[derive(Drop)]
pub enum Refreshed {
    All(Items<u64>),
    Ended(Reply),
}

// The numbers that a Seal answered, or the reply back.
fn sealed_numbers(reply: Reply) -> Result<Items<u64>, Reply>
    ensures { MatchResult result
        (λ numbers. reply ≡ replies.Sealed numbers)
        (λ back. (back ≡ reply) × ((index : List ℕ) (then : Script) (part : Part) → after_seal index reply then part ≡ None)) }
{
    match reply {
        Reply::Sealed(numbers) => Ok(numbers),
        other => Err(other),
    }
}

// Publishes the shards of an index from the first on, up to the numbers that were sealed for them. The answer is the
// reply that refused one, if one was refused.
fn publish_all<V: Service>(
    alloc: Global,
    service: &mut V,
    index: &IndexName,
    numbers: &[u64],
    moment: Moment,
) -> Result<Option<Reply>, NoMemory>
    requires few { length numbers.now ≤ ALL_SHARDS }
    requires were_sealed { AreSealed (V.limits service.old) (V.front service.old) index.now numbers.now }
    ensures talk { MatchResult result
        (Published (V.limits service.old) (V.seat service.old) moment index.now numbers.now (V.front service.old) (V.front service.new))
        (λ _. Strayed (V.limits service.old) (V.seat service.old) moment (publishes index.now 0 numbers.now) (V.front service.old) (V.front service.new)) }
    ensures seat { V.seat service.new ≡ V.seat service.old }
    ensures limits { V.limits service.new ≡ V.limits service.old }
{
    let mut shard = 0;
    for upto in numbers {
        let event = Event::Publish {
            index: index.copy(alloc)?,
            shard,
            upto: *upto,
        };
        let said = service.ask(event, moment)?;
        if is_refused(&said) {
            return Ok(Some(said));
        }
        shard += 1;
    }
    Ok(None)
}

/// Seals an index, and publishes what was sealed.
pub fn refresh_index<V: Service>(
    alloc: Global,
    service: &mut V,
    index: &IndexName,
    moment: Moment,
) -> Result<Refreshed, NoMemory>
    ensures talk { MatchResult result
        (RefreshWent (V.limits service.old) (V.seat service.old) moment index.now (V.front service.old) (V.front service.new))
        (λ _. Strayed (V.limits service.old) (V.seat service.old) moment (refresh index.now) (V.front service.old) (V.front service.new)) }
    ensures seat { V.seat service.new ≡ V.seat service.old }
    ensures limits { V.limits service.new ≡ V.limits service.old }
{
    sound_states();
    let sealed = index.copy(alloc)?;
    let reply = service.ask(Event::Seal { index: sealed }, moment)?;
    match sealed_numbers(reply) {
        Ok(numbers) => match publish_all(alloc, service, index, numbers.as_slice(), moment)? {
            None => Ok(Refreshed::All(numbers)),
            Some(said) => Ok(Refreshed::Ended(said)),
        },
        Err(said) => Ok(Refreshed::Ended(said)),
    }
}

/// Refreshes indexes one after the other, until one is refused, and says why.
pub fn refresh_all<V: Service>(
    alloc: Global,
    service: &mut V,
    indexes: &[IndexName],
    moment: Moment,
) -> Result<Option<RestFault>, NoMemory>
    ensures talk { MatchResult result
        (RanScript (V.limits service.old) (V.seat service.old) moment (refreshes indexes.now) (V.front service.old) (V.front service.new))
        (λ _. CutShort (V.limits service.old) (V.seat service.old) moment (refreshes indexes.now) (V.front service.old) (V.front service.new)) }
    ensures seat { V.seat service.new ≡ V.seat service.old }
    ensures limits { V.limits service.new ≡ V.limits service.old }
{
    for index in indexes {
        let names = Named::Index(index.text().copy(alloc)?);
        match refresh_index(alloc, service, index, moment)? {
            Refreshed::All(_) => {}
            Refreshed::Ended(said) => return Ok(refusal(names, &said)),
        }
    }
    Ok(None)
}
