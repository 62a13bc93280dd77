//! Closings of points in time.
ghost use Rattle.std.specs.Prelude.{◌≡◌, ◌==◌, ◌≤◌, All, length, map};
ghost use Rattle.list_machine.specs.declared.event.Event.TheVariants.{Close};
ghost use Rattle.list_machine.specs.State.{Context, State};
ghost use Rattle.list_machine.specs.Step.{close_one, freed, happen, is_closing, is_named};
ghost use Rattle.list_machine.specs.Seen.Stores.{IsSmall, context_seen, contexts_seen, most_entries};

use crate::context::ContextStore;
use crate::{Reply, Which};
use es_types::Moment;

/// Closes those of these contexts that are live, and counts their shards.
pub fn close(contexts: &mut Vec<ContextStore>, moment: Moment, which: &Which) -> Reply
    requires few { length contexts.old.items ≤ most_entries }
    requires small { All (λ (context : Context). IsSmall context.view) (contexts_seen contexts.old.items) }
    ensures { (state : State) → happen (record state { moment = moment; contexts = contexts_seen contexts.old.items }) (Close which.now)
        ≡ (record state { moment = moment; contexts = contexts_seen contexts.new.items }, result) }
{
    let freed = count_freed(contexts, moment, which);
    mark(contexts, moment, which);
    Reply::Closed { freed }
}

fn count_freed(contexts: &[ContextStore], moment: Moment, which: &Which) -> u64
    requires few { length contexts.now ≤ most_entries }
    requires small { All (λ (context : Context). IsSmall context.view) (contexts_seen contexts.now) }
    ensures { result ≡ freed moment which.now (contexts_seen contexts.now) }
{
    let mut freed = 0;
    for context in contexts {
        if is_closing(context, moment, which) {
            freed += context.shards.len() as u64;
        }
    }
    freed
}

fn mark(contexts: &mut Vec<ContextStore>, moment: Moment, which: &Which)
    ensures { contexts_seen contexts.new.items ≡ map (close_one moment which.now) (contexts_seen contexts.old.items) }
{
    for context in contexts.iter_mut() {
        mark_one(context, moment, which);
    }
}

fn mark_one(context: &mut ContextStore, moment: Moment, which: &Which)
    ensures { context_seen context.new ≡ close_one moment which.now (context_seen context.old) }
{
    if is_closing(context, moment, which) {
        context.closed = true;
    }
}

fn is_closing(context: &ContextStore, moment: Moment, which: &Which) -> bool
    ensures { result ≡ is_closing moment which.now (context_seen context.now) }
{
    context.is_live(moment) && is_named(which, context)
}

fn is_named(which: &Which, context: &ContextStore) -> bool
    ensures { result ≡ is_named which.now (context_seen context.now) }
{
    let Which::Pits(numbers) = which;
    numbers.as_slice().contains(&context.number)
}
