//! Contexts that are kept longer.
ghost use Rattle.std.specs.Prelude.{◌≡◌, map};
ghost use Rattle.list_machine.specs.Seen.Stores.{context_seen, contexts_seen, kept_longer, raised};

use crate::context::ContextStore;
use es_types::{KeepAlive, Moment};

/// Keeps the context of that number so long from a moment on, where that is asked; it is never kept less long than before.
pub fn keep_longer(
    contexts: &mut Vec<ContextStore>,
    moment: Moment,
    number: u64,
    keep: &Option<KeepAlive>,
)
    ensures { contexts_seen contexts.new.items ≡ kept_longer moment number keep.now (contexts_seen contexts.old.items) }
{
    if let Some(keep) = keep {
        raise(contexts, number, moment.millis() + keep.millis());
    }
}

fn raise(contexts: &mut Vec<ContextStore>, number: u64, till: u64)
    ensures { contexts_seen contexts.new.items ≡ map (raised number till) (contexts_seen contexts.old.items) }
{
    for context in contexts.iter_mut() {
        raise_one(context, number, till);
    }
}

fn raise_one(context: &mut ContextStore, number: u64, till: u64)
    ensures { context_seen context.new ≡ raised number till (context_seen context.old) }
{
    if context.number == number {
        context.expiry = context.expiry.max(till);
    }
}
