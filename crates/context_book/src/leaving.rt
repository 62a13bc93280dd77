//! Which points in time leave the book, and how the list is parted by that.
ghost use Rattle.std.specs.Prelude.{◌≡◌, ◌+◌, ◌<◌, ◌≤◌, [], map, filter, count_by, vec_capacity, vec_len, IfOk, OnOk, OnErr};
ghost use Rattle.context_book.specs.Leavings.{leaves, names, stays};

use crate::View;
use crate::context::{Context, owner_of};
use es_types::{Moment, NoMemory};
use list_machine::Which;
use reader_gate::Owner;
use std::alloc::Global;
use std::mem;

/// Which leave.
#[derive(Clone, Copy)]
pub enum Leaving<'a> {
    /// Those that are no longer live.
    Ended,
    /// The live ones that are named.
    Closed(&'a Which),
}

/// Takes those out that leave, in their order. An error comes only where there are such, and leaves the list as it was.
pub fn part(
    alloc: Global,
    contexts: &mut Vec<Context>,
    leaving: Leaving,
    now: Moment,
) -> Result<Vec<Owner<View>>, NoMemory>
    ensures gone { IfOk result (λ owners. owners.items ≡ map (λ context. context.owner) (filter (leaves leaving.entry now) contexts.old.items)) }
    ensures kept { OnOk result (contexts.new.items ≡ filter (stays leaving.entry now) contexts.old.items) }
    ensures err { OnErr result (contexts.new.items ≡ contexts.old.items) }
    ensures some { OnErr result (0 < count_by (leaves leaving.entry now) contexts.old.items) }
{
    let leavers = count_leaving(contexts, leaving, now);
    if leavers == 0 {
        return Ok(Vec::new(alloc));
    }
    let gone = Vec::with_capacity(alloc, leavers)?;
    let kept = Vec::with_capacity(alloc, contexts.len() - leavers)?;
    let all = mem::replace(contexts, kept);
    Ok(share_out(all, contexts, gone, leaving, now))
}

/// Moves each one to those that are kept, or its owner to those that are gone.
fn share_out(
    all: Vec<Context>,
    kept: &mut Vec<Context>,
    mut gone: Vec<Owner<View>>,
    leaving: Leaving,
    now: Moment,
) -> Vec<Owner<View>>
    requires empty { (kept.old.items ≡ []) × (gone.items ≡ []) }
    requires room { vec_len gone + count_by (leaves leaving now) all.items ≤ vec_capacity gone }
    requires place { vec_len kept.old + count_by (stays leaving now) all.items ≤ vec_capacity kept.old }
    ensures gone { result.items ≡ map (λ context. context.owner) (filter (leaves leaving.entry now) all.items) }
    ensures kept { kept.new.items ≡ filter (stays leaving.entry now) all.items }
{
    for context in all {
        if leaves(&context, leaving, now) {
            gone.push_reserved(owner_of(context));
        } else {
            kept.push_reserved(context);
        }
    }
    gone
}

fn count_leaving(contexts: &[Context], leaving: Leaving, now: Moment) -> usize
    ensures { result ≡ count_by (leaves leaving.entry now) contexts.now }
{
    let mut count = 0;
    for context in contexts {
        if leaves(context, leaving, now) {
            count += 1;
        }
    }
    count
}

fn leaves(context: &Context, leaving: Leaving, now: Moment) -> bool
    ensures { result ≡ leaves leaving.entry now context.now }
{
    let live = context.is_live(now);
    match leaving {
        Leaving::Ended => !live,
        Leaving::Closed(which) => live && is_named(which, context.number),
    }
}

fn is_named(which: &Which, number: u64) -> bool
    ensures { result ≡ names which.now number }
{
    let Which::Pits(numbers) = which;
    numbers.as_slice().contains(&number)
}
