//! Searches of indexes and of points in time.
ghost use Rattle.std.specs.Prelude.{◌≡◌, ℕ, ◌==◌, List, find, length, map, All, IfOk, OnErr, option_copied};
ghost use Rattle.es_types.specs.declared.row.Row.{Row as RowOf};
ghost use Rattle.list_machine.specs.declared.event.Event.TheVariants.{Search};
ghost use Rattle.list_machine.specs.Run.{IsWithinLimits};
ghost use Rattle.list_machine.specs.State.{Context, Index, IsSoundShard, State, context_of, index_of};
ghost use Rattle.list_machine.specs.Step.{happen, search_index, search_pit, search_reply, unfit};
ghost use Rattle.list_machine.specs.Seen.Stores.{AreBounded, IsCountable, IsCounted, IsCountedIndex, IsSmall, bounds_of_each, contexts_seen, indexes_seen, most_entries, reply_at, state_seen, view_at, view_over, view_seen};

use crate::context::ContextStore;
use crate::page::bounds::{bounds_of_each, rows_of_context};
use crate::page::paging::answer;
use crate::page::view::{ShardRef, ViewRef};
use crate::steps::keeping::keep_longer;
use crate::store::{IndexStore, ShardStore, Store, place_of};
use crate::{Reply, SearchRequest, Target};
use es_types::{Bounds, IndexName, KeepAlive, Mapping, Moment, NoMemory, Row};
use std::alloc::Global;

/// Searches an index as it is now, or the view of a context that is live.
pub fn search(
    alloc: Global,
    store: &mut Store,
    moment: Moment,
    target: &Target,
    request: &SearchRequest,
) -> Result<Reply, NoMemory>
    requires counted { IsCounted most_entries (state_seen store.old) }
    requires within { IsWithinLimits request.now }
    ensures ok { IfOk result (λ reply. happen (record (state_seen store.old) { moment = moment }) (Search target.now request.now)
        ≡ (record (state_seen store.new) { moment = moment }, reply)) }
    ensures err { OnErr result (state_seen store.new ≡ state_seen store.old) }
{
    match target {
        Target::Index(name) => search_index(alloc, &store.indexes, name, request),
        Target::Pit { number, keep } => {
            search_pit(alloc, &mut store.contexts, moment, *number, keep, request)
        }
    }
}

fn search_index(
    alloc: Global,
    indexes: &[IndexStore],
    name: &IndexName,
    request: &SearchRequest,
) -> Result<Reply, NoMemory>
    requires counted { All (IsCountedIndex most_entries) (indexes_seen indexes.now) }
    requires sound { All (λ (index : Index). All IsSoundShard index.shards) (indexes_seen indexes.now) }
    requires within { IsWithinLimits request.now }
    ensures { IfOk result (λ reply. (state : State) → search_index state request.now (index_of name.now (indexes_seen indexes.now)) ≡ (state, reply)) }
{
    let Some(at) = place_of(indexes, name) else {
        return Ok(Reply::NoIndex);
    };
    let index = &indexes[at];
    let rows = rows_of_index(alloc, &index.shards)?;
    let bounds = bounds_of_each(alloc, &index.mapping, &rows)?;
    search_rows(alloc, &index.name, &index.mapping, &rows, &bounds, request)
}

/// A context whose search is answered is kept longer, where that is asked.
fn search_pit(
    alloc: Global,
    contexts: &mut Vec<ContextStore>,
    moment: Moment,
    number: u64,
    keep: &Option<KeepAlive>,
    request: &SearchRequest,
) -> Result<Reply, NoMemory>
    requires small { All (λ (context : Context). IsSmall context.view) (contexts_seen contexts.old.items) }
    requires within { IsWithinLimits request.now }
    ensures ok { IfOk result (λ reply. (state : State)
        → search_pit (record state { moment = moment; contexts = contexts_seen contexts.old.items }) number keep.now request.now (context_of number (contexts_seen contexts.old.items))
        ≡ (record state { moment = moment; contexts = contexts_seen contexts.new.items }, reply)) }
    ensures err { OnErr result (contexts_seen contexts.new.items ≡ contexts_seen contexts.old.items) }
{
    let reply = search_live(alloc, contexts, moment, number, request)?;
    if let Reply::Found(_) = reply {
        keep_longer(contexts, moment, number, keep);
    }
    Ok(reply)
}

fn search_live(
    alloc: Global,
    contexts: &[ContextStore],
    moment: Moment,
    number: u64,
    request: &SearchRequest,
) -> Result<Reply, NoMemory>
    requires small { All (λ (context : Context). IsSmall context.view) (contexts_seen contexts.now) }
    requires within { IsWithinLimits request.now }
    ensures { IfOk result (λ reply. reply ≡ reply_at moment request.now (context_of number (contexts_seen contexts.now))) }
{
    let Some(context) = context_at(contexts, number) else {
        return Ok(Reply::Missing);
    };
    if context.is_live(moment) {
        search_context(alloc, context, request)
    } else {
        Ok(Reply::Missing)
    }
}

fn context_at(contexts: &[ContextStore], number: u64) -> Option<&ContextStore>
    ensures { option_copied result ≡ find (λ context. context.number == number) contexts.now }
{
    contexts.iter().find(|context| context.number == number)
}

fn search_context(
    alloc: Global,
    context: &ContextStore,
    request: &SearchRequest,
) -> Result<Reply, NoMemory>
    requires small { IsSmall (view_seen context.now) }
    requires within { IsWithinLimits request.now }
    ensures { IfOk result (λ reply. reply ≡ search_reply (view_seen context.now) request.now) }
{
    let rows = rows_of_context(alloc, &context.shards)?;
    let bounds = context.bounds.as_slice();
    search_rows(
        alloc,
        &context.index,
        &context.mapping,
        &rows,
        bounds,
        request,
    )
}

/// What a search of the shards with these rows is answered, whose values lie between these bounds.
fn search_rows(
    alloc: Global,
    index: &IndexName,
    mapping: &Mapping,
    rows: &[&[Row]],
    bounds: &[Bounds],
    request: &SearchRequest,
) -> Result<Reply, NoMemory>
    requires small { IsSmall (view_over index.now mapping.now (map (λ rows. rows.now) rows.now)) }
    requires bounded { bounds.now ≡ bounds_of_each mapping.now (map (λ rows. rows.now) rows.now) }
    requires within { IsWithinLimits request.now }
    ensures { IfOk result (λ reply. reply ≡ search_reply (view_over index.now mapping.now (map (λ rows. rows.now) rows.now)) request.now) }
{
    let shards = shard_refs(alloc, rows, bounds)?;
    let view = ViewRef {
        index,
        mapping,
        shards: &shards,
    };
    search_view(alloc, &view, request)
}

/// What a search of a view is answered.
fn search_view(alloc: Global, view: &ViewRef, request: &SearchRequest) -> Result<Reply, NoMemory>
    requires bounded { AreBounded view.now }
    requires countable { IsCountable (view_at view.now) }
    requires within { IsWithinLimits request.now }
    ensures { IfOk result (λ reply. reply ≡ search_reply (view_at view.now) request.now) }
{
    if let Some(refused) = refused(view.mapping, request) {
        return Ok(refused);
    }
    let skip = request.from as u64;
    Ok(Reply::Found(answer(alloc, view, request, skip)?))
}

/// Why a search doesn't fit the mapping: by its query, its sort, or the values that it goes on after. It takes no memory.
pub fn refused(mapping: &Mapping, request: &SearchRequest) -> Option<Reply>
    ensures { (index : List ℕ) (shards : List (List RowOf)) → unfit (view_over index mapping.now shards) request.now ≡ result }
{
    if request.query.fit(mapping).is_err() {
        return Some(Reply::BadQuery);
    }
    if request.sort.fit(mapping).is_err() {
        return Some(Reply::BadSort);
    }
    let after = request.after.as_ref()?;
    if request.sort.after_ok(mapping, after).is_err() {
        return Some(Reply::BadAfter);
    }
    None
}

fn rows_of_index<'a>(alloc: Global, shards: &'a [ShardStore]) -> Result<Vec<&'a [Row]>, NoMemory>
    ensures { IfOk result (λ rows. map (λ rows. rows.now) rows.items ≡ map (λ shard. shard.rows.items) shards.now) }
{
    let mut rows = Vec::with_capacity(alloc, shards.len())?;
    for shard in shards {
        rows.push(shard.rows.as_slice())?;
    }
    Ok(rows)
}

fn shard_refs<'a>(
    alloc: Global,
    rows: &[&'a [Row]],
    bounds: &'a [Bounds],
) -> Result<Vec<ShardRef<'a>>, NoMemory>
    requires { length bounds.now ≡ length rows.now }
    ensures rows { IfOk result (λ shards. map (λ shard. shard.rows.now) shards.items ≡ map (λ rows. rows.now) rows.now) }
    ensures bounds { IfOk result (λ shards. map (λ shard. shard.bounds.now) shards.items ≡ bounds.now) }
{
    let mut shards = Vec::with_capacity(alloc, rows.len())?;
    for at in 0..rows.len() {
        shards.push(ShardRef {
            rows: rows[at],
            bounds: &bounds[at],
        })?;
    }
    Ok(shards)
}
