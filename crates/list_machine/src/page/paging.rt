//! The page of a search, and its counts.
ghost use Rattle.std.specs.Prelude.{◌≡◌, ◌<◌, ◌≤◌, All, filter, length, map, IfOk, IfSome};
ghost use Rattle.es_types.specs.declared.limits.TheConstants.{ALL_SHARDS, LEAST_BATCH};
ghost use Rattle.es_query.specs.Limits.{bounds_of};
ghost use Rattle.slice_rule.specs.Parts.{IsSlice};
ghost use Rattle.list_machine.specs.declared.page.candidates.Candidate.{Candidate as Found};
ghost use Rattle.list_machine.specs.Seen.Paging.{AreCandidates, key_past, place_seen};
ghost use Rattle.list_machine.specs.Run.{IsWithinLimits};
ghost use Rattle.list_machine.specs.Seen.Stores.{AreBounded, IsCountable, view_at};
ghost use Rattle.list_machine.specs.Views.{answer, enumeration, hit, hits_of, is_past, is_skipped, key_at, phases, skipped};

use crate::page::candidates::{Candidate, candidates, cover_of};
use crate::page::view::{ShardRef, ViewRef};
use crate::{Answer, Counts, Hit, SearchRequest};
use es_sort::{SortSpec, strict_total_order};
use es_types::{Copied, Items, NoMemory, Value, copy_all};
use slice_rule::Cover;
use std::alloc::Global;

/// The answer to a search of a view, in the order of its sort. Its page leaves out so many of the hits that it would have.
pub fn answer(
    alloc: Global,
    view: &ViewRef,
    request: &SearchRequest,
    skip: u64,
) -> Result<Answer, NoMemory>
    requires bounded { AreBounded view.now }
    requires countable { IsCountable (view_at view.now) }
    requires within { IsWithinLimits request.now }
    ensures { IfOk result (λ it. it ≡ answer (view_at view.now) request.now skip) }
{
    let found = found_in_order(alloc, view, request)?;
    let total = found.len() as u64;
    let left = beyond(request, found);
    let hits = page_of(alloc, view, request, &left, skip)?;
    let shards = view.shards.len() as u32;
    let skipped = count_skipped(view, request);
    Ok(Answer {
        counts: Counts {
            total: shards,
            successful: shards,
            skipped,
            failed: 0,
        },
        phases: phases(shards - skipped, request.batch),
        total,
        hits: Items::of(hits),
    })
}

fn phases(shards: u32, batch: u32) -> u32
    requires some { LEAST_BATCH ≤ batch }
    requires few { shards ≤ ALL_SHARDS }
    ensures { result ≡ phases shards batch }
{
    1 + shards.saturating_sub(1) / batch
}

/// How many shards need not be looked at.
fn count_skipped(view: &ViewRef, request: &SearchRequest) -> u32
    requires bounded { AreBounded view.now }
    requires few { length view.now.shards.now ≤ ALL_SHARDS }
    requires slice { IfSome request.now.slice IsSlice }
    ensures is { result ≡ skipped (view_at view.now) request.now.query request.now.slice }
    ensures within { result ≤ length view.now.shards.now }
{
    let mut count = 0;
    for (at, shard) in view.shards.iter().enumerate() {
        if is_skipped(view, request, at as u32, shard) {
            count += 1;
        }
    }
    count
}

/// Whether the shard of that number need not be looked at: the slice doesn't cover it, or its bounds exclude the query.
fn is_skipped(view: &ViewRef, request: &SearchRequest, at: u32, shard: &ShardRef) -> bool
    requires there { at < length view.now.shards.now }
    requires few { length view.now.shards.now ≤ ALL_SHARDS }
    requires bounded { shard.now.bounds.now ≡ bounds_of view.now.mapping.now shard.now.rows.now }
    requires slice { IfSome request.now.slice IsSlice }
    ensures { result ≡ is_skipped (view_at view.now) request.now.query request.now.slice at shard.now.rows.now }
{
    let cover = cover_of(&request.slice, at, view.shards.len() as u32);
    matches!(cover, Cover::None) || request.query.excluded(view.mapping, shard.bounds)
}

/// All rows that are wanted, in the order of the sort.
fn found_in_order<'a>(
    alloc: Global,
    view: &ViewRef<'a>,
    request: &SearchRequest,
) -> Result<Vec<Candidate<'a>>, NoMemory>
    requires bounded { AreBounded view.now }
    requires countable { IsCountable (view_at view.now) }
    requires within { IsWithinLimits request.now }
    ensures { IfOk result (λ them. AreCandidates (view_at view.now) request.now.sort
        (enumeration (view_at view.now) request.now.query request.now.sort request.now.slice) them.items) }
{
    let mut them = candidates(alloc, view, request)?;
    strict_total_order();
    them.sort_unstable_by(|a, b| request.sort.compare(&a.key, &b.key));
    Ok(them)
}

/// Those after the values that the request gives.
fn beyond<'a>(request: &SearchRequest, found: Vec<Candidate<'a>>) -> Vec<Candidate<'a>>
    ensures { result.items ≡ filter (λ (one : Found). key_past request.now.sort request.now.after one.key) found.entry.items }
{
    let mut left = found;
    if let Some(after) = &request.after {
        left.retain(|one| request.sort.is_after(&one.key, after));
    }
    left
}

/// Of these the page that is asked for, without the first so many.
fn page_of(
    alloc: Global,
    view: &ViewRef,
    request: &SearchRequest,
    left: &[Candidate],
    skip: u64,
) -> Result<Vec<Hit>, NoMemory>
    requires { AreCandidates (view_at view.now) request.now.sort
        (filter (is_past (view_at view.now) request.now.sort request.now.after)
        (enumeration (view_at view.now) request.now.query request.now.sort request.now.slice)) left.now }
    ensures { IfOk result (λ hits. hits.items ≡ hits_of (view_at view.now) request.now skip) }
{
    let start = skip.min(left.len() as u64) as usize;
    let rest = &left[start..];
    let end = (request.size as usize).min(rest.len());
    make_hits(alloc, view, &request.sort, &rest[..end])
}

fn make_hits(
    alloc: Global,
    view: &ViewRef,
    sort: &SortSpec,
    them: &[Candidate],
) -> Result<Vec<Hit>, NoMemory>
    requires { All (λ one. one.key ≡ key_at (view_at view.now) sort.now (place_seen one)) them.now }
    ensures { IfOk result (λ hits. hits.items ≡ map (λ one. hit (view_at view.now) sort.now (place_seen one)) them.now) }
{
    let mut hits = Vec::with_capacity(alloc, them.len())?;
    for one in them {
        hits.push(make_hit(alloc, view, sort, one)?)?;
    }
    Ok(hits)
}

fn make_hit(
    alloc: Global,
    view: &ViewRef,
    sort: &SortSpec,
    one: &Candidate,
) -> Result<Hit, NoMemory>
    requires { one.now.key ≡ key_at (view_at view.now) sort.now (place_seen one.now) }
    ensures { IfOk result (λ it. it ≡ hit (view_at view.now) sort.now (place_seen one.now)) }
{
    let values = one.key.values.as_slice();
    let shown = copy_all(alloc, &values[..sort.shown()])?;
    Ok(Hit {
        index: view.index.copy(alloc)?,
        id: one.row.id.copy(alloc)?,
        source: one.row.source.copy(alloc)?,
        shown: Items::of(shown),
    })
}
