//! The rows that match, of those that a slice has, with their places and keys.
ghost use Rattle.std.specs.Prelude.{◌≡◌, ◌<◌, ◌≤◌, ◌∷◌, [], ℕ, true, not, length, IfOk, IfSome, OnOk};
ghost use Rattle.es_types.specs.declared.limits.TheConstants.{ALL_SHARDS, SHARD_ROWS};
ghost use Rattle.es_query.specs.Limits.{bounds_of};
ghost use Rattle.slice_rule.specs.Parts.{IsSlice, has, is_none};
ghost use Rattle.list_machine.specs.Seen.Paging.{AddsPassing, AreCandidates};
ghost use Rattle.list_machine.specs.Run.{IsWithinLimits};
ghost use Rattle.list_machine.specs.Seen.Stores.{AreBounded, IsCountable, view_at};
ghost use Rattle.list_machine.specs.Views.{found, is_covered, is_had, is_wanted, places_of_shard};

use crate::SearchRequest;
use crate::page::view::{ShardRef, ViewRef};
use es_query::nothing_excluded_matches;
use es_sort::Keys;
use es_types::{NoMemory, Row};
use slice_rule::{Cover, Slice, has};
use std::alloc::Global;

/// The number of the first place of a shard is the shard's number times this.
const PLACES: u64 = 4_294_967_296;

/// A row that is wanted, with its place and the key that it is ordered by.
#[derive(Drop)]
pub struct Candidate<'a> {
    pub key: Keys,
    pub shard: u32,
    pub rank: u32,
    pub row: &'a Row,
}

/// What a search has of a shard, of so many: all of it where it is of no slice.
pub fn cover_of(slice: &Option<Slice>, shard: u32, shards: u32) -> Cover
    requires slice { IfSome slice.now IsSlice }
    requires there { shard < shards }
    ensures is { (rank : ℕ) → has result rank ≡ is_had shards slice.now shard rank }
    ensures none { is_none result ≡ not (is_covered shards slice.now shard) }
{
    match slice {
        Some(slice) => slice.cover(shard, shards),
        None => Cover::All,
    }
}

/// All rows of a view that are wanted, as they stand in it. A shard that the slice doesn't cover, or whose bounds exclude the
/// query, is not looked at.
pub fn candidates<'a>(
    alloc: Global,
    view: &ViewRef<'a>,
    request: &SearchRequest,
) -> Result<Vec<Candidate<'a>>, NoMemory>
    requires bounded { AreBounded view.now }
    requires countable { IsCountable (view_at view.now) }
    requires within { IsWithinLimits request.now }
    ensures { IfOk result (λ them. AreCandidates (view_at view.now) request.now.sort
        (found (view_at view.now) request.now.query request.now.slice) them.items) }
{
    let mut them = Vec::new(alloc);
    for (at, shard) in view.shards.iter().enumerate() {
        look_at(alloc, &mut them, view, request, at as u32, shard)?;
    }
    Ok(them)
}

/// The rows of one more shard, which is of that number.
fn look_at<'a>(
    alloc: Global,
    them: &mut Vec<Candidate<'a>>,
    view: &ViewRef<'a>,
    request: &SearchRequest,
    at: u32,
    shard: &ShardRef<'a>,
) -> Result<(), NoMemory>
    requires there { at < length view.now.shards.now }
    requires shards { length view.now.shards.now ≤ ALL_SHARDS }
    requires few { length shard.now.rows.now ≤ SHARD_ROWS }
    requires bounded { shard.now.bounds.now ≡ bounds_of view.now.mapping.now shard.now.rows.now }
    requires slice { IfSome request.now.slice IsSlice }
    ensures { OnOk result (AddsPassing (view_at view.now) request.now.sort (is_wanted (view_at view.now) request.now.query request.now.slice)
        (places_of_shard at 0 shard.now.rows.now) them.old.items them.new.items) }
{
    let cover = cover_of(&request.slice, at, view.shards.len() as u32);
    if let Cover::None = cover {
        return Ok(());
    }
    if request.query.excluded(view.mapping, shard.bounds) {
        nothing_excluded_matches();
        return Ok(());
    }
    add_rows(alloc, them, view, request, at, cover, shard.rows)
}

/// Those rows of a shard that the cover has.
fn add_rows<'a>(
    alloc: Global,
    them: &mut Vec<Candidate<'a>>,
    view: &ViewRef<'a>,
    request: &SearchRequest,
    at: u32,
    cover: Cover,
    rows: &'a [Row],
) -> Result<(), NoMemory>
    requires early { at < ALL_SHARDS }
    requires few { length rows.now ≤ SHARD_ROWS }
    requires covers { (rank : ℕ) → has cover rank ≡ is_had (length view.now.shards.now) request.now.slice at rank }
    ensures { OnOk result (AddsPassing (view_at view.now) request.now.sort (is_wanted (view_at view.now) request.now.query request.now.slice)
        (places_of_shard at 0 rows.now) them.old.items them.new.items) }
{
    for (rank, row) in rows.iter().enumerate() {
        if has(&cover, rank as u32) {
            add_row(alloc, them, view, request, at, rank as u32, row)?;
        }
    }
    Ok(())
}

/// One more row, if it matches.
fn add_row<'a>(
    alloc: Global,
    them: &mut Vec<Candidate<'a>>,
    view: &ViewRef<'a>,
    request: &SearchRequest,
    shard: u32,
    rank: u32,
    row: &'a Row,
) -> Result<(), NoMemory>
    requires early { shard < ALL_SHARDS }
    requires had { is_had (length view.now.shards.now) request.now.slice shard rank ≡ true }
    ensures { OnOk result (AddsPassing (view_at view.now) request.now.sort (is_wanted (view_at view.now) request.now.query request.now.slice)
        (record { shard = shard; rank = rank; row = row.now } ∷ []) them.old.items them.new.items) }
{
    if !request.query.matches(view.mapping, row) {
        return Ok(());
    }
    let place = shard as u64 * PLACES + rank as u64;
    let key = request.sort.key_of(alloc, view.mapping, row, place)?;
    them.push(Candidate {
        key,
        shard,
        rank,
        row,
    })?;
    Ok(())
}
