//! The body of a search.
ghost use Rattle.std.specs.Prelude.{◌≡◌, ◌+◌, ◌≤◌, IfNone, IfOk, IfSome, length, option_map};
ghost use Rattle.es_types.specs.declared.limits.TheConstants.{LEAST_BATCH, MOST_BATCH, SORT_KEYS};
ghost use Rattle.serde_json.specs.View.{view};
ghost use Rattle.es_types.specs.Fail.{Answers};
ghost use Rattle.slice_rule.specs.Parts.{IsSlice};
ghost use Rattle.list_machine.specs.Run.{IsWithinLimits};
ghost use Rattle.search_json.specs.Searches.{asked_of, body_of, count_in, first_broken, from_of, has_form, has_track_form, of_form, of_parts, search_of, size_of, span_in, within_limits};

use crate::after::after_of;
use crate::pit::{Named, asked_keep, breaks_keep, id_told, pit_of};
use crate::query::query_of;
use crate::slice::{breaks_slice, slice_of};
use crate::sort::{NamedKey, breaks_sort, sort_keys, sort_of};
use crate::value::small_of;
use ctx_ids::ContextId;
use doc_json::{BodyFault, filled, is_form, read_data};
use es_query::Query;
use es_sort::{Keys, SortSpec};
use es_types::{Fail, Items, KeepAlive, LimitName, NoMemory, USUAL_SIZE, WINDOW};
use list_machine::SearchRequest;
use serde_json::Value;
use slice_rule::Slice;
use std::alloc::Global;

/// How many hits a search leaves out, how many it wants, after which values, and of which slice.
#[derive(Drop)]
struct Span {
    from: u32,
    size: u32,
    after: Option<Keys>,
    slice: Option<Slice>,
}

/// A point in time as a body names it, and how long it is kept from then on, where the body says that.
#[derive(Clone, Copy)]
pub struct PitRef {
    pub id: ContextId,
    pub keep: Option<KeepAlive>,
}

/// What the body of a search asks for, and the point in time that it names.
#[derive(Drop)]
pub struct SearchBody {
    pub request: SearchRequest,
    pub pit: Option<PitRef>,
}

/// What the body of a search asks for. `has_index` says that the path names an index, and `batch` shards make a batch, which has
/// 2 to 1,024. An empty body counts as `{}`.
///
/// A body that is no JSON is told first, then a form that is wrong, then a limit that is broken, then a text that is no id.
#[tactic(auto, unfolding(crate::specs::Searches::search_of))]
pub fn read_search(
    alloc: Global,
    body: &[u8],
    has_index: bool,
    batch: u32,
) -> Result<SearchBody, Fail<BodyFault>>
    requires batch_least { LEAST_BATCH ≤ batch }
    requires batch_most { batch ≤ MOST_BATCH }
    ensures read { Answers result (search_of has_index batch body.now) }
    ensures within { IfOk result (λ it. IsWithinLimits it.request) }
{
    let Some(value) = read_data(alloc, filled(body))? else {
        return Err(Fail::Is(BodyFault::NotJson));
    };
    of_form(alloc, has_index, batch, &value)
}

#[tactic(auto, unfolding(crate::specs::Searches::of_form))]
fn of_form(
    alloc: Global,
    has_index: bool,
    batch: u32,
    value: &Value,
) -> Result<SearchBody, Fail<BodyFault>>
    requires batch_least { LEAST_BATCH ≤ batch }
    requires batch_most { batch ≤ MOST_BATCH }
    ensures is { Answers result (of_form has_index batch (view value.now)) }
    ensures within { IfOk result (λ it. IsWithinLimits it.request) }
{
    if !has_form(value) {
        return Err(Fail::Is(BodyFault::Shape));
    }
    let Some(named) = pit_of(value) else {
        return Err(Fail::Is(BodyFault::Shape));
    };
    of_parts(alloc, has_index, named, batch, value)
}

#[tactic(auto, unfolding(crate::specs::Searches::of_parts))]
fn of_parts(
    alloc: Global,
    has_index: bool,
    named: Option<Named>,
    batch: u32,
    value: &Value,
) -> Result<SearchBody, Fail<BodyFault>>
    requires batch_least { LEAST_BATCH ≤ batch }
    requires batch_most { batch ≤ MOST_BATCH }
    ensures is { Answers result (of_parts has_index named batch (view value.now)) }
    ensures within { IfOk result (λ it. IsWithinLimits it.request) }
{
    let Some(span) = span_in(alloc, value)? else {
        return Err(Fail::Is(BodyFault::Shape));
    };
    let Some(keys) = sort_of(alloc, value)? else {
        return Err(Fail::Is(BodyFault::Shape));
    };
    let Some(query) = asked_of(alloc, value)? else {
        return Err(Fail::Is(BodyFault::Shape));
    };
    within_limits(alloc, has_index, named, batch, span, keys, query)
}

// What is asked for, where it breaks no limit.
fn within_limits(
    alloc: Global,
    has_index: bool,
    named: Option<Named>,
    batch: u32,
    span: Span,
    keys: Vec<NamedKey>,
    query: Query,
) -> Result<SearchBody, Fail<BodyFault>>
    requires batch_least { LEAST_BATCH ≤ batch }
    requires batch_most { batch ≤ MOST_BATCH }
    ensures is { Answers result (within_limits has_index named batch span keys.items query) }
    ensures within { IfOk result (λ it. IsWithinLimits it.request) }
{
    if let Some(name) = first_broken(has_index, named, &span, &keys) {
        return Err(Fail::Is(BodyFault::Limit(name)));
    }
    let Span {
        from,
        size,
        after,
        slice,
    } = span;
    let sort = SortSpec {
        keys: Items::of(sort_keys(alloc, keys)?),
        show_place: named.is_some(),
    };
    let request = SearchRequest {
        query,
        sort,
        from,
        size,
        after,
        slice,
        batch,
    };
    match body_of(request, named) {
        Ok(body) => Ok(body),
        Err(fault) => Err(Fail::Is(fault)),
    }
}

// What is asked for, where the text of the point in time is an id.
fn body_of(request: SearchRequest, named: Option<Named>) -> Result<SearchBody, BodyFault>
    ensures is { result ≡ body_of request named }
    ensures same { IfOk result (λ it. it.request ≡ request) }
{
    let Some(Named { id, keep }) = named else {
        return Ok(SearchBody { request, pit: None });
    };
    match id_told(id) {
        Ok(id) => Ok(SearchBody {
            request,
            pit: Some(PitRef {
                id,
                keep: asked_keep(keep),
            }),
        }),
        Err(fault) => Err(fault),
    }
}

// The first limit that is broken.
fn first_broken(
    has_index: bool,
    named: Option<Named>,
    span: &Span,
    keys: &[NamedKey],
) -> Option<LimitName>
    ensures first { result ≡ first_broken has_index named span.now keys.now }
    ensures window { IfNone result (span.now.from + span.now.size ≤ WINDOW) }
    ensures slice { IfNone result (IfSome span.now.slice IsSlice) }
    ensures keys { IfNone result (length keys.now ≤ SORT_KEYS) }
{
    if breaks_keep(named) {
        return Some(LimitName::KeepAlive);
    }
    let in_pit = named.is_some();
    if has_index == in_pit || (span.slice.is_some() && !in_pit) {
        return Some(LimitName::Pit);
    }
    if span.after.is_some() && span.from > 0 {
        return Some(LimitName::From);
    }
    if span.from as u64 + span.size as u64 > WINDOW {
        return Some(LimitName::Window);
    }
    if breaks_slice(span.slice) {
        return Some(LimitName::Slice);
    }
    if breaks_sort(in_pit, keys) {
        return Some(LimitName::Sort);
    }
    None
}

// ---- members

fn count_in(usual: u32, count: Option<&Value>) -> Option<u32>
    ensures { result ≡ count_in usual (option_map (λ it. view it.now) count.entry) }
{
    match count {
        Some(count) => small_of(count),
        None => Some(usual),
    }
}

// How many hits are left out, how many are wanted, after which values, and of which slice.
#[tactic(auto, unfolding(crate::specs::Searches::span_in))]
fn span_in(alloc: Global, value: &Value) -> Result<Option<Span>, NoMemory>
    ensures { IfOk result (λ span. span ≡ span_in (view value.now)) }
{
    let Some(from) = from_of(value) else {
        return Ok(None);
    };
    let Some(size) = size_of(value) else {
        return Ok(None);
    };
    let Some(slice) = slice_of(value) else {
        return Ok(None);
    };
    match after_of(alloc, value)? {
        Some(after) => Ok(Some(Span {
            from,
            size,
            after,
            slice,
        })),
        None => Ok(None),
    }
}

#[tactic(auto, unfolding(crate::specs::Searches::size_of))]
fn size_of(value: &Value) -> Option<u32>
    ensures { result ≡ size_of (view value.now) }
{
    count_in(USUAL_SIZE, value.get("size"))
}

#[tactic(auto, unfolding(crate::specs::Searches::from_of))]
fn from_of(value: &Value) -> Option<u32>
    ensures { result ≡ from_of (view value.now) }
{
    count_in(0, value.get("from"))
}

#[tactic(auto, unfolding(crate::specs::Searches::asked_of))]
fn asked_of(alloc: Global, value: &Value) -> Result<Option<Query>, NoMemory>
    ensures { IfOk result (λ query. query ≡ asked_of (view value.now)) }
{
    match value.get("query") {
        Some(query) => query_of(alloc, query),
        None => Ok(Some(Query::All)),
    }
}

// ---- the form

#[tactic(auto, unfolding(crate::specs::Searches::has_form))]
fn has_form(value: &Value) -> bool
    ensures { result ≡ has_form (view value.now) }
{
    is_form(
        value,
        &[
            "query",
            "size",
            "from",
            "sort",
            "pit",
            "search_after",
            "slice",
            "track_total_hits",
        ],
    ) && has_track_form(value)
}

#[tactic(auto, unfolding(crate::specs::Searches::has_track_form))]
fn has_track_form(value: &Value) -> bool
    ensures { result ≡ has_track_form (view value.now) }
{
    match value.get("track_total_hits") {
        Some(track) => track.is_boolean(),
        None => true,
    }
}
