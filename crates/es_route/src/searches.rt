//! What a search asks for.
ghost use Rattle.std.specs.Prelude.{◌≡◌, ◌≤◌, IfOk};
ghost use Rattle.es_types.specs.declared.limits.TheConstants.{LEAST_BATCH};
ghost use Rattle.search_json.specs.Searches.{search_of};
ghost use Rattle.list_machine.specs.Run.{IsWithinLimits};
ghost use Rattle.es_route.specs.Answers.{Answers};
ghost use Rattle.es_route.specs.Searches.{AreWithinLimits, batch_used, check_search, has_unbuilt, batch_told, index_told, index_where, is_batch, search_asked, search_told, target_asked};
ghost use Rattle.es_route.specs.Route.{AsksSound};

use crate::ask::Ask;
use crate::limits::{body_fault, both, first_with, index_name, told};
use crate::methods::gets_or_posts;
use crate::params::{Param, has_param, params_of};
use crate::paths::index_in;
use crate::pits::pit_number;
use crate::values::{Key, read_params};
use doc_json::BodyFault;
use es_types::{Fail, IndexName, LEAST_BATCH, LimitName, MOST_BATCH, NoMemory, Text, USUAL_BATCH};
use http_wire::Request;
use list_machine::Target;
use reply_json::RestFault;
use search_json::{PitRef, SearchBody, read_search};
use std::alloc::Global;

// Whether a search has a parameter that isn't built yet.
fn has_unbuilt(has_index: bool, params: &[Param]) -> bool
    ensures { result ≡ has_unbuilt has_index params.now }
{
    has_param("pretty", params) || (has_index && has_param("scroll", params))
}

/// A method or a parameter of a search that isn't built yet.
pub fn check_search(alloc: Global, has_index: bool, request: &Request) -> Result<(), RestFault>
    ensures { Answers result (check_search has_index request.now) }
{
    if !gets_or_posts(request) {
        return Err(RestFault::NotBuilt);
    }
    let params = params_of(alloc, request.query.as_slice())?;
    if has_unbuilt(has_index, &params) {
        return Err(RestFault::NotBuilt);
    }
    Ok(())
}

fn is_batch(batch: u32) -> bool
    ensures { result ≡ is_batch batch }
{
    LEAST_BATCH <= batch && batch <= MOST_BATCH
}

// The number that the body is read with: the usual one where the query's is none.
fn batch_used(batch: u32) -> u32
    ensures is { result ≡ batch_used batch }
    ensures least { 2 ≤ result }
    ensures most { result ≤ MOST_BATCH }
{
    if is_batch(batch) { batch } else { USUAL_BATCH }
}

// What the body of a search asks for, or its fault.
fn body_of(
    alloc: Global,
    has_index: bool,
    batch: u32,
    request: &Request,
) -> Result<Result<SearchBody, BodyFault>, NoMemory>
    requires least { LEAST_BATCH ≤ batch }
    requires most { batch ≤ MOST_BATCH }
    ensures is { IfOk result (λ asked. asked ≡ search_of has_index batch request.now.body) }
    ensures within { IfOk result AreWithinLimits }
{
    match read_search(alloc, request.body.as_slice(), has_index, batch) {
        Ok(asked) => Ok(Ok(asked)),
        Err(Fail::Is(fault)) => Ok(Err(fault)),
        Err(Fail::NoMemory) => Err(NoMemory),
    }
}

// The index that the path names, where it names one.
fn index_where(alloc: Global, has_index: bool, request: &Request) -> Result<Option<Text>, RestFault>
    ensures { Answers result (index_where has_index request.now) }
{
    if !has_index {
        return Ok(None);
    }
    Ok(Some(index_in(alloc, request)?))
}

fn index_told(index: Option<Text>) -> Result<Option<IndexName>, LimitName>
    ensures { result ≡ index_told index }
{
    match index {
        Some(index) => match index_name(index) {
            Ok(index) => Ok(Some(index)),
            Err(name) => Err(name),
        },
        None => Ok(None),
    }
}

fn batch_told(batch: u32) -> Result<(), LimitName>
    ensures { result ≡ batch_told batch }
{
    if is_batch(batch) {
        Ok(())
    } else {
        Err(LimitName::Batch)
    }
}

fn target_asked(index: Option<IndexName>, asked: SearchBody) -> Result<Ask, RestFault>
    requires { IsWithinLimits asked.request }
    ensures answer { result ≡ target_asked index asked }
    ensures sound { IfOk result AsksSound }
{
    let SearchBody { request, pit } = asked;
    if let Some(index) = index {
        return Ok(Ask::Search {
            target: Target::Index(index),
            request,
            sent: None,
        });
    }
    match pit {
        Some(PitRef { id, keep }) => Ok(Ask::Search {
            target: Target::Pit {
                number: pit_number(id),
                keep,
            },
            request,
            sent: Some(id),
        }),
        None => Err(RestFault::Limit(LimitName::Pit)),
    }
}

fn search_told(
    index: Option<Text>,
    batch: u32,
    asked: Result<SearchBody, BodyFault>,
) -> Result<Ask, RestFault>
    requires { AreWithinLimits asked }
    ensures answer { result ≡ search_told index batch asked }
    ensures sound { IfOk result AsksSound }
{
    let read = both(index_told(index), batch_told(batch));
    match asked {
        Ok(asked) => {
            let (index, _) = told(read)?;
            target_asked(index, asked)
        }
        Err(BodyFault::Limit(name)) => Err(RestFault::Limit(first_with(read, name))),
        Err(BodyFault::BadId) => {
            told(read)?;
            Err(RestFault::BadId)
        }
        Err(fault) => Err(body_fault(fault)),
    }
}

/// What a search asks for; `has_index` says that its path names an index. The body is read after the path and the query.
pub fn search_asked(alloc: Global, has_index: bool, request: &Request) -> Result<Ask, RestFault>
    ensures answer { Answers result (search_asked has_index request.now) }
    ensures sound { IfOk result AsksSound }
{
    let index = index_where(alloc, has_index, request)?;
    let values = read_params(alloc, &[Key::Batch], request)?;
    let batch = values.batch.unwrap_or(USUAL_BATCH);
    let asked = body_of(alloc, has_index, batch_used(batch), request)?;
    search_told(index, batch, asked)
}
