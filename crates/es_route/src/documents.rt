//! What requests for an index and its documents ask for.
ghost use Rattle.std.specs.Prelude.{◌≡◌, IfOk};
ghost use Rattle.doc_json.specs.Documents.{doc_of};
ghost use Rattle.doc_json.specs.Indexes.{index_of};
ghost use Rattle.es_route.specs.Answers.{Answers};
ghost use Rattle.es_route.specs.Documents.{bulk_asked, create_asked, create_of, index_bulk_asked, put_asked, put_of, refresh_asked, remove_asked, remove_of};
ghost use Rattle.es_route.specs.Route.{AsksSound};

use crate::ask::Ask;
use crate::bodies::{no_body, some_body};
use crate::items::actions_of;
use crate::limits::{body_fault, first_with, index_name, named, told};
use crate::paths::{id_in, index_in};
use crate::values::{Key, read_params};
use doc_json::{BodyFault, read_doc, read_index};
use es_types::{Fail, Text};
use http_wire::Request;
use reply_json::RestFault;
use std::alloc::Global;

fn create_of(alloc: Global, index: Text, body: &[u8]) -> Result<Ask, RestFault>
    ensures answer { Answers result (create_of index (index_of body.now)) }
    ensures sound { IfOk result AsksSound }
{
    match read_index(alloc, body) {
        Ok(spec) => Ok(Ask::Create {
            index: told(index_name(index))?,
            spec,
        }),
        Err(Fail::Is(BodyFault::Limit(name))) => {
            Err(RestFault::Limit(first_with(index_name(index), name)))
        }
        Err(Fail::Is(fault)) => Err(body_fault(fault)),
        Err(Fail::NoMemory) => Err(RestFault::NoMemory),
    }
}

/// What a request that creates an index asks for.
pub fn create_asked(alloc: Global, request: &Request) -> Result<Ask, RestFault>
    ensures answer { Answers result (create_asked request.now) }
    ensures sound { IfOk result AsksSound }
{
    let index = index_in(alloc, request)?;
    read_params(alloc, &[], request)?;
    create_of(alloc, index, request.body.as_slice())
}

fn put_of(
    alloc: Global,
    index: Text,
    id: Text,
    refresh: bool,
    body: &[u8],
) -> Result<Ask, RestFault>
    ensures answer { Answers result (put_of index id refresh (doc_of body.now)) }
    ensures sound { IfOk result AsksSound }
{
    match read_doc(alloc, body) {
        Ok(doc) => {
            let (index, id) = named(index, id)?;
            Ok(Ask::Put {
                index,
                id,
                doc,
                refresh,
            })
        }
        Err(Fail::Is(fault)) => Err(body_fault(fault)),
        Err(Fail::NoMemory) => Err(RestFault::NoMemory),
    }
}

/// What a request that puts a document asks for.
pub fn put_asked(alloc: Global, request: &Request) -> Result<Ask, RestFault>
    ensures answer { Answers result (put_asked request.now) }
    ensures sound { IfOk result AsksSound }
{
    let index = index_in(alloc, request)?;
    let id = id_in(alloc, request)?;
    let values = read_params(alloc, &[Key::Refresh], request)?;
    let refresh = values.refresh.unwrap_or(false);
    put_of(alloc, index, id, refresh, request.body.as_slice())
}

fn remove_of(index: Text, id: Text, refresh: bool) -> Result<Ask, RestFault>
    ensures answer { result ≡ remove_of index id refresh }
    ensures sound { IfOk result AsksSound }
{
    let (index, id) = named(index, id)?;
    Ok(Ask::Remove { index, id, refresh })
}

/// What a request that removes a document asks for.
pub fn remove_asked(alloc: Global, request: &Request) -> Result<Ask, RestFault>
    ensures answer { Answers result (remove_asked request.now) }
    ensures sound { IfOk result AsksSound }
{
    let index = index_in(alloc, request)?;
    let id = id_in(alloc, request)?;
    let values = read_params(alloc, &[Key::Refresh], request)?;
    let refresh = values.refresh.unwrap_or(false);
    no_body(request)?;
    remove_of(index, id, refresh)
}

/// What a bulk asks for; `index` is that of the items that name none. The body is moved.
pub fn bulk_asked(alloc: Global, index: Option<Text>, request: Request) -> Result<Ask, RestFault>
    ensures answer { Answers result (bulk_asked index request) }
    ensures sound { IfOk result AsksSound }
{
    let values = read_params(alloc, &[Key::Refresh], &request)?;
    let refresh = values.refresh.unwrap_or(false);
    some_body(&request)?;
    let items = actions_of(alloc, index.as_ref(), request.body.as_slice())?;
    let Request {
        method: _,
        path: _,
        query: _,
        moment: _,
        body,
        last: _,
    } = request;
    Ok(Ask::Bulk {
        index,
        body,
        refresh,
        items,
    })
}

/// What a bulk asks for whose path names an index.
pub fn index_bulk_asked(alloc: Global, request: Request) -> Result<Ask, RestFault>
    ensures answer { Answers result (index_bulk_asked request) }
    ensures sound { IfOk result AsksSound }
{
    let index = index_in(alloc, &request)?;
    bulk_asked(alloc, Some(index), request)
}

/// What a refresh of an index asks for.
pub fn refresh_asked(alloc: Global, request: &Request) -> Result<Ask, RestFault>
    ensures answer { Answers result (refresh_asked request.now) }
    ensures sound { IfOk result AsksSound }
{
    let index = index_in(alloc, request)?;
    read_params(alloc, &[], request)?;
    no_body(request)?;
    let index = told(index_name(index))?;
    Ok(Ask::Refresh { index })
}
