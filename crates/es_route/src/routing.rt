//! What a request asks for: which resource it names, and in which order it is refused.
ghost use Rattle.std.specs.Prelude.{◌≡◌, IfOk};
ghost use Rattle.es_route.specs.Answers.{Answers};
ghost use Rattle.es_route.specs.Resources.{all_routes};
ghost use Rattle.es_route.specs.Route.{AsksSound, asked_at, asked_at_index, asked_of, doc_asked, moment_first};

use crate::ask::Ask;
use crate::documents::{
    bulk_asked, create_asked, index_bulk_asked, put_asked, refresh_asked, remove_asked,
};
use crate::methods::{check_built, gets_or_posts, is_method, puts_or_posts};
use crate::moment::is_unreadable;
use crate::paths::is_own_word;
use crate::pits::{closing_asked, opening_asked};
use crate::resource::{Resource, resource_of, routes};
use crate::searches::{check_search, search_asked};
use es_types::LimitName;
use http_wire::Request;
use matchit::Router;
use reply_json::RestFault;
use std::alloc::Global;

fn doc_asked(alloc: Global, request: &Request) -> Result<Ask, RestFault>
    ensures answer { Answers result (doc_asked request.now) }
    ensures sound { IfOk result AsksSound }
{
    if puts_or_posts(request) {
        check_built(alloc, true, request)?;
        return put_asked(alloc, request);
    }
    check_built(alloc, is_method("DELETE", request), request)?;
    remove_asked(alloc, request)
}

// What a request of a route that begins with an index asks for.
fn indexed(alloc: Global, request: Request, resource: Resource) -> Result<Ask, RestFault>
    ensures answer { Answers result (asked_at_index request resource) }
    ensures sound { IfOk result AsksSound }
{
    match resource {
        Resource::Index => {
            check_built(alloc, is_method("PUT", &request), &request)?;
            create_asked(alloc, &request)
        }
        Resource::Doc => doc_asked(alloc, &request),
        Resource::IndexBulk => {
            check_built(alloc, puts_or_posts(&request), &request)?;
            index_bulk_asked(alloc, request)
        }
        Resource::Refresh => {
            check_built(alloc, gets_or_posts(&request), &request)?;
            refresh_asked(alloc, &request)
        }
        Resource::IndexSearch => {
            check_search(alloc, true, &request)?;
            search_asked(alloc, true, &request)
        }
        Resource::OpenPit => {
            check_built(alloc, is_method("POST", &request), &request)?;
            opening_asked(alloc, &request)
        }
        _ => Err(RestFault::NotBuilt),
    }
}

fn asked_at(alloc: Global, request: Request, resource: Option<Resource>) -> Result<Ask, RestFault>
    ensures answer { Answers result (asked_at request resource) }
    ensures sound { IfOk result AsksSound }
{
    match resource {
        None => Err(RestFault::NotBuilt),
        Some(Resource::Bulk) => {
            check_built(alloc, puts_or_posts(&request), &request)?;
            bulk_asked(alloc, None, request)
        }
        Some(Resource::Search) => {
            check_search(alloc, false, &request)?;
            search_asked(alloc, false, &request)
        }
        Some(Resource::ClosePit) => {
            check_built(alloc, is_method("DELETE", &request), &request)?;
            closing_asked(alloc, &request)
        }
        Some(resource) => {
            if is_own_word(&request) {
                return Err(RestFault::NotBuilt);
            }
            indexed(alloc, request, resource)
        }
    }
}

// A moment that isn't readable comes before all limits, ids and events.
fn moment_first(asked: Result<Ask, RestFault>) -> Result<Ask, RestFault>
    ensures answer { result ≡ moment_first asked }
    ensures sound { IfOk result AsksSound }
{
    match asked {
        Ok(_) | Err(RestFault::Limit(_)) | Err(RestFault::BadId) => {
            Err(RestFault::Limit(LimitName::Moment))
        }
        Err(fault) => Err(fault),
    }
}

/// What a request asks for by these routes, or the first refusal that it meets. A bulk keeps the request's body.
pub fn routed(alloc: Global, router: &Router<Resource>, request: Request) -> Result<Ask, RestFault>
    requires { router.now ≡ all_routes }
    ensures answer { Answers result (asked_of request) }
    ensures sound { IfOk result AsksSound }
{
    let unreadable = is_unreadable(&request);
    let resource = resource_of(router, request.path.as_str());
    let asked = asked_at(alloc, request, resource);
    if unreadable {
        moment_first(asked)
    } else {
        asked
    }
}

/// What a request asks for, or the first refusal that it meets. It makes the routes anew; a connection makes them once.
pub fn route(alloc: Global, request: Request) -> Result<Ask, RestFault>
    ensures answer { Answers result (asked_of request) }
    ensures sound { IfOk result AsksSound }
{
    let router = routes(alloc)?;
    routed(alloc, &router, request)
}
