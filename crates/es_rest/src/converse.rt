//! What each request asks of the service, and what it is answered.
ghost use Rattle.std.specs.Prelude.{◌≡◌, MatchResult};
ghost use Rattle.es_route.specs.declared.ask.Ask.TheVariants as asks;
ghost use Rattle.es_route.specs.Resources.{all_routes};
ghost use Rattle.es_route.specs.Route.{AsksSound};
ghost use Rattle.es_rest.specs.Talk.{Conversation, Interrupted, Responds};

use crate::bulk::bulk;
use crate::refresh::{Refreshed, refresh_index};
use crate::refusal::{Named, refusal};
use crate::single::{ask_one, settle};
use crate::work::{Work, work_of};
use es_route::{Ask, Resource, routed};
use es_types::{Copied, IndexName, Moment, NoMemory};
use http_wire::Request;
use list_machine::{Reply, Service};
use matchit::Router;
use reply_json::{Response, RestFault, RouteName};
use std::alloc::Global;

// Seals an index, and publishes what was sealed.
fn refresh_route<V: Service>(
    alloc: Global,
    service: &mut V,
    index: &IndexName,
    moment: Moment,
) -> Result<Response, NoMemory>
    ensures talk { MatchResult result
        (Conversation (V.limits service.old) (V.seat service.old) moment (asks.Refresh index.now) (V.front service.old) (V.front service.new))
        (λ _. Interrupted (V.limits service.old) (V.seat service.old) moment (asks.Refresh index.now) (V.front service.old) (V.front service.new)) }
    ensures seat { V.seat service.new ≡ V.seat service.old }
    ensures limits { V.limits service.new ≡ V.limits service.old }
{
    let names = Named::Index(index.text().copy(alloc)?);
    match refresh_index(alloc, service, index, moment)? {
        Refreshed::All(numbers) => Ok(settle(None, Reply::Sealed(numbers), RouteName::Refresh)),
        Refreshed::Ended(said) => {
            let refused = refusal(names, &said);
            Ok(settle(refused, said, RouteName::Refresh))
        }
    }
}

// Asks all that a request asks for, and answers it.
fn converse<V: Service>(
    alloc: Global,
    service: &mut V,
    ask: Ask,
    moment: Moment,
) -> Result<Response, NoMemory>
    requires { AsksSound ask }
    ensures talk { MatchResult result
        (Conversation (V.limits service.old) (V.seat service.old) moment ask (V.front service.old) (V.front service.new))
        (λ _. Interrupted (V.limits service.old) (V.seat service.old) moment ask (V.front service.old) (V.front service.new)) }
    ensures seat { V.seat service.new ≡ V.seat service.old }
    ensures limits { V.limits service.new ≡ V.limits service.old }
{
    match work_of(alloc, ask)? {
        Work::One { event, label } => ask_one(alloc, service, event, label, moment),
        Work::Bulk {
            index,
            body,
            refresh,
            items,
        } => bulk(alloc, service, index, body, refresh, items, moment),
        Work::Refresh { index } => refresh_route(alloc, service, &index, moment),
    }
}

/// Answers a request: it asks the service for the events of the request, all at the moment. Memory that runs out is
/// a response too. The routes are all that are built.
pub fn respond<V: Service>(
    alloc: Global,
    service: &mut V,
    router: &Router<Resource>,
    request: Request,
    moment: Moment,
) -> Response
    requires { router.now ≡ all_routes }
    ensures responds { Responds (V.limits service.old) (V.seat service.old) moment (V.front service.old) (V.front service.new) request result }
    ensures seat { V.seat service.new ≡ V.seat service.old }
    ensures limits { V.limits service.new ≡ V.limits service.old }
{
    match routed(alloc, router, request) {
        Ok(ask) => match converse(alloc, service, ask, moment) {
            Ok(response) => response,
            Err(_) => Response::Fault(RestFault::NoMemory),
        },
        Err(fault) => Response::Fault(fault),
    }
}
