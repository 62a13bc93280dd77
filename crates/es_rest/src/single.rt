//! Requests of one event.
ghost use Rattle.std.specs.Prelude.{◌≡◌, MatchResult};
ghost use Rattle.list_machine.specs.Serving.{IsAskable};
ghost use Rattle.es_route.specs.declared.ask.Ask.{Ask};
ghost use Rattle.es_rest.specs.Led.{IsLabel};
ghost use Rattle.es_rest.specs.Talk.{Conversation, Interrupted, settled, status_of};

use crate::label::Label;
use crate::refresh::refresh_all;
use crate::refusal::refusal;
use es_types::{Moment, NoMemory};
use list_machine::{Event, Reply, Service};
use reply_json::{Response, RestFault, RouteName, closed_status, wrote_status};
use std::alloc::Global;

fn status_of(reply: &Reply) -> u16
    ensures { result ≡ status_of reply.now }
{
    match reply {
        Reply::Wrote { result, seq: _ } => wrote_status(*result),
        Reply::Closed { freed } => closed_status(*freed),
        _ => 200,
    }
}

/// What a reply on a route is answered, unless it was refused.
pub fn settle(refused: Option<RestFault>, reply: Reply, route: RouteName) -> Response
    ensures { result ≡ settled refused reply route }
{
    match refused {
        Some(fault) => Response::Fault(fault),
        None => Response::Json {
            status: status_of(&reply),
            reply,
            route,
        },
    }
}

/// Asks for the one event of a request, and for a refresh where it was taken.
pub fn ask_one<V: Service>(
    alloc: Global,
    service: &mut V,
    event: Event,
    label: Label,
    moment: Moment,
) -> Result<Response, NoMemory>
    requires { IsAskable (V.limits service.old) (V.front service.old) event }
    ensures talk { (ask : Ask) → IsLabel ask event label.names label.route label.refreshed.items → MatchResult result
        (Conversation (V.limits service.old) (V.seat service.old) moment ask (V.front service.old) (V.front service.new))
        (λ _. Interrupted (V.limits service.old) (V.seat service.old) moment ask (V.front service.old) (V.front service.new)) }
    ensures seat { V.seat service.new ≡ V.seat service.old }
    ensures limits { V.limits service.new ≡ V.limits service.old }
{
    let reply = service.ask(event, moment)?;
    match refusal(label.names, &reply) {
        Some(fault) => return Ok(Response::Fault(fault)),
        None => {}
    }
    let refused = refresh_all(alloc, service, &label.refreshed, moment)?;
    Ok(settle(refused, reply, label.route))
}
