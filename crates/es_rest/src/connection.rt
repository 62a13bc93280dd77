//! One connection: its requests in turn, until its end.
ghost use Rattle.std.specs.Prelude.{◌≡◌, ◌⊎◌, ℕ, ◌+◌, ◌*◌, ◌<◌, ◌≤◌, max, List, [], Option, Some, None, IfOk, IfSome, IfNone, OnOk, OnErr};
ghost use Rattle.es_types.specs.declared.limits.TheConstants.{CONNECTION_BYTES};
ghost use Rattle.es_outside.specs.Told.{Rose};
ghost use Rattle.http_wire.specs.Stream.{Wrote, WroteSome};
ghost use Rattle.es_rest.specs.Headline.{Headline};
ghost use Rattle.es_route.specs.Resources.{all_routes};
ghost use Rattle.es_route.specs.Route.{PitSearchesShowPlaces};
ghost use Rattle.es_rest.specs.Moments.{AsksOnce};
ghost use Rattle.es_rest.specs.Talk.{Tended};
ghost use Rattle.es_rest.specs.Whole.{ServesWhole};
ghost use Rattle.reply_json.specs.Replies.{text};
ghost use Rattle.es_rest.specs.Exchanges.{Answered, ClockAnswers, Closed, Exchanged, LastGoesOn, WroteBy, words_text};

use crate::converse::respond;
use es_outside::{Clock, Link};
use es_route::{Resource, pit_searches_show_places, routes, told_moment};
use es_types::{Bytes, Moment, NoMemory};
use http_wire::{Buf, Request, WireEnd, WriteFault, next_request, write_all};
use list_machine::{Service, pages_in_turn};
use matchit::Router;
use reply_json::{Response, RestFault, no_memory_text, print};
use std::alloc::Global;

/// How a call that serves a connection ended.
#[derive(Clone, Copy)]
pub enum ConnEnd {
    /// The input ended between two requests.
    Done,
    /// The next head is refused; its response was written.
    Refused,
    ReadFault,
    WriteFault,
    /// Memory ran out while a request was read.
    NoMemory,
    /// The input ended inside a request.
    Truncated,
    /// 2^30 bytes were taken, and another one was there.
    TooMuch,
}

// The text of a response, unless memory ran out for it.
fn words_of(alloc: Global, response: Response, last: bool) -> Option<Bytes>
    ensures { IfSome result (λ bytes. bytes ≡ text response last) }
{
    print(alloc, &response, last).ok()
}

// Answers a request, with the text of its response. No text is the one that memory ran out.
fn answer<V: Service>(
    alloc: Global,
    service: &mut V,
    router: &Router<Resource>,
    request: Request,
    moment: Moment,
) -> Option<Bytes>
    requires { router.now ≡ all_routes }
    ensures answered { Answered (V.limits service.old) (V.seat service.old) moment (V.front service.old) (V.front service.new)
        request (words_text result request.last) }
    ensures seat { V.seat service.new ≡ V.seat service.old }
    ensures limits { V.limits service.new ≡ V.limits service.old }
{
    let last = request.last;
    let response = respond(alloc, service, router, request, moment);
    words_of(alloc, response, last)
}

fn write_words<L: Link>(link: &mut L, words: &Option<Bytes>, last: bool) -> Result<(), WriteFault>
    ensures wrote { WroteBy (L.written link.old) (L.written link.new) (words_text words.now last) result }
    ensures fault { OnErr result (Rose (L.write_faults link.old) (L.write_faults link.new)) }
    ensures uncounted { OnOk result (L.write_faults link.new ≡ L.write_faults link.old) }
    ensures count { L.write_faults link.old ≤ L.write_faults link.new }
    ensures left { L.left link.new ≡ L.left link.old }
    ensures read_faults { L.read_faults link.new ≡ L.read_faults link.old }
    ensures held { L.held link.new ≡ L.held link.old }
{
    match words {
        Some(bytes) => write_all(link, bytes.as_slice()),
        None => write_all(link, no_memory_text(last)),
    }
}

// What goes with a request. It is left out where the response wasn't written, and nobody is told if memory runs out in it.
fn tidy_up<V: Service>(service: &mut V, moment: Moment, written: bool)
    ensures tended { Tended V.helped V.tidied (V.limits service.old) (V.seat service.old) moment written (V.front service.old) (V.front service.new) }
    ensures seat { V.seat service.new ≡ V.seat service.old }
    ensures limits { V.limits service.new ≡ V.limits service.old }
{
    if !written {
        return;
    }
    let _ = service.help(moment);
    let _ = service.tidy(moment);
}

// Serves one request. The moment that it hands in counts where it is refused, too.
fn exchange<V: Service, L: Link, C: Clock>(
    alloc: Global,
    service: &mut V,
    link: &mut L,
    clock: &mut C,
    router: &Router<Resource>,
    request: Request,
    moment: &mut Moment,
) -> Result<(), WriteFault>
    requires { router.now ≡ all_routes }
    ensures exchanged { Exchanged V.helped V.tidied (V.limits service.old) (V.seat service.old) moment.new (V.front service.old) (V.front service.new)
        request (L.written link.old) (L.written link.new) result }
    ensures seat { V.seat service.new ≡ V.seat service.old }
    ensures limits { V.limits service.new ≡ V.limits service.old }
    ensures later { moment.old ≤ moment.new }
    ensures answered { ClockAnswers moment.old moment.new (C.greatest clock.old) (C.greatest clock.new) }
    ensures asks { AsksOnce C.asked clock.old clock.new request moment.old moment.new }
    ensures last { LastGoesOn (C.last clock.old) (C.last clock.new) request moment.old moment.new }
    ensures fault { OnErr result (Rose (L.write_faults link.old) (L.write_faults link.new)) }
    ensures uncounted { OnOk result (L.write_faults link.new ≡ L.write_faults link.old) }
    ensures count { L.write_faults link.old ≤ L.write_faults link.new }
    ensures left { L.left link.new ≡ L.left link.old }
    ensures read_faults { L.read_faults link.new ≡ L.read_faults link.old }
    ensures held { L.held link.new ≡ L.held link.old }
{
    *moment = moment.later(clock.now(told_moment(&request)));
    let last = request.last;
    let words = answer(alloc, service, router, request, *moment);
    let written = write_words(link, &words, last);
    tidy_up(service, *moment, written.is_ok());
    written
}

fn write_last<L: Link>(link: &mut L, words: &[u8], aim: ConnEnd) -> ConnEnd
    ensures wrote { ((result ≡ aim) × Wrote (L.written link.old) (L.written link.new) words.now)
        ⊎ ((result ≡ ConnEnd.WriteFault) × WroteSome (L.written link.old) (L.written link.new) words.now) }
    ensures fault { result ≡ ConnEnd.WriteFault → (aim ≡ ConnEnd.WriteFault) ⊎ Rose (L.write_faults link.old) (L.write_faults link.new) }
    ensures reported { L.write_faults link.old < L.write_faults link.new → result ≡ ConnEnd.WriteFault }
    ensures count { L.write_faults link.old ≤ L.write_faults link.new }
    ensures left { L.left link.new ≡ L.left link.old }
    ensures read_faults { L.read_faults link.new ≡ L.read_faults link.old }
    ensures held { L.held link.new ≡ L.held link.old }
{
    match write_all(link, words) {
        Ok(()) => aim,
        Err(_) => ConnEnd::WriteFault,
    }
}

// Ends a connection: a refused head has a response, and so has memory that ran out.
fn close<L: Link>(alloc: Global, link: &mut L, end: WireEnd) -> ConnEnd
    ensures closed { Closed (L.written link.old) (L.written link.new) end result }
    ensures silent { end ≡ WireEnd.ReadFault → result ≡ ConnEnd.ReadFault }
    ensures reported { L.write_faults link.old < L.write_faults link.new → result ≡ ConnEnd.WriteFault }
    ensures fault { result ≡ ConnEnd.WriteFault → Rose (L.write_faults link.old) (L.write_faults link.new) }
    ensures count { L.write_faults link.old ≤ L.write_faults link.new }
    ensures left { L.left link.new ≡ L.left link.old }
    ensures read_faults { L.read_faults link.new ≡ L.read_faults link.old }
    ensures held { L.held link.new ≡ L.held link.old }
{
    match end {
        WireEnd::Truncated => ConnEnd::Truncated,
        WireEnd::ReadFault => ConnEnd::ReadFault,
        WireEnd::TooMuch => ConnEnd::TooMuch,
        WireEnd::NoMemory => write_last(link, no_memory_text(true), ConnEnd::NoMemory),
        WireEnd::NotBuilt => match print(alloc, &Response::Fault(RestFault::NotBuilt), true) {
            Ok(words) => write_last(link, words.as_slice(), ConnEnd::Refused),
            Err(_) => write_last(link, no_memory_text(true), ConnEnd::NoMemory),
        },
    }
}

// The routes, and a buffer for what is read.
fn start(alloc: Global) -> Result<(Router<Resource>, Buf), NoMemory>
    ensures routes { IfOk result (λ parts. parts.0 ≡ all_routes) }
    ensures buf { IfOk result (λ parts. parts.1 ≡ record { bytes = []; room = CONNECTION_BYTES }) }
{
    let router = routes(alloc)?;
    let buf = Buf::make(alloc)?;
    Ok((router, buf))
}

// Serves the requests of a link until its end.
fn serve_requests<V: Service, L: Link, C: Clock>(
    alloc: Global,
    service: &mut V,
    link: &mut L,
    clock: &mut C,
) -> ConnEnd
    ensures headline { Headline V.helped V.tidied (V.limits service.old) (V.seat service.old) (V.front service.old) (V.front service.new)
        (L.left link.old) (L.left link.new) (L.written link.old) (L.written link.new) C.asked clock.old clock.new (C.last clock.old) (C.greatest clock.old) (C.greatest clock.new) result }
    ensures read_fault { result ≡ ConnEnd.ReadFault → Rose (L.read_faults link.old) (L.read_faults link.new) }
    ensures write_fault { result ≡ ConnEnd.WriteFault → Rose (L.write_faults link.old) (L.write_faults link.new) }
    ensures read_reported { L.read_faults link.old < L.read_faults link.new → result ≡ ConnEnd.ReadFault }
    ensures write_reported { L.write_faults link.old < L.write_faults link.new → result ≡ ConnEnd.WriteFault }
    ensures seat { V.seat service.new ≡ V.seat service.old }
    ensures limits { V.limits service.new ≡ V.limits service.old }
    ensures held { L.held link.new ≡ L.held link.old }
{
    pages_in_turn();
    let (router, mut buf) = match start(alloc) {
        Ok(parts) => parts,
        Err(_) => return close(alloc, link, WireEnd::NoMemory),
    };
    let mut moment = Moment::zero();
    'requests: loop {
        match next_request(alloc, link, &mut buf) {
            Ok(Some(request)) => {
                match exchange(alloc, service, link, clock, &router, request, &mut moment) {
                    Ok(()) => {}
                    Err(_) => return ConnEnd::WriteFault,
                }
            }
            Ok(None) => return ConnEnd::Done,
            Err(end) => return close(alloc, link, end),
        }
    }
}

/// Serves the requests of a link until its end: each request is read, answered by the service, and its response
/// written. A fault of the link ends the call.
pub fn serve_connection<V: Service, L: Link, C: Clock>(
    alloc: Global,
    service: &mut V,
    link: &mut L,
    clock: &mut C,
) -> ConnEnd
    // Each response is what a plain machine of one thread over lists answers at that request's place in one
    // history; so pages taken in turn are a prefix of the sorted matching documents, and all of them at the end.
    ensures headline { Headline V.helped V.tidied (V.limits service.old) (V.seat service.old) (V.front service.old) (V.front service.new)
        (L.left link.old) (L.left link.new) (L.written link.old) (L.written link.new) C.asked clock.old clock.new (C.last clock.old) (C.greatest clock.old) (C.greatest clock.new) result }
    // What is left, where it is whole requests, is answered wholly.
    ensures complete { ServesWhole V.helped V.tidied (V.limits service.old) (V.seat service.old) (V.front service.old) (V.front service.new)
        (L.left link.old) (L.left link.new) (L.written link.old) (L.written link.new) C.asked clock.old clock.new (C.last clock.old) (C.greatest clock.old) (C.greatest clock.new)
        (L.read_faults link.old) (L.read_faults link.new) (L.write_faults link.old) (L.write_faults link.new) result }
    // Each request that searches a point in time asks for the place of each hit.
    ensures shows { PitSearchesShowPlaces }
    // A fault is answered only where the count rose, and wherever it rose.
    ensures read_fault { result ≡ ConnEnd.ReadFault → Rose (L.read_faults link.old) (L.read_faults link.new) }
    ensures write_fault { result ≡ ConnEnd.WriteFault → Rose (L.write_faults link.old) (L.write_faults link.new) }
    ensures read_reported { L.read_faults link.old < L.read_faults link.new → result ≡ ConnEnd.ReadFault }
    ensures write_reported { L.write_faults link.old < L.write_faults link.new → result ≡ ConnEnd.WriteFault }
    ensures seat { V.seat service.new ≡ V.seat service.old }
    ensures limits { V.limits service.new ≡ V.limits service.old }
    ensures held { L.held link.new ≡ L.held link.old }
{
    pit_searches_show_places();
    serve_requests(alloc, service, link, clock)
}
