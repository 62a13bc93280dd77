//! What requests for points in time ask for.
ghost use Rattle.std.specs.Prelude.{◌≡◌, None, IfOk};
ghost use Rattle.search_json.specs.Pits.{pit_close_of};
ghost use Rattle.es_route.specs.Answers.{Answers};
ghost use Rattle.es_route.specs.Pits.{closing_asked, closing_of, opening_asked, opening_of, pit_number};
ghost use Rattle.es_route.specs.Route.{AsksSound};

use crate::ask::Ask;
use crate::bodies::empty_body;
use crate::limits::{body_fault, first_with, index_name, told};
use crate::paths::index_in;
use crate::values::{Key, needed, read_params};
use ctx_ids::{ContextId, Kind};
use es_types::{Fail, KeepAlive, LimitName, Text};
use http_wire::Request;
use reply_json::RestFault;
use search_json::read_pit_close;
use std::alloc::Global;

fn opening_of(index: Text, keep: Option<KeepAlive>) -> Result<Ask, RestFault>
    ensures answer { result ≡ opening_of index keep }
    ensures sound { IfOk result AsksSound }
{
    match keep {
        None => {
            let name = first_with(index_name(index), LimitName::KeepAlive);
            Err(RestFault::Limit(name))
        }
        Some(keep) => Ok(Ask::OpenPit {
            index: told(index_name(index))?,
            keep,
        }),
    }
}

/// Which index gets a point in time, and how long that is kept.
pub fn opening_asked(alloc: Global, request: &Request) -> Result<Ask, RestFault>
    ensures answer { Answers result (opening_asked request.now) }
    ensures sound { IfOk result AsksSound }
{
    let index = index_in(alloc, request)?;
    let values = read_params(alloc, &[Key::KeepAlive], request)?;
    let keep = needed(alloc, Key::KeepAlive, values.keep)?;
    empty_body(alloc, request)?;
    opening_of(index, keep)
}

/// The number of a point in time; an id of another kind has 0, which none has.
pub fn pit_number(id: ContextId) -> u64
    ensures { result ≡ pit_number id }
{
    match id.kind {
        Kind::Pit => id.number,
        _ => 0,
    }
}

fn closing_of(alloc: Global, body: &[u8]) -> Result<Ask, RestFault>
    ensures answer { Answers result (closing_of (pit_close_of body.now)) }
    ensures sound { IfOk result AsksSound }
{
    match read_pit_close(alloc, body) {
        Ok(id) => Ok(Ask::ClosePit {
            number: pit_number(id),
        }),
        Err(Fail::Is(fault)) => Err(body_fault(fault)),
        Err(Fail::NoMemory) => Err(RestFault::NoMemory),
    }
}

/// Which point in time is closed.
pub fn closing_asked(alloc: Global, request: &Request) -> Result<Ask, RestFault>
    ensures answer { Answers result (closing_asked request.now) }
    ensures sound { IfOk result AsksSound }
{
    read_params(alloc, &[], request)?;
    closing_of(alloc, request.body.as_slice())
}
