//! Searches of an index as it is now.
ghost use Rattle.std.specs.Prelude.{◌≡◌, IfOk, option_map};
ghost use Rattle.list_machine.specs.declared.event.Event.TheVariants.{Search};
ghost use Rattle.list_machine.specs.Changes.{Moves};
ghost use Rattle.list_machine.specs.Run.{IsWithinLimits};
ghost use Rattle.list_machine.specs.State.{index_of, view_of};
ghost use Rattle.list_machine.specs.Step.{happen};
ghost use Rattle.es_core.specs.Plans.{CanAnswer, IsOfView, IsPlanned, turned_reply};

use crate::catalog::Catalog;
use crate::planning::page_of;
use crate::turned::Turned;
use es_types::{IndexName, NoMemory};
use list_machine::{Reply, SearchRequest, Target, refused};
use std::alloc::Global;

/// Plans a search of an index as it is now.
pub fn search_index(
    alloc: Global,
    catalog: &mut Catalog,
    name: &IndexName,
    request: &SearchRequest,
) -> Result<Turned, NoMemory>
    requires { IsWithinLimits request.now }
    ensures ok { IfOk result (λ turned. Moves (λ state. happen state (Search (Target.Index name.now) request.now)) catalog.old catalog.new (turned_reply turned)) }
    ensures runs { IfOk result CanAnswer }
    ensures planned { IfOk result (IsPlanned request.now) }
    ensures view { IfOk result (IsOfView (option_map view_of (index_of name.now catalog.old))) }
    ensures same { catalog.new ≡ catalog.old }
{
    let Some(mapping) = catalog.mapping(name) else {
        return Ok(Turned::Now(Reply::NoIndex));
    };
    if let Some(refused) = refused(mapping, request) {
        return Ok(Turned::Now(refused));
    }
    let Some(view) = catalog.view(name)? else {
        return Ok(Turned::Now(Reply::NoIndex));
    };
    Ok(Turned::Later(page_of(alloc, view, request)?))
}
