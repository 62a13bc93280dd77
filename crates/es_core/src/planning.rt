//! The plans of searches.
ghost use Rattle.std.specs.Prelude.{◌≡◌, IfOk};
ghost use Rattle.std.specs.Arc.{arc_value};
ghost use Rattle.es_core.specs.Plans.{IsFirstPage, first_page};

use crate::contexts::shut;
use crate::turned::Plan;
use context_book::{PageEnd, View};
use es_types::{Copied, NoMemory};
use list_machine::SearchRequest;
use reader_gate::{Pass, make_reader};
use std::alloc::Global;
use std::sync::Arc;

/// The plan of a search: a page with none before it.
pub fn page(pass: Pass<View>, request: SearchRequest) -> Plan
    ensures { result ≡ first_page pass request }
{
    let end = PageEnd {
        pages: 0,
        after: None,
    };
    Plan::Page {
        pass,
        request,
        pages: 0,
        end,
        number: 0,
    }
}

/// The plan of a search of a view that no context keeps: a reader of its own, whose owner goes at once.
pub fn page_of(alloc: Global, view: Arc<View>, request: &SearchRequest) -> Result<Plan, NoMemory>
    ensures { IfOk result (IsFirstPage (arc_value view) request.now) }
{
    let request = request.copy(alloc)?;
    let Ok(mut owner) = make_reader(alloc, view) else {
        return Err(NoMemory);
    };
    let lent = owner.lend(alloc);
    shut(owner);
    Ok(page(lent?, request))
}
