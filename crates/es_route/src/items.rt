//! The items of a bulk, and what each asks for.
ghost use Rattle.std.specs.Prelude.{All, IfOk, option_map};
ghost use Rattle.doc_json.specs.Bulks.{KindLiesIn, LiesIn, change_of, item_of};
ghost use Rattle.list_machine.specs.declared.event.Limits.{Limits};
ghost use Rattle.list_machine.specs.Run.{History};
ghost use Rattle.list_machine.specs.Serving.{IsAskable};
ghost use Rattle.es_route.specs.Answers.{Answers};
ghost use Rattle.es_route.specs.Items.{PutsObjectChange, actions_of, checked, read_change, write_of};

use crate::limits::{body_fault, named};
use doc_json::{ActionKind, BulkAction, next_action, read_doc};
use es_types::{Copied, Fail, Items, Text};
use list_machine::{Change, Event};
use reply_json::RestFault;
use std::alloc::Global;

/// The actions that a bulk's body is. Their document lines aren't read yet.
pub fn actions_of(
    alloc: Global,
    index: Option<&Text>,
    body: &[u8],
) -> Result<Items<BulkAction>, RestFault>
    ensures answer { Answers result (checked (actions_of (option_map (λ name. name.now) index.entry) body.now)) }
    ensures within { IfOk result (All (LiesIn body.now)) }
{
    let mut actions = Vec::new(alloc);
    let mut at = 0;
    'items: loop {
        match next_action(alloc, body, at, index) {
            Ok(Some(action)) => {
                at = action.next;
                actions.reserve(1)?;
                actions.push_reserved(action);
            }
            Ok(None) => return Ok(Items::of(actions)),
            Err(Fail::Is(fault)) => return Err(body_fault(fault)),
            Err(Fail::NoMemory) => return Err(RestFault::NoMemory),
        }
    }
}

// What an item does to its document.
fn read_change(alloc: Global, body: &[u8], kind: ActionKind) -> Result<Change, RestFault>
    requires { KindLiesIn body.now kind }
    ensures answer { Answers result (read_change (change_of body.now kind)) }
    ensures object { IfOk result PutsObjectChange }
{
    match kind {
        ActionKind::Put(line) => match read_doc(alloc, line.of(body)) {
            Ok(doc) => Ok(Change::Put(doc)),
            Err(Fail::Is(fault)) => Err(body_fault(fault)),
            Err(Fail::NoMemory) => Err(RestFault::NoMemory),
        },
        ActionKind::Remove => Ok(Change::Remove),
    }
}

/// The Write that an item of a body asks for, or why it is refused by itself. It reads the document's line.
pub fn write_of(alloc: Global, body: &[u8], action: &BulkAction) -> Result<Event, RestFault>
    requires { LiesIn body.now action.now }
    ensures answer { Answers result (write_of (item_of body.now action.now)) }
    ensures askable { IfOk result (λ event. (limits : Limits) (history : History) → IsAskable limits history event) }
{
    let change = read_change(alloc, body, action.kind)?;
    let (index, id) = named(action.index.copy(alloc)?, action.id.copy(alloc)?)?;
    Ok(Event::Write { index, id, change })
}
