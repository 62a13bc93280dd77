//! The texts of ids in responses.
ghost use Rattle.std.specs.Prelude.{◌≡◌, IfOk};
ghost use Rattle.reply_json.specs.Ids.{id_text};

use ctx_ids::{ContextId, Kind};
use es_types::{NoMemory, Text};
use std::alloc::Global;

/// The text of an id of that kind, from its number.
pub fn id_text(alloc: Global, kind: Kind, number: u64) -> Result<Text, NoMemory>
    ensures { IfOk result (λ text. text ≡ id_text kind number) }
{
    let id = ContextId { kind, number };
    id.to_text(alloc)
}
