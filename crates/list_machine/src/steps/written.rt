//! Which ids operations write, and which operation is the last of its id.
ghost use Rattle.std.specs.Prelude.{◌≡◌, ◌||◌, ℕ, List, not, bytes_eq, IfOk, OnOk, OnErr};
ghost use Rattle.std.specs.BTreeSet.{contains_text};
ghost use Rattle.list_machine.specs.Seen.Lasts.{AreLasts};
ghost use Rattle.list_machine.specs.State.{id_of};

use es_types::{DocId, NoMemory, Op};
use std::alloc::Global;
use std::collections::BTreeSet;

/// What operations are applied by: their ids, and for each whether it is the last one of its id.
#[derive(Drop)]
pub struct Lasts {
    pub ids: BTreeSet<String>,
    pub last: Vec<bool>,
}

/// Goes through the operations from the last to the first: the first one that is met of an id is its last.
pub fn lasts_of(alloc: Global, ops: &[Op]) -> Result<Lasts, NoMemory>
    ensures { IfOk result (AreLasts ops.now) }
{
    let mut ids = BTreeSet::new(alloc);
    let mut last = Vec::with_capacity(alloc, ops.len())?;
    for i in (0..ops.len()).rev() {
        last.push(enter(alloc, &mut ids, id_of(&ops[i]))?)?;
    }
    last.reverse();
    Ok(Lasts { ids, last })
}

/// Enters an id, and says whether it is new.
pub fn enter(alloc: Global, ids: &mut BTreeSet<String>, id: &DocId) -> Result<bool, NoMemory>
    ensures is_new { IfOk result (λ it. it ≡ not (contains_text ids.old id.now)) }
    ensures after { OnOk result ((other : List ℕ) → contains_text ids.new other ≡ (bytes_eq id.now other || contains_text ids.old other)) }
    ensures err { OnErr result ((other : List ℕ) → contains_text ids.new other ≡ contains_text ids.old other) }
{
    let text = id.text().as_str();
    if ids.contains(text) {
        return Ok(false);
    }
    ids.insert(String::from_str(alloc, text)?)?;
    Ok(true)
}

/// The id of the document that an operation is of.
pub fn id_of(op: &Op) -> &DocId
    ensures { result.now ≡ id_of op.now }
{
    match op {
        Op::Put { id, .. } => id,
        Op::Remove { id } => id,
    }
}
