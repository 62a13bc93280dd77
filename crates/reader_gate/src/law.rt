//! A reader that has ended has no holder, and isn't ended twice.
ghost use Rattle.std.specs.Prelude.{◌≡◌, ◌⊎◌, ◌<◌, [], ℕ};
ghost use Rattle.reader_gate.specs.Ends.{EndsAtLast, EndsOnce, LetsOneGo};

use crate::ended::Ended;
use crate::gate::{Gate, GiveBack, Look, Place, Sit, TakeIn};
use crate::owner::Owner;
use crate::pass::Pass;
use std::mem;

/// Whatever threads do, where one had a reader's last hold, nobody has a hold, and no other had the last one; and where nobody
/// has a hold, one had the last. A seat that let one hold go took it from the word. `A` is what the slot has.
pub fn a_reader_ends_once<A, B>()
    ensures once { (told : A → B) → EndsOnce told }
    ensures at_last { (told : A → B) → EndsAtLast told }
    ensures lets_go { (told : A → B) → LetsOneGo told }
{}

/// A seat that had the last hold, next to one that has a hold or had the last one too: the one takes the other in, and looks.
pub fn meet<B: Drop>(gate: &Gate<B>, ended: &mut Place<B>, other: &mut Place<B>)
    requires here { (ended.old.table_id ≡ gate.now.shared.table_id) × (other.old.table_id ≡ gate.now.shared.table_id) × (gate.now.shared.table_id.words ≡ 1) }
    requires last { (0 < ended.old.me.0.lasts) × ((0 < other.old.me.0.holds) ⊎ (0 < other.old.me.0.lasts)) }
    requires empty { other.old.me.1 ≡ [] }
    ensures { ⊥ }
{
    let shared = &gate.shared;
    let (_, fresh) = shared.load_new_seat::<Sit>(0);
    let moved = mem::replace(other, fresh);
    shared.join_seat::<TakeIn>(ended, moved);
    shared.load::<Look>(ended, 0);
}

/// While a pass is out, its reader hasn't ended: the two are never there at once, so what is done with both is never done.
pub fn no_end_beside_a_pass<B: Drop>(pass: &mut Pass<B>, ended: &mut Ended<B>)
    requires { pass.old.reader ≡ ended.old.reader }
    ensures { ⊥ }
{
    pass.hold.meets(ended);
}

/// Nor while its owner isn't shut.
pub fn no_end_beside_an_owner<B: Drop>(owner: &mut Owner<B>, ended: &mut Ended<B>)
    requires { owner.old.reader ≡ ended.old.reader }
    ensures { ⊥ }
{
    owner.hold.meets(ended);
}

/// Nor does it end twice.
pub fn no_second_end<B: Drop>(ended: &mut Ended<B>, other: &mut Ended<B>)
    requires { ended.old.reader ≡ other.old.reader }
    ensures { ⊥ }
{
    ended.gate.shared.load::<GiveBack>(&mut other.seat, 0);
    meet(&ended.gate, &mut ended.seat, &mut other.seat);
}
