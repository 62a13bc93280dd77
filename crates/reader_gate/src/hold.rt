//! A hold on a reader, and how it is let go.
ghost use Rattle.std.specs.Prelude.{◌≡◌, ℕ, ◌+◌, ◌^◌, ◌<◌, [], ◌∷◌, IfOk, IfErr, MatchOption, Some, None};
ghost use Rattle.std.specs.Arc.{arc_value};
ghost use Rattle.reader_gate.specs.declared.gate.Role.TheVariants.{Owning, Passing};

use crate::ended::Ended;
use crate::gate::{Gate, Leave, Lend, Part, Place};
use crate::law::meet;
use std::alloc::AllocError;
use std::sync::Arc;

/// One hold. It is not `Drop`, and its fields are this file's: it ends by `let_go` or `end`.
pub struct Hold<B> {
    gate: Arc<Gate<B>>,
    seat: Place<B>,
    ghost seated: { seat.table_id ≡ (arc_value gate).shared.table_id },
    ghost sized: { (seat.table_id.words ≡ 1) × (seat.table_id.slots ≡ 1) },
    ghost one: { (seat.me.0.holds ≡ 1) × (seat.me.0.lasts ≡ 0) × (seat.me.0.lets ≡ 0) × (seat.me.1 ≡ []) },
}

/// A seat that let its hold go.
#[derive(Drop)]
pub struct Spent<B> {
    seat: Place<B>,
    ghost none: { (seat.me.0.holds ≡ 0) × (seat.me.0.lets ≡ 1) },
}

// Takes one hold, the seat's own, from the word. Where that was the last one, the seat takes the body out of the slot.
fn leave<B: Drop>(gate: &Gate<B>, seat: &mut Place<B>) -> Option<Arc<B>>
    requires here { (seat.old.table_id ≡ gate.now.shared.table_id) × (gate.now.shared.table_id.words ≡ 1) }
    requires one { (seat.old.me.0.holds ≡ 1) × (seat.old.me.0.lasts ≡ 0) × (seat.old.me.0.lets ≡ 0) × (seat.old.me.1 ≡ []) }
    ensures same { (seat.new.table_id ≡ seat.old.table_id) × (seat.new.id ≡ seat.old.id) }
    ensures gone { (seat.new.me.0.holds ≡ 0) × (seat.new.me.0.lets ≡ 1) × (seat.new.me.0.lends ≡ seat.old.me.0.lends) }
    ensures last { MatchOption result ((seat.new.me.0.lasts ≡ 0) × (seat.new.me.1 ≡ [])) (λ a. (seat.new.me.0.lasts ≡ 1) × (seat.new.me.1 ≡ (0, None) ∷ []) × ((b : B) → seat.old.me.0.body ≡ Some b → arc_value a ≡ b)) }
{
    if gate.shared.fetch_sub::<Leave>(seat, 0, 1) == 1 {
        return gate.shared.exchange(seat, 0, None);
    }
    None
}

impl<B: Drop> Hold<B> {
    /// The first hold of a new reader.
    pub fn first(gate: Arc<Gate<B>>, seat: Place<B>) -> Hold<B>
        requires seated { seat.table_id ≡ (arc_value gate).shared.table_id }
        requires sized { (seat.table_id.words ≡ 1) × (seat.table_id.slots ≡ 1) }
        requires one { (seat.me.0.holds ≡ 1) × (seat.me.0.lasts ≡ 0) × (seat.me.0.lets ≡ 0) × (seat.me.1 ≡ []) }
        ensures { result.seat ≡ seat }
    {
        Hold { gate, seat }
    }

    /// Takes one hold more, and gives it to a new seat.
    pub fn lend(&mut self) -> Result<Hold<B>, AllocError>
        requires owner { self.old.seat.me.0.role ≡ Owning }
        requires few { self.old.seat.me.0.lends < 2 ^ 53 }
        ensures kept { IfOk result (λ _. (self.new.seat.table_id ≡ self.old.seat.table_id) × (self.new.seat.id ≡ self.old.seat.id) × (self.new.seat.me.0 ≡ record self.old.seat.me.0 { lends = self.old.seat.me.0.lends + 1 })) }
        ensures given { IfOk result (λ h. (h.seat.table_id ≡ self.old.seat.table_id) × (h.seat.me.0.role ≡ Passing) × (h.seat.me.0.body ≡ self.old.seat.me.0.body)) }
        ensures same { IfErr result (λ _. self.new ≡ self.old) }
    {
        let gate = Arc::try_clone(&self.gate)?;
        let shared = &gate.shared;
        shared.fetch_add::<Lend>(&mut self.seat, 0, 1);
        let seat = shared.split_seat::<Part>(&mut self.seat);
        Ok(Hold { gate, seat })
    }

    /// Lets the hold go. `Ok` comes exactly where it was the last one.
    pub fn let_go(self) -> Result<Ended<B>, Spent<B>>
        ensures ended { IfOk result (λ e. (e.reader ≡ self.seat.table_id) × (e.seat ≡ self.seat.id) × ((b : B) → self.seat.me.0.body ≡ Some b → e.body ≡ b)) }
        ensures spent { IfErr result (λ s. (s.seat.table_id ≡ self.seat.table_id) × (s.seat.id ≡ self.seat.id) × (s.seat.me.0.lasts ≡ 0) × (s.seat.me.0.lends ≡ self.seat.me.0.lends)) }
    {
        let Hold { gate, mut seat } = self;
        match leave(&gate, &mut seat) {
            Some(body) => Ok(Ended { body, gate, seat }),
            None => Err(Spent { seat }),
        }
    }

    /// Lets the hold go, as a drop does: where it was the last one, the body is dropped.
    pub fn end(self) -> Spent<B>
        ensures { (result.seat.table_id ≡ self.seat.table_id) × (result.seat.id ≡ self.seat.id) × (result.seat.me.0.lends ≡ self.seat.me.0.lends) }
    {
        let Hold { gate, mut seat } = self;
        drop(leave(&gate, &mut seat));
        Spent { seat }
    }

    /// No reader that has ended has a hold.
    pub fn meets(&mut self, ended: &mut Ended<B>)
        requires { self.old.seat.table_id ≡ ended.old.reader }
        ensures { ⊥ }
    {
        meet(&ended.gate, &mut ended.seat, &mut self.seat);
    }
}
