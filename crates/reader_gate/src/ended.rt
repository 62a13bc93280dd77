//! A reader that has ended.
ghost use Rattle.std.specs.Prelude.{◌≡◌};
ghost use Rattle.std.specs.Arc.{arc_value};

use crate::gate::{Gate, Place};
use std::marker::Model;
use std::sync::Arc;

/// The body of a reader that has ended. Contracts see the reader, the seat that let its last hold go, and the body.
#[derive(Drop)]
pub struct Ended<B: Drop> {
    pub(crate) body: Arc<B>,
    pub(crate) gate: Arc<Gate<B>>,
    pub(crate) seat: Place<B>,
}

impl<B: Drop> Model for Ended<B> {
    ghost use Rattle.std.specs.Prelude.{◌≡◌, ◌∷◌, [], None};
    ghost use Rattle.std.specs.Arc.{arc_value};
    ghost use Rattle.reader_gate.specs.Readers.{Held, held_coded};

    ghost Value = { Held B };

    ghost coded = { held_coded B.code };

    ghost view = { λ e. record { reader = e.seat.table_id; seat = e.seat.id; body = arc_value e.body } };

    ghost invariant = { λ e. (e.seat.table_id ≡ (arc_value e.gate).shared.table_id) × (e.seat.table_id.words ≡ 1) × (e.seat.table_id.slots ≡ 1) × (e.seat.me.0.lasts ≡ 1) × (e.seat.me.0.lets ≡ 1) × (e.seat.me.1 ≡ (0, None) ∷ []) };
}

impl<B: Drop> Ended<B> {
    /// The body.
    pub fn spend(self) -> Arc<B>
        ensures { arc_value result ≡ self.body }
    {
        let Ended {
            body,
            gate: _,
            seat: _,
        } = self;
        body
    }
}
