//! A holder to which an owner lent a hold.
ghost use Rattle.std.specs.Prelude.{◌≡◌, IfSome};

use crate::ended::Ended;
use crate::hold::Hold;
use std::marker::Model;
use std::sync::Arc;

/// One hold on a reader, lent by its owner. Dropping it lets the hold go. Contracts see the reader, the seat and
/// the body.
pub struct Pass<B: Drop> {
    pub(crate) body: Arc<B>,
    pub(crate) hold: Hold<B>,
}

impl<B: Drop> Model for Pass<B> {
    ghost use Rattle.std.specs.Prelude.{◌≡◌, Some};
    ghost use Rattle.std.specs.Arc.{arc_value};
    ghost use Rattle.reader_gate.specs.Readers.{Held, held_coded};
    ghost use Rattle.reader_gate.specs.declared.gate.Role.TheVariants.{Passing};

    ghost Value = { Held B };

    ghost coded = { held_coded B.code };

    ghost view = { λ p. record { reader = p.hold.seat.table_id; seat = p.hold.seat.id; body = arc_value p.body } };

    ghost invariant = { λ p. (p.hold.seat.me.0.role ≡ Passing) × (p.hold.seat.me.0.body ≡ Some (arc_value p.body)) };
}

impl<B: Drop> Pass<B> {
    /// The body of the reader.
    pub fn body(&self) -> &B
        ensures { result.now ≡ self.now.body }
    {
        &self.body
    }

    /// Lets the hold go. `Some` comes exactly where it was the reader's last one: that it comes there, tests alone show.
    pub fn leave(self) -> Option<Ended<B>>
        ensures { IfSome result (λ e. (e.reader ≡ self.reader) × (e.seat ≡ self.seat) × (e.body ≡ self.body)) }
    {
        let Pass { body: _, hold } = self;
        hold.let_go().ok()
    }
}

impl<B: Drop> Drop for Pass<B> {
    fn drop(self) {
        let Self { body: _, hold } = self;
        drop(hold.end());
    }
}
