//! The first holder of a reader, which lends holds to others.
ghost use Rattle.std.specs.Prelude.{◌≡◌, ◌+◌, ◌^◌, ◌<◌, IfOk, IfErr, IfSome};
ghost use Rattle.std.specs.Arc.{arc_value};
ghost use Rattle.reader_gate.specs.Steps.{opening};

use crate::ended::Ended;
use crate::gate::Gate;
use crate::hold::Hold;
use crate::pass::Pass;
use atomic_table::{Refused, Table};
use std::alloc::{AllocError, Global};
use std::marker::Model;
use std::snapshot::Snapshot;
use std::sync::Arc;

/// The owner's hold on a reader. Dropping it lets the hold go. Contracts see the reader, the seat, the body and how
/// many passes were lent.
pub struct Owner<B: Drop> {
    body: Arc<B>,
    pub(crate) hold: Hold<B>,
    lent: u64,
}

impl<B: Drop> Model for Owner<B> {
    ghost use Rattle.std.specs.Prelude.{◌≡◌, Some};
    ghost use Rattle.std.specs.Arc.{arc_value};
    ghost use Rattle.reader_gate.specs.Readers.{Owned, owned_coded};
    ghost use Rattle.reader_gate.specs.declared.gate.Role.TheVariants.{Owning};

    ghost Value = { Owned B };

    ghost coded = { owned_coded B.code };

    ghost view = { λ o. record { reader = o.hold.seat.table_id; seat = o.hold.seat.id; body = arc_value o.body; lent = o.lent } };

    ghost invariant = { λ o. (o.hold.seat.me.0.role ≡ Owning) × (o.hold.seat.me.0.lends ≡ o.lent) × (o.hold.seat.me.0.body ≡ Some (arc_value o.body)) };
}

// The table of a new reader, and its first hold.
fn open<B: Drop>(alloc: Global, body: Arc<B>) -> Result<Hold<B>, AllocError>
    ensures { IfOk result (λ h. h.seat.me.0 ≡ opening (arc_value body)) }
{
    let about = Snapshot::of(&*body);
    let mut slots = Vec::with_capacity(alloc, 1)?;
    slots.push_reserved(Some(body));
    match Table::new(alloc, &[1], slots, &about) {
        Ok((table, seat)) => {
            let gate: Arc<Gate<B>> = Arc::new(alloc, table)?;
            Ok(Hold::first(gate, seat))
        }
        Err(Refused { slots: _ }) => Err(AllocError),
    }
}

/// A reader of that body, which its owner holds. `Err` says only that memory ran out, and has the body.
pub fn make_reader<B: Drop>(alloc: Global, body: Arc<B>) -> Result<Owner<B>, Arc<B>>
    ensures made { IfOk result (λ o. (o.body ≡ arc_value body) × (o.lent ≡ 0)) }
    ensures back { IfErr result (λ b. b ≡ body) }
{
    let Ok(slot) = Arc::try_clone(&body) else {
        return Err(body);
    };
    match open(alloc, slot) {
        Ok(hold) => Ok(Owner {
            body,
            hold,
            lent: 0,
        }),
        Err(AllocError) => Err(body),
    }
}

impl<B: Drop> Owner<B> {
    /// How many passes were lent so far.
    pub fn lent(&self) -> u64
        ensures { result ≡ self.now.lent }
    {
        self.lent
    }

    /// A pass with a hold of its own. Where memory ran out the holds are as before.
    pub fn lend(&mut self, alloc: Global) -> Result<Pass<B>, AllocError>
        requires { self.old.lent < 2 ^ 53 }
        ensures pass { IfOk result (λ p. (p.reader ≡ self.old.reader) × (p.body ≡ self.old.body)) }
        ensures owner { IfOk result (λ _. self.new ≡ record self.old { lent = self.old.lent + 1 }) }
        ensures same { IfErr result (λ _. self.new ≡ self.old) }
    {
        let _ = alloc;
        let body = Arc::try_clone(&self.body)?;
        let hold = self.hold.lend()?;
        self.lent += 1;
        Ok(Pass { body, hold })
    }

    /// The body of the reader.
    pub fn body(&self) -> &B
        ensures { result.now ≡ self.now.body }
    {
        &self.body
    }

    /// Lets the hold go. `Some` comes exactly where it was the reader's last one: that it comes there, tests alone show.
    pub fn shut(self) -> Option<Ended<B>>
        ensures { IfSome result (λ e. (e.reader ≡ self.reader) × (e.seat ≡ self.seat) × (e.body ≡ self.body)) }
    {
        let Owner {
            body: _,
            hold,
            lent: _,
        } = self;
        hold.let_go().ok()
    }
}

impl<B: Drop> Drop for Owner<B> {
    fn drop(self) {
        let Self {
            body: _,
            hold,
            lent: _,
        } = self;
        drop(hold.end());
    }
}
