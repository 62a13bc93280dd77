//! The table of one reader: its word counts the holds, and its slot has the body until the last hold goes.
ghost use Rattle.std.specs.Arc.{arc_value};
ghost use Rattle.reader_gate.specs.Steps.{gives_back, lent, lets_go, looks, one_given, one_kept, sits, spent, taken_in};

use atomic_table::{Join, Play, Seat, Split, Table, TableRule};
use std::alloc::Global;
use std::snapshot::Snapshot;
use std::sync::Arc;

/// What a seat is for.
pub enum Role {
    Owning,
    Passing,
    /// It has let its hold go, or never had one.
    Gone,
}

/// What a seat at the table knows. No value of it is made.
pub struct View<B> {
    pub role: Role,
    /// How many holds it has.
    pub holds: u64,
    /// How often it let the last hold go, or a seat that it took in did.
    pub lasts: u64,
    /// How many lends it began.
    pub lends: u64,
    /// How many holds it let go.
    pub lets: u64,
    pub body: Option<B>,
}

/// The rule of a reader's table.
pub struct Counted;

impl<B> TableRule<Option<Arc<B>>, View<B>, Snapshot<B>> for Counted {
    ghost use Rattle.std.specs.Arc.{arc_value};
    ghost use Rattle.reader_gate.specs.Holds.{KeepsCount};
    ghost use Rattle.reader_gate.specs.Steps.{opening};

    ghost holds = { λ key. KeepsCount arc_value key.value };

    ghost first = { λ key. opening key.value };
}

pub type Gate<B> = Table<Option<Arc<B>>, View<B>, Snapshot<B>, Counted, Global>;

pub type Place<B> = Seat<Option<Arc<B>>, View<B>>;

pub struct Lend;

impl<B> Play<Option<Arc<B>>, View<B>> for Lend {
    ghost then = { lent };
}

pub struct Part;

impl<B> Split<View<B>> for Part {
    ghost left = { one_kept };

    ghost right = { one_given };
}

pub struct Leave;

impl<B> Play<Option<Arc<B>>, View<B>> for Leave {
    ghost then = { lets_go arc_value };
}

pub struct Sit;

impl<B> Play<Option<Arc<B>>, View<B>> for Sit {
    ghost then = { sits };
}

pub struct TakeIn;

impl<B> Join<View<B>> for TakeIn {
    ghost both = { taken_in };

    ghost spent = { spent };
}

pub struct Look;

impl<B> Play<Option<Arc<B>>, View<B>> for Look {
    ghost then = { looks };
}

pub struct GiveBack;

impl<B> Play<Option<Arc<B>>, View<B>> for GiveBack {
    ghost then = { gives_back };
}
