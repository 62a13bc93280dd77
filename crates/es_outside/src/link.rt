//! A source and a sink together.
ghost use Rattle.std.specs.Prelude.{◌≡◌, ℕ, ◌<◌, ◌≤◌, List, [], ◌∷◌, length, Option, IfOk, OnOk, OnErr};
ghost use Rattle.es_outside.specs.Told.{Gives, Rose, Takes};

use crate::{Failed, Sink, Source};

/// A connection: bytes come from it and go to it.
pub trait Link {
    /// The bytes that are left, where that is told. What is told at one call is told at all later ones.
    ghost left: { Self → Option (List ℕ) };

    /// The bytes that were written, where that is told. What is told at one call is told at all later ones.
    ghost written: { Self → Option (List ℕ) };

    /// How often a read failed.
    ghost read_faults: { Self → ℕ };

    /// How often a write failed.
    ghost write_faults: { Self → ℕ };

    /// The references that it goes through, by their ghost names. No call changes which they are, so that a
    /// caller who lent something to a link learns what became of it.
    ghost held: { Self → List ℕ };

    /// How many first bytes of the room were filled. None are at the end of input.
    fn read(&mut self, room: &mut [u8]) -> Result<usize, Failed>
        requires { 0 < length room.old }
        ensures within { IfOk result (λ count. count ≤ length room.old) }
        ensures bytes { IfOk result (λ count. Gives (left self.old) (left self.new) room.new count) }
        ensures count { read_faults self.old ≤ read_faults self.new }
        ensures uncounted { OnOk result (read_faults self.new ≡ read_faults self.old) }
        ensures cause { OnErr result (Rose (read_faults self.old) (read_faults self.new)) }
        ensures same { OnErr result (left self.new ≡ left self.old) }
        ensures written { written self.new ≡ written self.old }
        ensures write_faults { write_faults self.new ≡ write_faults self.old }
        ensures held { held self.new ≡ held self.old };

    /// How many first bytes of the piece were taken: at least one.
    fn write(&mut self, piece: &[u8]) -> Result<usize, Failed>
        requires { 0 < length piece.now }
        ensures within { IfOk result (λ count. (0 < count) × (count ≤ length piece.now)) }
        ensures bytes { IfOk result (λ count. Takes (written self.old) (written self.new) piece.now count) }
        ensures count { write_faults self.old ≤ write_faults self.new }
        ensures uncounted { OnOk result (write_faults self.new ≡ write_faults self.old) }
        ensures cause { OnErr result (Rose (write_faults self.old) (write_faults self.new)) }
        ensures same { OnErr result (written self.new ≡ written self.old) }
        ensures left { left self.new ≡ left self.old }
        ensures read_faults { read_faults self.new ≡ read_faults self.old }
        ensures held { held self.new ≡ held self.old };
}

/// The link of a source and a sink.
#[derive(Drop)]
pub struct Pair<'a, S, K> {
    source: &'a mut S,
    sink: &'a mut K,
}

impl<'a, S: Source, K: Sink> Pair<'a, S, K> {
    pub fn make(source: &'a mut S, sink: &'a mut K) -> Pair<'a, S, K>
        ensures source { result.source.ghost_name ≡ source.entry.ghost_name }
        ensures source_now { result.source.now ≡ source.old }
        ensures sink { result.sink.ghost_name ≡ sink.entry.ghost_name }
        ensures sink_now { result.sink.now ≡ sink.old }
    {
        Pair { source, sink }
    }
}

impl<S: Source, K: Sink> Link for Pair<'_, S, K> {
    ghost left = { λ p. S.left p.source.now };

    ghost written = { λ p. K.written p.sink.now };

    ghost read_faults = { λ p. S.read_faults p.source.now };

    ghost write_faults = { λ p. K.write_faults p.sink.now };

    ghost held = { λ p. p.source.ghost_name ∷ p.sink.ghost_name ∷ [] };

    fn read(&mut self, room: &mut [u8]) -> Result<usize, Failed> {
        self.source.read(room)
    }

    fn write(&mut self, piece: &[u8]) -> Result<usize, Failed> {
        self.sink.write(piece)
    }
}
