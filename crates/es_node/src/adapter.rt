//! Standard input and output as the service sees them. They tell no bytes; each fault is counted.
ghost use Rattle.std.specs.Prelude.{◌≡◌, ◌<◌, ◌≤◌, length, None, IfOk, OnOk, OnErr};
ghost use Rattle.std.specs.Io.KnownBytes.{ReadConsumes, WriteAppends};
ghost use Rattle.es_outside.specs.Told.{Rose};

use es_outside::{Failed, Sink, Source};
use std::io::{Read, Write};

/// A reader. An error is a fault.
#[derive(Drop)]
pub struct Input<R> {
    pub reader: R,
    pub faults: u64,
}

impl<R: Read> Source for Input<R> {
    ghost left = { λ _. None };

    ghost read_faults = { λ s. s.faults };

    fn read(&mut self, room: &mut [u8]) -> Result<usize, Failed>
        requires { 0 < length room.old }
        ensures within { IfOk result (λ count. count ≤ length room.old) }
        ensures count { self.old.faults ≤ self.new.faults }
        ensures uncounted { OnOk result (self.new.faults ≡ self.old.faults) }
        ensures cause { OnErr result (Rose self.old.faults self.new.faults) }
        // What the reader gave fills the room, and nothing else was taken from it.
        ensures reader { ReadConsumes (R.remaining self.old.reader) (R.remaining self.new.reader) result room.new }
    {
        match self.reader.read(room) {
            Ok(count) => Ok(count),
            Err(_) => {
                self.faults = self.faults.saturating_add(1);
                Err(Failed)
            }
        }
    }
}

/// A writer. An error is a fault, and so is taking nothing.
#[derive(Drop)]
pub struct Output<W> {
    pub writer: W,
    pub faults: u64,
}

impl<W: Write> Sink for Output<W> {
    ghost written = { λ _. None };

    ghost write_faults = { λ s. s.faults };

    fn write(&mut self, piece: &[u8]) -> Result<usize, Failed>
        requires { 0 < length piece.now }
        ensures within { IfOk result (λ count. (0 < count) × (count ≤ length piece.now)) }
        ensures count { self.old.faults ≤ self.new.faults }
        ensures uncounted { OnOk result (self.new.faults ≡ self.old.faults) }
        ensures cause { OnErr result (Rose self.old.faults self.new.faults) }
        // What the writer took is the first bytes of the piece, and nothing else was given to it.
        ensures writer { WriteAppends (W.contents self.old.writer) (W.contents self.new.writer) result piece.now }
    {
        match self.writer.write(piece) {
            Ok(count) if count > 0 => Ok(count),
            _ => {
                self.faults = self.faults.saturating_add(1);
                Err(Failed)
            }
        }
    }
}
