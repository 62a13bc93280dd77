//! Where bytes go.
ghost use Rattle.std.specs.Prelude.{◌≡◌, ◌⊎◌, ◌↔◌, ℕ, ◌<◌, ◌≤◌, [], List, length, Option, Some, Contains, IfOk, OnOk, OnErr, IsErr, MatchResult};
ghost use Rattle.es_outside.specs.Told.{Rose, Takes};
ghost use Rattle.es_outside.specs.Memory.{Drain, counted, taken, took, took_none};

use crate::Failed;
use es_types::{Items, NoMemory};
use std::alloc::Global;
use std::marker::Model;

/// Where bytes go.
pub trait Sink {
    /// The bytes that were written, where that is told. What is told at one call is told at all later ones.
    ghost written: { Self → Option (List ℕ) };

    /// How often a write failed.
    ghost write_faults: { Self → ℕ };

    /// How many first bytes of the piece were taken: at least one.
    fn write(&mut self, piece: &[u8]) -> Result<usize, Failed>
        requires { 0 < length piece.now }
        ensures within { IfOk result (λ count. (0 < count) × (count ≤ length piece.now)) }
        ensures bytes { IfOk result (λ count. Takes (written self.old) (written self.new) piece.now count) }
        ensures count { write_faults self.old ≤ write_faults self.new }
        ensures uncounted { OnOk result (write_faults self.new ≡ write_faults self.old) }
        ensures cause { OnErr result (Rose (write_faults self.old) (write_faults self.new)) }
        ensures same { OnErr result (written self.new ≡ written self.old) };
}

/// A sink in memory, which takes bytes piece by piece into a room and fails at some calls.
#[derive(Drop)]
pub struct MemSink {
    bytes: Vec<u8>,
    room: u64,
    piece: u32,
    failing: Items<u64>,
    calls: u64,
    faults: u64,
}

impl Model for MemSink {
    ghost use Rattle.std.specs.Prelude.{◌≤◌, length, vec_capacity};
    ghost use Rattle.es_outside.specs.Memory.{Drain};

    ghost Value = { Drain };

    ghost view = { λ s. record { written = s.bytes.items; room = s.room; piece = s.piece; failing = s.failing; calls = s.calls; faults = s.faults } };

    ghost invariant = { λ s. (length s.bytes.items ≤ s.room) × (s.room ≤ vec_capacity s.bytes) × (1 ≤ s.piece) };
}

impl MemSink {
    /// Takes memory for `room` bytes, so that no write wants any. Takes at most `piece` bytes at a call, and fails at the
    /// calls of these numbers, counted from 1, and where no room is left.
    pub fn make(
        alloc: Global,
        room: u64,
        piece: u32,
        failing: Items<u64>,
    ) -> Result<MemSink, NoMemory>
        requires { 1 ≤ piece }
        ensures { IfOk result (λ s. s ≡ record { written = []; room = room; piece = piece; failing = failing; calls = 0; faults = 0 }) }
    {
        Ok(MemSink {
            bytes: Vec::with_capacity(alloc, room as usize)?,
            room,
            piece,
            failing,
            calls: 0,
            faults: 0,
        })
    }

    /// What was written.
    pub fn bytes(&self) -> &[u8]
        ensures { result.now ≡ self.now.written }
    {
        self.bytes.as_slice()
    }
}

impl Sink for MemSink {
    ghost written = { λ s. Some s.written };

    ghost write_faults = { λ s. s.faults };

    fn write(&mut self, piece: &[u8]) -> Result<usize, Failed>
        requires { 0 < length piece.now }
        ensures within { IfOk result (λ count. (0 < count) × (count ≤ length piece.now)) }
        ensures bytes { IfOk result (λ count. Takes (Some self.old.written) (Some self.new.written) piece.now count) }
        ensures count { self.old.faults ≤ self.new.faults }
        ensures uncounted { OnOk result (self.new.faults ≡ self.old.faults) }
        ensures cause { OnErr result (Rose self.old.faults self.new.faults) }
        ensures same { OnErr result (Some self.new.written ≡ Some self.old.written) }
        ensures taken { IfOk result (λ count. count ≡ taken self.old (length piece.now)) }
        ensures fails { IsErr result ↔ (Contains self.old.failing (counted self.old.calls) ⊎ (self.old.room ≤ length self.old.written)) }
        ensures calls { self.new.calls ≡ counted self.old.calls }
        ensures becomes { MatchResult result (λ count. self.new ≡ took self.old piece.now count) (λ _e. self.new ≡ took_none self.old) }
    {
        self.calls = self.calls.saturating_add(1);
        let left = self.room as usize - self.bytes.len();
        let count = (self.piece as usize).min(piece.len()).min(left);
        if self.failing.as_slice().contains(&self.calls) || count == 0 {
            self.faults = self.faults.saturating_add(1);
            return Err(Failed);
        }
        match self.bytes.extend_from_slice(&piece[..count]) {
            Ok(()) => Ok(count),
            Err(_) => unreachable!("the bytes have room"),
        }
    }
}
