//! Where bytes come from.
ghost use Rattle.std.specs.Prelude.{◌≡◌, ℕ, ◌<◌, ◌≤◌, ◌↔◌, List, length, take, drop, min, Option, Some, Contains, IfOk, OnOk, OnErr, IsErr, MatchResult};
ghost use Rattle.es_outside.specs.Told.{Gives, Rose};
ghost use Rattle.es_outside.specs.Memory.{Feed, counted, gave, gave_none, given};

use es_types::{Bytes, Items};
use std::marker::Model;

/// A call to the outside failed, and its count of faults rose. No count rises in a call that answers `Ok`.
#[derive(Clone, Copy)]
pub struct Failed;

/// Where bytes come from.
pub trait Source {
    /// The bytes that are left, where that is told. What is told at one call is told at all later ones.
    ghost left: { Self → Option (List ℕ) };

    /// How often a read failed.
    ghost read_faults: { Self → ℕ };

    /// How many first bytes of the room were filled. None are at the end of input.
    fn read(&mut self, room: &mut [u8]) -> Result<usize, Failed>
        requires { 0 < length room.old }
        ensures within { IfOk result (λ count. count ≤ length room.old) }
        ensures bytes { IfOk result (λ count. Gives (left self.old) (left self.new) room.new count) }
        ensures count { read_faults self.old ≤ read_faults self.new }
        ensures uncounted { OnOk result (read_faults self.new ≡ read_faults self.old) }
        ensures cause { OnErr result (Rose (read_faults self.old) (read_faults self.new)) }
        ensures same { OnErr result (left self.new ≡ left self.old) };
}

/// A source of bytes in memory, which gives them piece by piece and fails at some calls.
#[derive(Drop)]
pub struct MemSource {
    bytes: Bytes,
    at: usize,
    piece: u32,
    failing: Items<u64>,
    calls: u64,
    faults: u64,
}

impl Model for MemSource {
    ghost use Rattle.std.specs.Prelude.{◌≤◌, length, drop};
    ghost use Rattle.es_outside.specs.Memory.{Feed};

    ghost Value = { Feed };

    ghost view = { λ s. record { left = drop s.at s.bytes; piece = s.piece; failing = s.failing; calls = s.calls; faults = s.faults } };

    ghost invariant = { λ s. (s.at ≤ length s.bytes) × (1 ≤ s.piece) };
}

impl MemSource {
    /// Gives at most `piece` bytes at a call, and fails at the calls of these numbers, counted from 1.
    pub fn make(bytes: Bytes, piece: u32, failing: Items<u64>) -> MemSource
        requires { 1 ≤ piece }
        ensures { result ≡ record { left = bytes; piece = piece; failing = failing; calls = 0; faults = 0 } }
    {
        MemSource {
            bytes,
            at: 0,
            piece,
            failing,
            calls: 0,
            faults: 0,
        }
    }
}

impl Source for MemSource {
    ghost left = { λ s. Some s.left };

    ghost read_faults = { λ s. s.faults };

    fn read(&mut self, room: &mut [u8]) -> Result<usize, Failed>
        requires { 0 < length room.old }
        ensures within { IfOk result (λ count. count ≤ length room.old) }
        ensures bytes { IfOk result (λ count. Gives (Some self.old.left) (Some self.new.left) room.new count) }
        ensures count { self.old.faults ≤ self.new.faults }
        ensures uncounted { OnOk result (self.new.faults ≡ self.old.faults) }
        ensures cause { OnErr result (Rose self.old.faults self.new.faults) }
        ensures same { OnErr result (Some self.new.left ≡ Some self.old.left) }
        ensures given { IfOk result (λ count. count ≡ given self.old (length room.old)) }
        ensures fails { IsErr result ↔ Contains self.old.failing (counted self.old.calls) }
        ensures calls { self.new.calls ≡ counted self.old.calls }
        ensures becomes { MatchResult result (λ count. self.new ≡ gave self.old count) (λ _e. self.new ≡ gave_none self.old) }
        ensures rest { MatchResult result (λ count. drop count room.new ≡ drop count room.old) (λ _e. room.new ≡ room.old) }
    {
        self.calls = self.calls.saturating_add(1);
        if self.failing.as_slice().contains(&self.calls) {
            self.faults = self.faults.saturating_add(1);
            return Err(Failed);
        }
        let (_, rest) = self.bytes.as_slice().split_at(self.at);
        let count = fill(rest, self.piece, room);
        self.at += count;
        Ok(count)
    }
}

fn fill(bytes: &[u8], piece: u32, room: &mut [u8]) -> usize
    ensures count { result ≡ min (min piece (length room.old)) (length bytes.now) }
    ensures same { take result room.new ≡ take result bytes.now }
    ensures rest { drop result room.new ≡ drop result room.old }
{
    let count = (piece as usize).min(room.len()).min(bytes.len());
    room[..count].copy_from_slice(&bytes[..count]);
    count
}
