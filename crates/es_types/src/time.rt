//! Moments, and how long something is kept.
ghost use Rattle.std.specs.Prelude.{◌≡◌, ◌<◌, ◌≤◌, ◌↔◌, ◌+◌, length, max, min, take, IsNone, IfSome};
ghost use Rattle.std.specs.Result.{result_ok};
ghost use Rattle.std.specs.Str.Parse.{digits_value};
ghost use Rattle.es_types.specs.Times.{digits_in, keep_of, unit_millis};

use crate::{Copied, LAST_MOMENT, LONGEST_KEEP, NoMemory};
use std::alloc::Global;
use std::marker::Model;

/// A moment, in milliseconds since the clock's own beginning: at most 2^53.
#[derive(Clone, Copy)]
pub struct Moment(u64);

impl Model for Moment {
    ghost use Rattle.std.specs.Prelude.{ℕ, ◌≤◌};
    ghost use Rattle.es_types.specs.declared.limits.TheConstants.{LAST_MOMENT};

    ghost Value = { ℕ };

    ghost view = { λ m. m.0 };

    ghost invariant = { λ m. m.0 ≤ LAST_MOMENT };

    ghost inverse = { λ n. record { 0 = n } };
}

impl Moment {
    /// The first moment.
    pub fn zero() -> Moment
        ensures { result ≡ 0 }
    {
        Moment(0)
    }

    pub fn make(millis: u64) -> Option<Moment>
        ensures none { IsNone result ↔ (LAST_MOMENT < millis) }
        ensures value { IfSome result (λ m. m ≡ millis) }
    {
        if millis <= LAST_MOMENT {
            Some(Moment(millis))
        } else {
            None
        }
    }

    pub fn millis(&self) -> u64
        ensures value { result ≡ self.now }
        ensures bound { result ≤ LAST_MOMENT }
    {
        self.0
    }

    /// The later one of two moments.
    pub fn later(self, other: Moment) -> Moment
        ensures { result ≡ max self other }
    {
        if self.0 < other.0 { other } else { self }
    }
}

/// A text that is no time, or one of more than ten days.
#[derive(Drop)]
pub struct BadTime;

/// How long something is kept, in milliseconds: at most ten days.
#[derive(Clone, Copy)]
pub struct KeepAlive(u64);

impl Model for KeepAlive {
    ghost use Rattle.std.specs.Prelude.{ℕ, ◌≤◌};
    ghost use Rattle.es_types.specs.declared.limits.TheConstants.{LONGEST_KEEP};

    ghost Value = { ℕ };

    ghost view = { λ k. k.0 };

    ghost invariant = { λ k. k.0 ≤ LONGEST_KEEP };

    ghost inverse = { λ n. record { 0 = n } };
}

impl KeepAlive {
    /// The time that a text says: digits and `d`, `h`, `m`, `s` or `ms` (Elasticsearch's reference, "Time units"), or `0` alone.
    pub fn read(text: &[u8]) -> Result<KeepAlive, BadTime>
        ensures { result_ok result ≡ keep_of text.now }
    {
        match keep_of(text) {
            Some(millis) => Ok(KeepAlive(millis)),
            None => Err(BadTime),
        }
    }

    pub fn millis(&self) -> u64
        ensures value { result ≡ self.now }
        ensures bound { result ≤ LONGEST_KEEP }
    {
        self.0
    }
}

#[tactic(auto, unfolding(crate::specs::Times::keep_of))]
fn keep_of(text: &[u8]) -> Option<u64>
    ensures is { result ≡ keep_of text.now }
    ensures bound { IfSome result (λ millis. millis ≤ LONGEST_KEEP) }
{
    if text == b"0".as_slice() {
        return Some(0);
    }
    let (number, count) = digits_in(text);
    if count == 0 {
        return None;
    }
    let unit = unit_millis(&text[count..])?;
    if number * unit <= LONGEST_KEEP {
        Some(number * unit)
    } else {
        None
    }
}

// The number that the digits at the front write, or one above the longest time where it is greater than that; and how many they are.
fn digits_in(text: &[u8]) -> (u64, usize)
    ensures number { result.0 ≡ min (digits_value 10 (take (digits_in text.now) text.now)) (LONGEST_KEEP + 1) }
    ensures count { result.1 ≡ digits_in text.now }
    ensures within { result.1 ≤ length text.now }
{
    let mut number = 0;
    for (i, b) in text.iter().enumerate() {
        if !b.is_ascii_digit() {
            return (number, i);
        }
        number = (number * 10 + (*b - b'0') as u64).min(LONGEST_KEEP + 1);
    }
    (number, text.len())
}

fn unit_millis(unit: &[u8]) -> Option<u64>
    ensures is { result ≡ unit_millis unit.now }
    ensures some { IfSome result (λ millis. 1 ≤ millis) }
    ensures bound { IfSome result (λ millis. millis ≤ 86400000) }
{
    if unit == b"d".as_slice() {
        Some(86_400_000)
    } else if unit == b"h".as_slice() {
        Some(3_600_000)
    } else if unit == b"m".as_slice() {
        Some(60_000)
    } else if unit == b"s".as_slice() {
        Some(1_000)
    } else if unit == b"ms".as_slice() {
        Some(1)
    } else {
        None
    }
}

impl Copied for Moment {
    fn copy(&self, _alloc: Global) -> Result<Moment, NoMemory> {
        Ok(*self)
    }
}

impl Copied for KeepAlive {
    fn copy(&self, _alloc: Global) -> Result<KeepAlive, NoMemory> {
        Ok(*self)
    }
}
