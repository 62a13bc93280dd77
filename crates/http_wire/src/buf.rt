//! The bytes that were read and not taken yet.
ghost use Rattle.std.specs.Prelude.{◌≡◌, ◌+◌, ◌-◌, ◌<◌, ◌≤◌, [], length, take, drop, IfOk, IfSome, IfNone, OnOk, OnErr};
ghost use Rattle.http_wire.specs.Steps.{Probed, ReadMore};
ghost use Rattle.es_outside.specs.Told.{Gives, Rose};

use crate::WireEnd;
use es_outside::{Failed, Link};
use es_types::{CONNECTION_BYTES, NoMemory};
use std::alloc::Global;
use std::marker::Model;

/// The length of the first buffer.
const FIRST_LEN: usize = 16_384;

/// An emptied buffer that is longer gives its memory back.
const KEPT_LEN: usize = 1_048_576;

/// The bytes that were taken from a link and not yet used. A connection gives at most 2^30 bytes.
#[derive(Drop)]
pub struct Buf {
    bytes: Vec<u8>,
    start: usize,
    end: usize,
    taken: u64,
}

impl Model for Buf {
    ghost use Rattle.std.specs.Prelude.{◌+◌, ◌-◌, ◌≤◌, length, take, drop};
    ghost use Rattle.es_types.specs.declared.limits.TheConstants.{CONNECTION_BYTES};
    ghost use Rattle.http_wire.specs.Stream.{Buffered};

    ghost Value = { Buffered };

    ghost view = { λ b. record { bytes = take (b.end - b.start) (drop b.start b.bytes.items); room = CONNECTION_BYTES - b.taken } };

    ghost invariant = { λ b. (b.start ≤ b.end) × (b.end ≤ length b.bytes.items) × (b.taken ≤ CONNECTION_BYTES) };
}

impl Buf {
    /// An empty buffer.
    pub fn make(alloc: Global) -> Result<Buf, NoMemory>
        ensures { IfOk result (λ buf. buf ≡ record { bytes = []; room = CONNECTION_BYTES }) }
    {
        Ok(Buf {
            bytes: Vec::new(alloc),
            start: 0,
            end: 0,
            taken: 0,
        })
    }

    /// The bytes that are held.
    pub(crate) fn held(&self) -> &[u8]
        ensures { result.now ≡ self.now.bytes }
    {
        &self.bytes.as_slice()[self.start..self.end]
    }

    /// Lets go of so many first bytes. Where none is left, a long buffer gives its memory back; a further long request
    /// makes it longer anew, in time linear in its own length.
    pub(crate) fn advance(&mut self, alloc: Global, count: usize)
        requires { count ≤ length self.old.bytes }
        ensures { self.new ≡ record { bytes = drop count self.old.bytes; room = self.old.room } }
    {
        self.start += count;
        if self.start == self.end {
            self.start = 0;
            self.end = 0;
            if self.bytes.len() > KEPT_LEN {
                self.bytes = Vec::new(alloc);
            }
        }
    }
}

/// Reads more bytes after those that are held: `false` is the end of input.
pub(crate) fn read_more<L: Link>(link: &mut L, buf: &mut Buf) -> Result<bool, WireEnd>
    ensures read { ReadMore buf.old buf.new (L.left link.old) (L.left link.new) result }
    ensures fault { result ≡ Err WireEnd.ReadFault → Rose (L.read_faults link.old) (L.read_faults link.new) }
    ensures reported { L.read_faults link.old < L.read_faults link.new → result ≡ Err WireEnd.ReadFault }
    ensures count { L.read_faults link.old ≤ L.read_faults link.new }
    ensures written { L.written link.new ≡ L.written link.old }
    ensures write_faults { L.write_faults link.new ≡ L.write_faults link.old }
    ensures held { L.held link.new ≡ L.held link.old }
{
    if buf.taken >= CONNECTION_BYTES {
        return probe(link);
    }
    let Some(moved) = make_room(&mut buf.bytes, buf.start, buf.end) else {
        return Err(WireEnd::NoMemory);
    };
    buf.start -= moved;
    buf.end -= moved;
    let most = (CONNECTION_BYTES - buf.taken) as usize;
    match read_after(link, buf.bytes.as_mut_slice(), buf.end, most) {
        Ok(count) => {
            buf.end += count;
            buf.taken += count as u64;
            Ok(count > 0)
        }
        Err(_) => Err(WireEnd::ReadFault),
    }
}

/// Whether a further byte is there, where none may be taken.
fn probe<L: Link>(link: &mut L) -> Result<bool, WireEnd>
    ensures read { Probed (L.left link.old) (L.left link.new) result }
    ensures fault { result ≡ Err WireEnd.ReadFault → Rose (L.read_faults link.old) (L.read_faults link.new) }
    ensures reported { L.read_faults link.old < L.read_faults link.new → result ≡ Err WireEnd.ReadFault }
    ensures count { L.read_faults link.old ≤ L.read_faults link.new }
    ensures written { L.written link.new ≡ L.written link.old }
    ensures write_faults { L.write_faults link.new ≡ L.write_faults link.old }
    ensures held { L.held link.new ≡ L.held link.old }
{
    let mut room = [0u8];
    match link.read(&mut room) {
        Ok(0) => Ok(false),
        Ok(_) => Err(WireEnd::TooMuch),
        Err(_) => Err(WireEnd::ReadFault),
    }
}

/// Makes room after the bytes from `start` to `end`: they are moved to the front, by as much as the answer says,
/// or the whole is made longer. `None` says that memory ran out.
fn make_room(bytes: &mut Vec<u8>, start: usize, end: usize) -> Option<usize>
    requires order { start ≤ end }
    requires fits { end ≤ length bytes.old.items }
    ensures moved { IfSome result (λ moved. moved ≤ start) }
    ensures room { IfSome result (λ moved. end < length bytes.new.items + moved) }
    ensures same { IfSome result (λ moved. take (end - start) (drop (start - moved) bytes.new.items) ≡ take (end - start) (drop start bytes.old.items)) }
    ensures kept { IfNone result (bytes.new.items ≡ bytes.old.items) }
{
    let long = bytes.len();
    if end < long {
        return Some(0);
    }
    if start > 0 {
        bytes.copy_within(start..end, 0);
        return Some(start);
    }
    let longer = long.checked_mul(2)?.max(FIRST_LEN);
    match bytes.resize(longer, 0) {
        Ok(()) => Some(0),
        Err(_) => None,
    }
}

/// Reads at most so many bytes to the place `at`.
fn read_after<L: Link>(
    link: &mut L,
    bytes: &mut [u8],
    at: usize,
    most: usize,
) -> Result<usize, Failed>
    requires room { at < length bytes.old }
    requires some { 0 < most }
    ensures within { IfOk result (λ count. (count ≤ most) × (at + count ≤ length bytes.new)) }
    ensures front { take at bytes.new ≡ take at bytes.old }
    ensures bytes { IfOk result (λ count. Gives (L.left link.old) (L.left link.new) (drop at bytes.new) count) }
    ensures cause { OnErr result (Rose (L.read_faults link.old) (L.read_faults link.new)) }
    ensures uncounted { OnOk result (L.read_faults link.new ≡ L.read_faults link.old) }
    ensures same { OnErr result (L.left link.new ≡ L.left link.old) }
    ensures count { L.read_faults link.old ≤ L.read_faults link.new }
    ensures written { L.written link.new ≡ L.written link.old }
    ensures write_faults { L.write_faults link.new ≡ L.write_faults link.old }
    ensures held { L.held link.new ≡ L.held link.old }
{
    let stop = bytes.len().min(at.saturating_add(most));
    link.read(&mut bytes[at..stop])
}
