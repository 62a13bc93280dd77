//! One shard: rows, waiting operations, and the ids that have a row once all are applied.
ghost use Rattle.std.specs.Prelude.{◌≡◌, ◌+◌, ◌<◌, ◌≤◌, ◌^◌, ◌-◌, ℕ, List, [], false, length, min, IfOk, OnOk, OnErr};
ghost use Rattle.std.specs.BTreeSet.{contains_text};
ghost use Rattle.es_types.specs.declared.limits.TheConstants.{MOST_ENTRIES};
ghost use Rattle.list_machine.specs.Rows.{has_id, last_number as last_number_of, rows_to_come};
ghost use Rattle.list_machine.specs.State.{id_of};
ghost use Rattle.list_machine.specs.Step.{append_op, is_full as is_full_shard};
ghost use Rattle.list_machine.specs.Changes.{did, publish_of};
ghost use Rattle.list_machine.specs.Seen.Standing.{stands_after};
ghost use Rattle.es_core.specs.Shards.{applies, is_refused};

use es_types::{Fail, NoMemory, Op, Row, SHARD_ROWS, copy_all};
use list_machine::{Wrote, apply_ops, enter, lasts_of};
use std::alloc::Global;
use std::collections::BTreeSet;
use std::marker::Model;
use std::mem;

/// A shard has as many rows and waiting operations as it may have.
#[derive(Drop)]
pub struct ShardFull;

/// A shard: the rows that a search sees, the operations that wait, and the ids that have a row once those are applied. Contracts see it
/// as the machine's, by its rows and its operations.
#[derive(Drop)]
pub struct Shard {
    base: u64,
    rows: Vec<Row>,
    pending: Vec<Op>,
    standing: BTreeSet<String>,
}

impl Model for Shard {
    ghost use Rattle.std.specs.Prelude.{◌≡◌, ◌+◌, ◌≤◌, ℕ, List, length};
    ghost use Rattle.std.specs.BTreeSet.{contains_text};
    ghost use Rattle.list_machine.specs.Rows.{Shard as Seen, apply_all, has_id};
    ghost use Rattle.es_types.specs.declared.limits.TheConstants.{SHARD_ROWS};

    ghost Value = { Seen };

    ghost view = { λ s. record { base = s.base; rows = s.rows.items; pending = s.pending.items } };

    // The ids that stand are those of the rows to come, and the shard is not over-full.
    ghost invariant = { λ s. ((id : List ℕ) → contains_text s.standing id ≡ has_id id (apply_all s.rows.items s.base s.pending.items)) × (length s.rows.items + length s.pending.items ≤ SHARD_ROWS) };
}

impl Shard {
    /// A shard with nothing in it.
    pub fn make(alloc: Global) -> Shard
        ensures { result ≡ record { base = 0; rows = []; pending = [] } }
    {
        Shard {
            base: 0,
            rows: Vec::new(alloc),
            pending: Vec::new(alloc),
            standing: BTreeSet::new(alloc),
        }
    }

    /// The number of the last operation, where it fits.
    pub fn seal(&self) -> u64
        ensures { result ≡ min (last_number_of self.now) (2 ^ 64 - 1) }
    {
        self.base.saturating_add(self.pending.len() as u64)
    }

    /// A copy of the rows that a search sees.
    pub fn view(&self, alloc: Global) -> Result<Vec<Row>, NoMemory>
        ensures rows { IfOk result (λ rows. rows.items ≡ self.now.rows) }
        ensures few { IfOk result (λ rows. length rows.items ≤ SHARD_ROWS) }
    {
        copy_all(alloc, &self.rows)
    }

    /// Adds an operation, unless the shard is full, and says what it did, and its number where that is at most 2^53. After an error rows
    /// and operations are as they were.
    pub fn write(&mut self, alloc: Global, op: Op) -> Result<(Wrote, u64), Fail<ShardFull>>
        ensures full { is_refused result ≡ is_full_shard self.old }
        ensures rows { self.new.rows ≡ self.old.rows }
        ensures op { OnOk result (self.new ≡ append_op self.old op) }
        ensures did { IfOk result (λ it. it.0 ≡ did op (has_id (id_of op) (rows_to_come self.old))) }
        ensures number { last_number_of self.old < MOST_ENTRIES → IfOk result (λ it. it.1 ≡ last_number_of self.old + 1) }
        ensures err { OnErr result (self.new ≡ self.old) }
    {
        if self.is_full() {
            return Err(Fail::Is(ShardFull));
        }
        let number = self.seal().saturating_add(1);
        let wrote = self.append(alloc, op)?;
        Ok((wrote, number))
    }

    fn is_full(&self) -> bool
        ensures { result ≡ is_full_shard self.now }
    {
        self.rows.len() + self.pending.len() >= SHARD_ROWS
    }

    /// Adds an operation, and says what it did. After an error rows and operations are as they were.
    fn append(&mut self, alloc: Global, op: Op) -> Result<Wrote, NoMemory>
        requires { is_full_shard self.old ≡ false }
        ensures op { OnOk result (self.new ≡ append_op self.old op) }
        ensures rows { self.new.rows ≡ self.old.rows }
        ensures did { IfOk result (λ it. it ≡ did op (has_id (id_of op) (rows_to_come self.old))) }
        ensures err { OnErr result (self.new ≡ self.old) }
    {
        self.pending.reserve(1)?;
        let wrote = mark(alloc, &mut self.standing, &op)?;
        self.pending.push_reserved(op);
        Ok(wrote)
    }

    /// Applies the operations up to a number, and says whether there were any. Where there were none, where no operation has the number
    /// yet, and after an error, rows and operations are as they were.
    pub fn publish(&mut self, alloc: Global, upto: u64) -> Result<bool, NoMemory>
        ensures ok { OnOk result (self.new ≡ publish_of self.old upto) }
        ensures applied { IfOk result (λ applied. applied ≡ applies self.old upto) }
        ensures same { IfOk result (λ applied. applied ≡ false → self.new ≡ self.old) }
        ensures err { OnErr result (self.new ≡ self.old) }
    {
        if self.seal() < upto || upto <= self.base {
            return Ok(false);
        }
        let count = (upto - self.base) as usize;
        let lasts = lasts_of(alloc, &self.pending[..count])?;
        self.rows.reserve(count)?;
        let waiting = self.pending.split_off(count)?;
        let ops = mem::replace(&mut self.pending, waiting);
        apply_ops(&mut self.rows, self.base, ops, lasts);
        self.base = upto;
        Ok(true)
    }
}

/// Brings the ids that stand up to an operation, and says what it did.
fn mark(alloc: Global, standing: &mut BTreeSet<String>, op: &Op) -> Result<Wrote, NoMemory>
    ensures did { IfOk result (λ it. it ≡ did op.now (contains_text standing.old (id_of op.now))) }
    ensures after { OnOk result ((id : List ℕ) → contains_text standing.new id ≡ stands_after op.now id (contains_text standing.old id)) }
    ensures err { OnErr result ((id : List ℕ) → contains_text standing.new id ≡ contains_text standing.old id) }
{
    match op {
        Op::Put { id, .. } => Ok(if enter(alloc, standing, id)? {
            Wrote::Created
        } else {
            Wrote::Updated
        }),
        Op::Remove { id } => Ok(if standing.remove(id.text().as_str()) {
            Wrote::Deleted
        } else {
            Wrote::NotFound
        }),
    }
}
