//! The service with one caller.
ghost use Rattle.std.specs.Prelude.{◌≡◌, ◌+◌, ◌*◌, ◌<◌, length, ◌≤◌, ◌^◌, ◌++◌, [], ◌∷◌, max, IfOk, OnOk, OnErr};
ghost use Rattle.es_types.specs.declared.limits.TheConstants.{MOST_ENTRIES};
ghost use Rattle.list_machine.specs.Run.{IsBounded, PutsObject, state_of};
ghost use Rattle.list_machine.specs.Serving.{GrowsBeside, IsKept, applied};
ghost use Rattle.list_machine.specs.State.{live_contexts};
ghost use Rattle.es_core.specs.Contexts.{left_by};
ghost use Rattle.es_core.specs.Plans.{CanAnswer, turned_reply};
ghost use Rattle.es_core.specs.Stands.{Rests, StandsOn};
ghost use Rattle.es_node.specs.Solo.{Advances, AreOwn, Helps, Tidies, entries, rest};

use crate::search_exec::run;
use es_core::{Brought, Chore, Core, Turned};
use es_types::{Moment, NoMemory};
use list_machine::{Entry, Event, Limits, Reply, Service};
use std::alloc::Global;
use std::marker::Model;
use std::snapshot::Snapshot;

/// A service with one caller: the core, and the journal of all entries so far. The journal counts them; what they are is
/// known to proofs alone, so that none takes memory.
#[derive(Drop)]
pub struct Solo {
    alloc: Global,
    limits: Limits,
    core: Core,
    journal: Vec<Snapshot<Entry>>,
}

impl Model for Solo {
    ghost use Rattle.std.specs.Prelude.{length};
    ghost use Rattle.std.specs.Coded.{codes};
    ghost use Rattle.es_query.specs.contracts.query.Query as query;
    ghost use Rattle.es_node.specs.Solo.{IsRunning, Journal, entries};

    ghost Value = { Journal };

    // An entry may hold a query, which holds queries.
    ghost coded = { Prim.hlevel (codes, query.the_row.coded) };

    ghost view = { λ s. record { limits = s.limits; history = entries s.journal.items; kept = length s.core.book.contexts } };

    ghost invariant = { λ s. IsRunning s.limits s.core (entries s.journal.items) };
}

impl Solo {
    /// A service with an empty history.
    pub fn make(alloc: Global, limits: Limits) -> Result<Solo, NoMemory>
        requires some { 1 ≤ limits.entries }
        requires bounded { limits.entries ≤ MOST_ENTRIES }
        ensures { IfOk result (λ solo. solo ≡ record { limits = limits; history = []; kept = 0 }) }
    {
        let core = Core::make(alloc, limits)?;
        Ok(Solo {
            alloc,
            limits,
            core,
            journal: Vec::new(alloc),
        })
    }

    /// Ends the service. All of its history is of its own seat, and is not too long.
    pub fn finish(self)
        ensures own { AreOwn self.history }
        ensures kept { IsKept self.limits self.history }
    {
        let Solo {
            alloc: _,
            limits: _,
            core,
            journal: _,
        } = self;
        let _ = core.finish();
    }
}

// The reply that a turn gives, or that the running of its plan gives outside the core.
fn answer(alloc: Global, turned: Turned) -> Result<Reply, NoMemory>
    requires { CanAnswer turned }
    ensures { IfOk result (λ reply. reply ≡ turned_reply turned) }
{
    match turned {
        Turned::Now(reply) => Ok(reply),
        Turned::Later(plan) => run(alloc, plan),
    }
}

// Takes the step of an entry and writes it down. Where memory runs out the core
// stands for what it stood for, and the journal is as it was.
fn advance(
    core: &mut Core,
    journal: &mut Vec<Snapshot<Entry>>,
    entry: Entry,
) -> Result<Turned, NoMemory>
    requires object { PutsObject entry.event }
    requires bounded { IsBounded entry.event }
    ensures advances { IfOk result (Advances core.old core.new entry) }
    ensures runs { IfOk result CanAnswer }
    ensures journal { IfOk result (λ _. entries journal.new.items ≡ entries journal.old.items ++ entry ∷ []) }
    ensures core_kept { OnErr result (StandsOn core.old core.new) }
    ensures journal_kept { OnErr result (entries journal.new.items ≡ entries journal.old.items) }
{
    journal.reserve(1)?;
    let turned = core.turn(&entry.event, entry.moment, Brought::Nothing)?;
    journal.push_reserved(Snapshot::of(&entry));
    Ok(turned)
}

// Lets go what is over, and writes down the Quiet of it. Where memory runs out the core
// stands for what it stood for, and the journal is as it was.
fn reap(core: &mut Core, journal: &mut Vec<Snapshot<Entry>>, moment: Moment) -> Result<(), NoMemory>
    ensures rests { OnOk result (Rests core.old core.new moment) }
    ensures left { OnOk result (core.new.book.contexts ≡ left_by Chore.Reap (max core.old.moment moment) core.old.book.contexts) }
    ensures journal { OnOk result (entries journal.new.items ≡ entries journal.old.items ++ rest moment ∷ []) }
    ensures core_kept { OnErr result (StandsOn core.old core.new) }
    ensures journal_kept { OnErr result (entries journal.new.items ≡ entries journal.old.items) }
{
    journal.reserve(1)?;
    let _ = core.quiet(Chore::Reap, moment)?;
    let entry = Entry {
        who: 1,
        moment,
        event: Event::Quiet,
    };
    journal.push_reserved(Snapshot::of(&entry));
    Ok(())
}

impl Service for Solo {
    ghost front = { λ s. s.history };

    ghost seat = { λ _. 0 };

    ghost limits = { λ s. s.limits };

    ghost helped = { Helps };

    ghost tidied = { Tidies };

    fn ask(&mut self, event: Event, moment: Moment) -> Result<Reply, NoMemory> {
        if self.journal.len() as u64 >= self.limits.entries {
            return Ok(Reply::Spent);
        }
        let entry = Entry {
            who: 0,
            moment,
            event,
        };
        let turned = advance(&mut self.core, &mut self.journal, entry)?;
        answer(self.alloc, turned)
    }

    fn help(&mut self, _moment: Moment) -> Result<bool, NoMemory> {
        let _ = &self.limits;
        Ok(false)
    }

    fn tidy(&mut self, moment: Moment) -> Result<(), NoMemory>
        ensures called { Tidies moment self.old.history self.new.history }
        ensures beside { GrowsBeside 0 (4 + 2 * applied (state_of self.old.limits self.old.history)) moment self.old.history self.new.history }
        ensures limits { self.new.limits ≡ self.old.limits }
        ensures kept { IsKept self.new.limits self.new.history }
        // Where there was room, the core keeps exactly the contexts that are live.
        ensures reaped { OnOk result (length self.new.history < self.new.limits.entries
            → self.new.kept ≡ live_contexts (state_of self.new.limits self.new.history)) }
    {
        if self.journal.len() as u64 >= self.limits.entries {
            return Ok(());
        }
        reap(&mut self.core, &mut self.journal, moment)
    }
}
