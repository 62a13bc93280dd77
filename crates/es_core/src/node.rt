//! The core, and which call takes an event.
ghost use Rattle.std.specs.Prelude.{◌≡◌, ◌+◌, ◌<◌, [], max, All, IfOk, OnOk, OnErr, option_map};
ghost use Rattle.es_types.specs.declared.limits.TheConstants.{MOST_ENTRIES};
ghost use Rattle.es_core.specs.Contexts.{AllLent};

use crate::catalog::Catalog;
use crate::contexts::{close, do_chore, is_opened, open, search_pit};
use crate::looking::search_index;
use crate::{Brought, Chore, Gathered, Totals, Turned};
use context_book::ContextBook;
use es_types::{IndexName, KeepAlive, Moment, NoMemory};
use list_machine::{Event, Limits, Reply, Target, sound_states};
use std::alloc::Global;

/// The state of the service. Indexes are found by their names, and contexts by their numbers.
#[derive(Drop)]
pub struct Core {
    alloc: Global,
    limits: Limits,
    moment: Moment,
    next: u64,
    catalog: Catalog,
    book: ContextBook,
    ghost issued: { All (λ context. context.number < next) book.contexts },
    ghost limited: { book.limit ≡ limits.pits },
    ghost few: { AllLent MOST_ENTRIES book.contexts },
}

impl Core {
    ghost use Rattle.list_machine.specs.declared.event.Event.TheVariants.{OpenPit};
    ghost use Rattle.list_machine.specs.Run.{IsBounded, PutsObject};
    ghost use Rattle.list_machine.specs.State.{index_of, view_of as seen_of};
    ghost use Rattle.es_core.specs.Plans.{CanAnswer, HandsOut, turned_reply};
    ghost use Rattle.es_core.specs.Contexts.{LeavesOpened, MayWant, TurnMayWant, left_by};
    ghost use Rattle.es_core.specs.Stands.{Rests, Stands, StandsOn, TakesStep};
    ghost use Rattle.es_core.specs.Steps.{IsSame, Steps};

    /// A core with the empty index `docs`, which stands for the empty history.
    pub fn make(alloc: Global, limits: Limits) -> Result<Core, NoMemory>
        ensures { IfOk result (λ core. Stands limits core []) }
    {
        Ok(Core {
            alloc,
            limits,
            moment: Moment::zero(),
            next: 1,
            catalog: Catalog::make(alloc)?,
            book: ContextBook::make(alloc, limits.pits),
        })
    }

    /// Takes the step of an entry of the history. After `NoMemory` the core stands for what it stood for, and its book is as it was.
    pub fn turn(
        &mut self,
        event: &Event,
        moment: Moment,
        _brought: Brought,
    ) -> Result<Turned, NoMemory>
        requires object { PutsObject event.now }
        requires bounded { IsBounded event.now }
        ensures turns { IfOk result (TakesStep self.old self.new event.now moment) }
        ensures runs { IfOk result CanAnswer }
        ensures hands_out { IfOk result (HandsOut event.now (max self.old.moment moment) self.old.catalog self.old.book.contexts self.new.book.contexts) }
        ensures book { OnErr result (self.new.book ≡ self.old.book) }
        ensures some { OnErr result (TurnMayWant event.now (max self.old.moment moment) self.old.book.contexts) }
        ensures err { OnErr result (StandsOn self.old self.new) }
    {
        sound_states();
        let later = self.moment.later(moment);
        let turned = self.happen(event, later)?;
        self.moment = later;
        Ok(turned)
    }

    fn happen(&mut self, event: &Event, moment: Moment) -> Result<Turned, NoMemory>
        requires { IsBounded event.now }
        ensures steps { IfOk result (λ turned. Steps self.old self.new moment event.now (turned_reply turned)) }
        ensures runs { IfOk result CanAnswer }
        ensures hands_out { IfOk result (HandsOut event.now moment self.old.catalog self.old.book.contexts self.new.book.contexts) }
        ensures some { OnErr result (TurnMayWant event.now moment self.old.book.contexts) }
        ensures err { OnErr result (IsSame self.old self.new) }
    {
        match event {
            Event::OpenPit { index, keep } => {
                Ok(Turned::Now(self.open_pit(moment, index, keep)?))
            }
            Event::Search { target, request } => match target {
                Target::Index(index) => {
                    search_index(self.alloc, &mut self.catalog, index, request)
                }
                Target::Pit { number, keep } => {
                    search_pit(self.alloc, &mut self.book, moment, *number, *keep, request)
                }
            },
            Event::Close { which } => {
                let freed = close(&mut self.book, moment, which)?;
                Ok(Turned::Now(Reply::Closed { freed }))
            }
            Event::Quiet => Ok(Turned::Now(Reply::Done)),
            _ => Ok(Turned::Now(self.catalog.step(event)?)),
        }
    }

    /// Opens a reader of an index, which its context owns, unless as many as may be are live.
    fn open_pit(
        &mut self,
        moment: Moment,
        name: &IndexName,
        keep: &KeepAlive,
    ) -> Result<Reply, NoMemory>
        ensures steps { IfOk result (Steps self.old self.new moment (OpenPit name.now keep.now)) }
        ensures added { IfOk result (LeavesOpened (option_map seen_of (index_of name.now self.old.catalog)) (moment + keep.now) self.old.book.contexts self.new.book.contexts) }
        ensures err { OnErr result (IsSame self.old self.new) }
    {
        let number = self.next;
        if number == u64::MAX {
            // No number is left, which needs a longer history than there may be.
            return Ok(Reply::Spent);
        }
        let Some(view) = self.catalog.view(name)? else {
            return Ok(Reply::NoIndex);
        };
        let expiry = moment.millis() + keep.millis();
        let reply = open(self.alloc, &mut self.book, moment, number, view, expiry)?;
        if is_opened(&reply) {
            self.next = number + 1;
        }
        Ok(reply)
    }

    /// Takes the step of a Quiet, and does a chore, which no reply shows: at a reaping exactly the contexts that are no longer live are
    /// let go. After `NoMemory`, which comes at a reaping alone, where a context is no longer live, the core stands for what it stood for,
    /// and its book is as it was.
    pub fn quiet(&mut self, chore: Chore, moment: Moment) -> Result<Gathered, NoMemory>
        ensures rests { OnOk result (Rests self.old self.new moment) }
        ensures left { OnOk result (self.new.book ≡ record self.old.book { contexts = left_by chore (max self.old.moment moment) self.old.book.contexts }) }
        ensures book { OnErr result (self.new.book ≡ self.old.book) }
        ensures some { OnErr result (MayWant chore (max self.old.moment moment) self.old.book.contexts) }
        ensures err { OnErr result (StandsOn self.old self.new) }
    {
        sound_states();
        let later = self.moment.later(moment);
        do_chore(&mut self.book, chore, later)?;
        self.moment = later;
        Ok(Gathered::Nothing)
    }

    pub fn totals(&self) -> Totals
        ensures { result ≡ record { opened = 0; closed = 0; ended = 0; segments = 0; left = 0 } }
    {
        Totals {
            opened: 0,
            closed: 0,
            ended: 0,
            segments: 0,
            left: 0,
        }
    }

    /// Ends the core. What is left is not counted yet.
    pub fn finish(self) -> Totals
        ensures { result ≡ record { opened = 0; closed = 0; ended = 0; segments = 0; left = 0 } }
    {
        self.totals()
    }
}
