//! The points in time by their numbers.
ghost use Rattle.std.specs.Prelude.{◌≡◌, ◌≢◌, ◌==◌, ◌<◌, ◌↔◌, ◌++◌, ◌∷◌, [], map, drop, filter, count_by, All, Some, None, IfOk, IfErr, OnOk, OnErr, OnSome, IsNone, IsErr, MatchResult, MatchOption, option_map, slice_get};
ghost use Rattle.context_book.specs.Books.{CanLend, Rises, has_ended, is_closed, is_kept, live_one, lives};
ghost use Rattle.context_book.specs.Calls.{IsLendFault, IsWhy, lent_by, touched, with_one, without};

use crate::context::{Context, LendFault, Missing, Refused, Why, owner_of};
use crate::leaving::{Leaving, part};
use crate::live::{count_live, place_for, place_of_live};
use crate::view::View;
use es_types::{Items, Moment, NoMemory};
use list_machine::Which;
use reader_gate::{Owner, Pass};
use std::alloc::{AllocFailed, Global};
use std::marker::Model;

/// The points in time by their numbers, and how many of them may be live at once.
#[derive(Drop)]
pub struct ContextBook {
    alloc: Global,
    pits: u64,
    contexts: Vec<Context>,
}

impl Model for ContextBook {
    ghost use Rattle.context_book.specs.Books.{Book, Rises};

    ghost Value = { Book };

    ghost view = { λ b. record { limit = b.pits; contexts = b.contexts.items } };

    ghost invariant = { λ b. Rises b.contexts.items };
}

impl ContextBook {
    /// No points in time, and so many may be live at once.
    pub fn make(alloc: Global, pits: u64) -> ContextBook
        ensures { result ≡ record { limit = pits; contexts = [] } }
    {
        ContextBook {
            alloc,
            pits,
            contexts: Vec::new(alloc),
        }
    }

    /// Whether as many are live as may be.
    fn is_full(&self, now: Moment) -> bool
        ensures { result ≡ (count_by (lives now) self.now.contexts == self.now.limit) }
    {
        count_live(&self.contexts, now) == self.pits
    }

    /// Adds a point in time where its number stands, unless as many are live as may be.
    pub fn open_context(
        &mut self,
        number: u64,
        owner: Owner<View>,
        expiry: u64,
        now: Moment,
    ) -> Result<(), Refused>
        requires { All (λ context. context.number ≢ number) self.old.contexts }
        ensures room { OnOk result (count_by (lives now) self.old.contexts ≢ self.old.limit) }
        ensures added { OnOk result (self.new ≡ record self.old {
          contexts = with_one (record { number = number; owner = owner; expiry = expiry }) self.old.contexts;
        }) }
        ensures last { All (λ context. context.number < number) self.old.contexts
            → OnOk result (self.new.contexts ≡ self.old.contexts ++ record { number = number; owner = owner; expiry = expiry } ∷ []) }
        ensures why { IfErr result (λ refused. IsWhy refused.why self.old.limit (count_by (lives now) self.old.contexts)) }
        ensures back { IfErr result (λ refused. refused.owner ≡ owner) }
        ensures same { OnErr result (self.new ≡ self.old) }
    {
        if self.is_full(now) {
            let why = Why::TooMany { limit: self.pits };
            return Err(Refused { why, owner });
        }
        let context = Context {
            number,
            owner,
            expiry,
        };
        put_in(&mut self.contexts, context)
    }

    /// The live one of that number.
    pub fn find(&self, number: u64, now: Moment) -> Result<&Context, Missing>
        ensures rise { Rises self.now.contexts }
        ensures found { MatchResult result
            (λ context. live_one number now self.now.contexts ≡ Some context.now)
            (λ _. live_one number now self.now.contexts ≡ None) }
    {
        match place_of_live(&self.contexts, number, now) {
            Some(at) => Ok(&self.contexts[at]),
            None => Err(Missing),
        }
    }

    /// The live one of that number stays live up to the expiry, or longer, as it would have been.
    pub fn touch(&mut self, number: u64, now: Moment, expiry: u64) -> Result<(), Missing>
        ensures missing { IsErr result ↔ (live_one number now self.old.contexts ≡ None) }
        ensures ok { OnOk result (self.new ≡ record self.old { contexts = map (touched number expiry) self.old.contexts }) }
        ensures err { OnErr result (self.new ≡ self.old) }
    {
        let Some(at) = place_of_live(&self.contexts, number, now) else {
            return Err(Missing);
        };
        let context = &mut self.contexts[at];
        context.expiry = context.expiry.max(expiry);
        Ok(())
    }

    /// A pass of the live one of that number. An error leaves the book as it was.
    pub fn lend(&mut self, number: u64, now: Moment) -> Result<Pass<View>, LendFault>
        requires { CanLend number now self.old.contexts }
        ensures pass { IfOk result (λ pass. MatchOption (live_one number now self.old.contexts) ⊥
            (λ context. (pass.reader ≡ context.owner.reader) × (pass.body ≡ context.owner.body))) }
        ensures lent { OnOk result (self.new ≡ record self.old { contexts = map (lent_by number) self.old.contexts }) }
        ensures fault { IfErr result (λ fault. IsLendFault fault (live_one number now self.old.contexts)) }
        ensures same { OnErr result (self.new ≡ self.old) }
    {
        let Some(at) = place_of_live(&self.contexts, number, now) else {
            return Err(LendFault::Missing);
        };
        let alloc = self.alloc;
        let context = &mut self.contexts[at];
        Ok(context.owner.lend(alloc)?)
    }

    /// Takes out the live ones that are named, and hands out their owners, each once. An error comes only where there
    /// are such, and leaves the book as it was.
    pub fn close(&mut self, which: &Which, now: Moment) -> Result<Items<Owner<View>>, NoMemory>
        ensures owners { IfOk result (λ owners. owners ≡ map (λ context. context.owner) (filter (is_closed now which.now) self.old.contexts)) }
        ensures kept { OnOk result (self.new ≡ record self.old { contexts = filter (is_kept now which.now) self.old.contexts }) }
        ensures some { OnErr result (0 < count_by (is_closed now which.now) self.old.contexts) }
        ensures err { OnErr result (self.new ≡ self.old) }
    {
        let owners = part(self.alloc, &mut self.contexts, Leaving::Closed(which), now)?;
        Ok(Items::of(owners))
    }

    /// Takes out those that are no longer live, and hands out their owners, each once. An error comes only where there
    /// are such, and leaves the book as it was.
    pub fn reap(&mut self, now: Moment) -> Result<Items<Owner<View>>, NoMemory>
        ensures owners { IfOk result (λ owners. owners ≡ map (λ context. context.owner) (filter (has_ended now) self.old.contexts)) }
        ensures kept { OnOk result (self.new ≡ record self.old { contexts = filter (lives now) self.old.contexts }) }
        ensures some { OnErr result (0 < count_by (has_ended now) self.old.contexts) }
        ensures err { OnErr result (self.new ≡ self.old) }
    {
        let owners = part(self.alloc, &mut self.contexts, Leaving::Ended, now)?;
        Ok(Items::of(owners))
    }

    /// Takes out the live one of that number. An error, which comes only where there is none, leaves the book as it was.
    pub fn remove(&mut self, number: u64, now: Moment) -> Result<Owner<View>, Missing>
        ensures owner { MatchResult result
            (λ owner. option_map (λ context. context.owner) (live_one number now self.old.contexts) ≡ Some owner)
            (λ _. live_one number now self.old.contexts ≡ None) }
        ensures ok { OnOk result (self.new ≡ record self.old { contexts = without number self.old.contexts }) }
        ensures err { OnErr result (self.new ≡ self.old) }
    {
        let Some(at) = place_of_live(&self.contexts, number, now) else {
            return Err(Missing);
        };
        Ok(owner_of(self.contexts.remove(at)))
    }

    /// Takes out the one of the least number.
    pub fn pop(&mut self) -> Option<Owner<View>>
        ensures owner { result ≡ option_map (λ context. context.owner) (slice_get self.old.contexts 0) }
        ensures rest { self.new ≡ record self.old { contexts = drop 1 self.old.contexts } }
    {
        if self.contexts.is_empty() {
            return None;
        }
        Some(owner_of(self.contexts.remove(0)))
    }
}

/// Puts one in where its number stands. An error leaves the list as it was.
fn put_in(contexts: &mut Vec<Context>, context: Context) -> Result<(), Refused>
    requires rise { Rises contexts.old.items }
    requires fresh { All (λ other. other.number ≢ context.number) contexts.old.items }
    ensures rise { Rises contexts.new.items }
    ensures added { OnOk result (contexts.new.items ≡ with_one context contexts.old.items) }
    ensures last { All (λ other. other.number < context.number) contexts.old.items
        → OnOk result (contexts.new.items ≡ contexts.old.items ++ context ∷ []) }
    ensures back { IfErr result (λ refused. (refused.why ≡ Why.NoMemory) × (refused.owner ≡ context.owner)) }
    ensures same { OnErr result (contexts.new.items ≡ contexts.old.items) }
{
    let at = place_for(contexts, context.number);
    match contexts.insert(at, context) {
        Ok(()) => Ok(()),
        Err(AllocFailed { value }) => Err(Refused {
            why: Why::NoMemory,
            owner: owner_of(value),
        }),
    }
}
