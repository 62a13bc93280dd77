//! Bulks.
ghost use Rattle.std.specs.Prelude.{◌≡◌, ◌++◌, [], ◌∷◌, ℕ, List, All, OnOk, IsTrue, MatchResult, if◌then◌else◌};
ghost use Rattle.es_types.specs.Name.{is_index_name};
ghost use Rattle.doc_json.specs.Bulks.{LiesIn, item_of};
ghost use Rattle.es_route.specs.declared.ask.Ask.TheVariants as asks;
ghost use Rattle.es_route.specs.Items.{items_with};
ghost use Rattle.es_route.specs.Route.{AsksSound};
ghost use Rattle.es_rest.specs.Items.{line_of, outcome_of, with_index, with_name};
ghost use Rattle.es_rest.specs.Led.{BulkCut, ItemCut, ItemDone, ItemsDone};
ghost use Rattle.es_rest.specs.Talk.{Conversation, Interrupted};

use crate::items::{line_of, outcome_of};
use crate::refresh::refresh_all;
use crate::refusal::is_refused;
use doc_json::BulkAction;
use es_route::write_of;
use es_types::{Bytes, Copied, IndexName, Items, Moment, NoMemory, Text};
use list_machine::{Reply, Service};
use reply_json::{BulkLine, BulkOutcome, Response, RestFault};
use std::alloc::Global;
use std::collections::BTreeSet;
use std::marker::Model;

/// Names of indexes, each where it first stood.
#[derive(Drop)]
pub struct Changed {
    names: Vec<IndexName>,
    // The same names, to look them up.
    known: BTreeSet<String>,
}

impl Model for Changed {
    ghost use Rattle.std.specs.Prelude.{◌≡◌, ℕ, List};
    ghost use Rattle.std.specs.BTreeSet.{contains_text};
    ghost use Rattle.es_rest.specs.Items.{has_name};

    ghost Value = { List (List ℕ) };

    ghost view = { λ c. c.names.items };

    ghost invariant = { λ c. (name : List ℕ) → contains_text c.known name ≡ has_name name c.names.items };
}

impl Changed {
    fn make(alloc: Global) -> Changed
        ensures { result ≡ [] }
    {
        Changed {
            names: Vec::new(alloc),
            known: BTreeSet::new(alloc),
        }
    }

    // Adds the name of an index. It may be there after an error.
    fn add(&mut self, alloc: Global, index: &Text) -> Result<(), NoMemory>
        requires { IsTrue (is_index_name index.now) }
        ensures { OnOk result (self.new ≡ with_name self.old index.now) }
    {
        let text = index.as_str();
        if self.known.contains(text) {
            return Ok(());
        }
        let Ok(name) = IndexName::make(index.copy(alloc)?) else {
            unreachable!("the name is that of an index");
        };
        let key = String::from_str(alloc, text)?;
        self.names.reserve(1)?;
        self.known.insert(key)?;
        self.names.push_reserved(name);
        Ok(())
    }

    // The names, where they are wanted.
    fn names_if(&self, wanted: bool) -> &[IndexName]
        ensures { result.now ≡ (if wanted then self.now else []) }
    {
        if wanted { self.names.as_slice() } else { &[] }
    }
}

/// What became of the items of a bulk: the lines of the response, and the indexes that changed.
#[derive(Drop)]
pub struct Written {
    pub lines: Vec<BulkLine>,
    pub changed: Changed,
}

// Notes what became of an item's Write. Its names move into its line.
fn note(
    alloc: Global,
    action: BulkAction,
    said: Reply,
    written: &mut Written,
) -> Result<(), NoMemory>
    requires { IsTrue (is_index_name action.index) }
    ensures lines { (body : List ℕ) → OnOk result (written.new.lines.items ≡ written.old.lines.items ++ line_of (item_of body action) (outcome_of action.index said) ∷ []) }
    ensures changed { OnOk result (written.new.changed ≡ with_index written.old.changed action.index said) }
{
    if !is_refused(&said) {
        written.changed.add(alloc, &action.index)?;
    }
    let outcome = outcome_of(alloc, &action.index, said)?;
    written.lines.push(line_of(action, outcome))?;
    Ok(())
}

// Asks for the Write of an item, or refuses it by itself.
fn write_item<V: Service>(
    alloc: Global,
    service: &mut V,
    body: &[u8],
    action: BulkAction,
    moment: Moment,
    written: &mut Written,
) -> Result<(), NoMemory>
    requires { LiesIn body.now action }
    ensures item { MatchResult result
        (λ _. ItemDone (V.limits service.old) (V.seat service.old) moment (V.front service.old) (V.front service.new) (item_of body.now action) written.old written.new)
        (λ _. ItemCut (V.limits service.old) (V.seat service.old) moment (V.front service.old) (V.front service.new) (item_of body.now action)) }
    ensures seat { V.seat service.new ≡ V.seat service.old }
    ensures limits { V.limits service.new ≡ V.limits service.old }
{
    match write_of(alloc, body, &action) {
        Ok(event) => {
            let said = service.ask(event, moment)?;
            note(alloc, action, said, written)
        }
        Err(RestFault::NoMemory) => Err(NoMemory),
        Err(fault) => {
            written
                .lines
                .push(line_of(action, BulkOutcome::Fault(fault)))?;
            Ok(())
        }
    }
}

// Goes through the items of a bulk.
fn write_items<V: Service>(
    alloc: Global,
    service: &mut V,
    body: &[u8],
    items: Vec<BulkAction>,
    moment: Moment,
) -> Result<Written, NoMemory>
    requires { All (LiesIn body.now) items.items }
    ensures items { MatchResult result
        (ItemsDone (V.limits service.old) (V.seat service.old) moment (items_with body.now items.items) (V.front service.old) (V.front service.new))
        (λ _. BulkCut (V.limits service.old) (V.seat service.old) moment (items_with body.now items.items) (V.front service.old) (V.front service.new)) }
    ensures seat { V.seat service.new ≡ V.seat service.old }
    ensures limits { V.limits service.new ≡ V.limits service.old }
{
    let mut written = Written {
        lines: Vec::new(alloc),
        changed: Changed::make(alloc),
    };
    for action in items {
        write_item(alloc, service, body, action, moment, &mut written)?;
    }
    Ok(written)
}

/// Serves a bulk: a Write of each item, and then a refresh of the indexes that changed, where it asks for that.
pub fn bulk<V: Service>(
    alloc: Global,
    service: &mut V,
    index: Option<Text>,
    body: Bytes,
    refresh: bool,
    items: Items<BulkAction>,
    moment: Moment,
) -> Result<Response, NoMemory>
    requires { AsksSound (asks.Bulk index body refresh items) }
    ensures talk { MatchResult result
        (Conversation (V.limits service.old) (V.seat service.old) moment (asks.Bulk index body refresh items) (V.front service.old) (V.front service.new))
        (λ _. Interrupted (V.limits service.old) (V.seat service.old) moment (asks.Bulk index body refresh items) (V.front service.old) (V.front service.new)) }
    ensures seat { V.seat service.new ≡ V.seat service.old }
    ensures limits { V.limits service.new ≡ V.limits service.old }
{
    // Each item names its index.
    drop(index);
    let written = write_items(alloc, service, body.as_slice(), items.into_inner(), moment)?;
    match refresh_all(alloc, service, written.changed.names_if(refresh), moment)? {
        Some(fault) => Ok(Response::Fault(fault)),
        None => Ok(Response::Bulk(Items::of(written.lines))),
    }
}
