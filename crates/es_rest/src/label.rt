//! By what requests of one event are answered.
ghost use Rattle.std.specs.Prelude.{◌≡◌, [], ◌∷◌, IfOk, if◌then◌else◌};
ghost use Rattle.es_rest.specs.declared.refusal.Named.TheVariants as named;
ghost use Rattle.es_rest.specs.Talk.{search_named, search_route, sent_text};

use crate::refusal::Named;
use ctx_ids::ContextId;
use es_types::{Copied, DocId, IndexName, NoMemory, Text};
use list_machine::Target;
use reply_json::RouteName;
use std::alloc::Global;

/// By what a request of one event is answered: what it names, its route, and the index that it refreshes where it is
/// taken.
#[derive(Drop)]
pub struct Label {
    pub names: Named,
    pub route: RouteName,
    pub refreshed: Vec<IndexName>,
}

// The index, where a refresh is asked.
fn refreshed_if(alloc: Global, refresh: bool, index: &IndexName) -> Result<Vec<IndexName>, NoMemory>
    ensures { IfOk result (λ indexes. indexes.items ≡ (if refresh then index.now ∷ [] else [])) }
{
    let mut indexes = Vec::new(alloc);
    if refresh {
        indexes.push(index.copy(alloc)?)?;
    }
    Ok(indexes)
}

/// By what a request of an index on that route is answered, where it refreshes none.
pub fn index_label(alloc: Global, index: &IndexName, route: RouteName) -> Result<Label, NoMemory>
    ensures names { IfOk result (λ label. label.names ≡ named.Index index.now) }
    ensures route { IfOk result (λ label. label.route ≡ route) }
    ensures refreshed { IfOk result (λ label. label.refreshed.items ≡ []) }
{
    let refreshed = Vec::new(alloc);
    let names = Named::Index(index.text().copy(alloc)?);
    Ok(Label {
        names,
        route,
        refreshed,
    })
}

/// By what the put of a document is answered.
pub fn put_label(
    alloc: Global,
    index: &IndexName,
    id: &DocId,
    refresh: bool,
) -> Result<Label, NoMemory>
    ensures names { IfOk result (λ label. label.names ≡ named.Index index.now) }
    ensures route { IfOk result (λ label. label.route ≡ RouteName.Put index.now id.now) }
    ensures refreshed { IfOk result (λ label. label.refreshed.items ≡ (if refresh then index.now ∷ [] else [])) }
{
    let refreshed = refreshed_if(alloc, refresh, index)?;
    let names = Named::Index(index.text().copy(alloc)?);
    let index = index.copy(alloc)?;
    let id = id.copy(alloc)?;
    Ok(Label {
        names,
        route: RouteName::Put { index, id },
        refreshed,
    })
}

/// By what the removal of a document is answered.
pub fn remove_label(
    alloc: Global,
    index: &IndexName,
    id: &DocId,
    refresh: bool,
) -> Result<Label, NoMemory>
    ensures names { IfOk result (λ label. label.names ≡ named.Index index.now) }
    ensures route { IfOk result (λ label. label.route ≡ RouteName.Remove index.now id.now) }
    ensures refreshed { IfOk result (λ label. label.refreshed.items ≡ (if refresh then index.now ∷ [] else [])) }
{
    let refreshed = refreshed_if(alloc, refresh, index)?;
    let names = Named::Index(index.text().copy(alloc)?);
    let index = index.copy(alloc)?;
    let id = id.copy(alloc)?;
    Ok(Label {
        names,
        route: RouteName::Remove { index, id },
        refreshed,
    })
}

// The text of an id as it was sent.
fn sent_text(alloc: Global, sent: Option<ContextId>) -> Result<Text, NoMemory>
    ensures { IfOk result (λ text. text ≡ sent_text sent) }
{
    match sent {
        Some(id) => id.to_text(alloc),
        None => Ok(Text::of(String::new(alloc))),
    }
}

/// By what a search is answered; `sent` is the id that its request named.
pub fn search_label(
    alloc: Global,
    target: &Target,
    sent: Option<ContextId>,
) -> Result<Label, NoMemory>
    ensures names { IfOk result (λ label. label.names ≡ search_named target.now sent) }
    ensures route { IfOk result (λ label. label.route ≡ search_route target.now) }
    ensures refreshed { IfOk result (λ label. label.refreshed.items ≡ []) }
{
    let refreshed = Vec::new(alloc);
    match target {
        Target::Index(index) => Ok(Label {
            names: Named::Index(index.text().copy(alloc)?),
            route: RouteName::Search { pit: None },
            refreshed,
        }),
        Target::Pit { number, keep: _ } => Ok(Label {
            names: Named::Context(sent_text(alloc, sent)?),
            route: RouteName::Search { pit: Some(*number) },
            refreshed,
        }),
    }
}
