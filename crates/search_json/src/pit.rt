//! Points in time in the bodies of searches and closings.
ghost use Rattle.std.specs.Prelude.{◌≡◌, option_map};
ghost use Rattle.serde_json.specs.View.{view};
ghost use Rattle.es_types.specs.Fail.{Answers};
ghost use Rattle.ctx_ids.specs.Ids.{id_of};
ghost use Rattle.search_json.specs.Pits.{asked_keep, breaks_keep, closed_in, context_keep, id_told, keep_in, pit_close_of, pit_in, pit_of, text_in};

use ctx_ids::ContextId;
use doc_json::{BodyFault, is_form, read_data};
use es_types::{CONTEXT_KEEP, Fail, KeepAlive};
use serde_json::Value;
use std::alloc::Global;

/// How long a body asks that a point in time is kept.
#[derive(Clone, Copy)]
pub(crate) enum Keep {
    NotAsked,
    For(KeepAlive),
    /// A text that is no time, or a time that is too long.
    Broken,
}

/// The point in time that a body names, before it is said whether there can be such a one.
#[derive(Clone, Copy)]
pub(crate) struct Named {
    pub id: Option<ContextId>,
    pub keep: Keep,
}

/// How long a text says that a point in time is kept, where it may be kept so long: at most 24 hours.
#[tactic(auto, unfolding(crate::specs::Pits::context_keep))]
pub fn context_keep(text: &str) -> Option<KeepAlive>
    ensures { result ≡ context_keep text.now }
{
    match KeepAlive::read(text.as_bytes()) {
        Ok(keep) if keep.millis() <= CONTEXT_KEEP => Some(keep),
        _ => None,
    }
}

#[tactic(auto, unfolding(crate::specs::Pits::keep_in))]
fn keep_in(value: &Value) -> Option<Keep>
    ensures { result ≡ keep_in (view value.now) }
{
    match value.get("keep_alive") {
        Some(keep) => match context_keep(keep.as_str()?) {
            Some(keep) => Some(Keep::For(keep)),
            None => Some(Keep::Broken),
        },
        None => Some(Keep::NotAsked),
    }
}

// The text of a member.
#[tactic(auto, unfolding(crate::specs::Pits::text_in))]
fn text_in<'a>(name: &str, value: &'a Value) -> Option<&'a str>
    ensures { option_map (λ text. text.now) result ≡ text_in name.now (view value.now) }
{
    value.get(name)?.as_str()
}

fn id_of(text: &str) -> Option<ContextId>
    ensures { result ≡ id_of text.now }
{
    ContextId::read_text(text.as_bytes()).ok()
}

#[tactic(auto, unfolding(crate::specs::Pits::pit_in))]
fn pit_in(value: &Value) -> Option<Named>
    ensures { result ≡ pit_in (view value.now) }
{
    if !is_form(value, &["id", "keep_alive"]) {
        return None;
    }
    let id = text_in("id", value)?;
    let keep = keep_in(value)?;
    Some(Named {
        id: id_of(id),
        keep,
    })
}

/// The point in time that a body names, if it names one.
#[tactic(auto, unfolding(crate::specs::Pits::pit_of))]
pub(crate) fn pit_of(value: &Value) -> Option<Option<Named>>
    ensures { result ≡ pit_of (view value.now) }
{
    match value.get("pit") {
        Some(pit) => Some(Some(pit_in(pit)?)),
        None => Some(None),
    }
}

/// Whether it can't be kept as long as the body asks.
pub(crate) fn breaks_keep(named: Option<Named>) -> bool
    ensures { result ≡ breaks_keep named }
{
    match named {
        Some(
            Named {
                id: _,
                keep: Keep::Broken,
            },
        ) => true,
        _ => false,
    }
}

/// How long it is kept, where the body asks that.
pub(crate) fn asked_keep(keep: Keep) -> Option<KeepAlive>
    ensures { result ≡ asked_keep keep }
{
    match keep {
        Keep::For(keep) => Some(keep),
        _ => None,
    }
}

/// The id, where the text was one.
pub(crate) fn id_told(id: Option<ContextId>) -> Result<ContextId, BodyFault>
    ensures { result ≡ id_told id }
{
    match id {
        Some(id) => Ok(id),
        None => Err(BodyFault::BadId),
    }
}

#[tactic(auto, unfolding(crate::specs::Pits::closed_in))]
fn closed_in(value: &Value) -> Option<&str>
    ensures { option_map (λ text. text.now) result ≡ closed_in (view value.now) }
{
    if is_form(value, &["id"]) {
        text_in("id", value)
    } else {
        None
    }
}

/// The id of the point in time that a body says is closed: an object of an `id` alone. A body that is no JSON is told first, then
/// another form, then a text that is no id.
#[tactic(auto, unfolding(crate::specs::Pits::pit_close_of))]
pub fn read_pit_close(alloc: Global, body: &[u8]) -> Result<ContextId, Fail<BodyFault>>
    ensures { Answers result (pit_close_of body.now) }
{
    let Some(value) = read_data(alloc, body)? else {
        return Err(Fail::Is(BodyFault::NotJson));
    };
    let Some(text) = closed_in(&value) else {
        return Err(Fail::Is(BodyFault::Shape));
    };
    match id_told(id_of(text)) {
        Ok(id) => Ok(id),
        Err(fault) => Err(Fail::Is(fault)),
    }
}
