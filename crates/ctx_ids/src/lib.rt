//! The ids of contexts: points in time, scrolls and tasks are named by a kind and a number, and each such name has one text.
#![tactic(auto)]

mod id;
mod law;

pub use id::{BadId, ContextId, Kind};
pub use law::no_two_ids_have_one_text;
