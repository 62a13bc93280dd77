//! What the body of a search asks for: which rows, in which order, which of them, and at which point in time.
#![tactic(auto)]

mod after;
mod law;
mod names;
mod pit;
mod query;
mod search;
mod slice;
mod sort;
mod value;

pub use law::pit_bodies_show_places;
pub use pit::{context_keep, read_pit_close};
pub use search::{PitRef, SearchBody, read_search};
