//! The points in time by their numbers, with their owners: what a reader sees, and the book that keeps the owners. Each
//! owner that comes in goes out once, by a call that says which. `specs/` says what each call makes of the list.
#![tactic(auto)]

mod book;
mod context;
mod leaving;
mod live;
mod shard_view;
mod view;

pub use book::ContextBook;
pub use context::{Context, LendFault, Missing, PageEnd, Refused, Why};
pub use shard_view::ShardView;
pub use view::View;
