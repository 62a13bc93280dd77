//! Sorts: by which keys the rows of a search are ordered, and where a row stands after given values. `specs/` says both as
//! an order of keys.
#![tactic(auto)]

mod after;
mod fits;
mod key;
mod law;
mod order;
mod sort;

pub use after::BadAfter;
pub use fits::BadSort;
pub use law::strict_total_order;
pub use sort::{Keys, SortBy, SortKey, SortSpec};
