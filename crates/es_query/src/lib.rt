//! Queries: which rows they find, and which lists of rows need not be looked at. `specs/` says both by cases on the query.
#![tactic(auto)]

mod bounds;
mod excluded;
mod fits;
mod law;
mod matches;
mod query;
mod values;

pub use bounds::bounds_of;
pub use fits::BadQuery;
pub use law::nothing_excluded_matches;
pub use query::{Bool, Edge, Need, Query, Side};
