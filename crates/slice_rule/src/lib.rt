//! Slices: which of a search's places each of several readers takes, so that together they take each place once. `specs/`
//! says it by the one slice that has a place.
#![tactic(auto)]

mod cover;
mod law;
mod rule;
mod slice;

pub use cover::{Cover, has};
pub use law::each_place_has_a_slice;
pub use rule::part;
pub use slice::{BadSlice, LEAST_SLICES, MOST_SLICES, Slice};
