//! The machine that the service is measured by: one thread over plain lists. Its definitions stand in `specs/`:
//! rows, views, pages, the state, one step with its reply, the run over a history, and pages taken in turn.
//! `specs/Seen/` says how the code is seen.
#![tactic(auto)]

mod context;
mod event;
mod first;
mod laws;
mod machine;
mod page;
mod service;
mod steps;
mod store;

pub use event::{Change, Entry, Event, Limits, Reply, Target, Which, Wrote};
pub use first::docs;
pub use laws::{one_enumeration, pages_in_turn, slices_share_out, sound_states};
pub use machine::Machine;
pub use page::paging::answer;
pub use page::request::{Answer, Counts, Hit, SearchRequest};
pub use page::view::{ShardRef, ViewRef};
pub use service::Service;
pub use steps::publishing::apply_ops;
pub use steps::searching::refused;
pub use steps::writing::make_op;
pub use steps::written::{Lasts, enter, lasts_of};
