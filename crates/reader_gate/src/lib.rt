//! A reader of a body with counted holders: its owner and the passes that the owner lends. It ends once, after its last
//! holder, whatever threads do. `specs/` has the rule by which the one word counts the holds.
#![tactic(auto)]

mod ended;
mod gate;
mod hold;
mod law;
mod owner;
mod pass;

pub use ended::Ended;
pub use law::{a_reader_ends_once, no_end_beside_a_pass, no_end_beside_an_owner, no_second_end};
pub use owner::{Owner, make_reader};
pub use pass::Pass;
