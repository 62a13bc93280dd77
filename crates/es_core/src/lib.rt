//! The core of the service: the plain machine's state, held so that each step is fast. It stands for a history, which
//! it doesn't keep (`specs/Stands.antt`).
#![tactic(auto)]

mod catalog;
mod contexts;
mod index;
mod looking;
mod node;
mod planning;
mod shard;
mod turned;
mod viewing;

pub use node::Core;
pub use turned::{Brought, Chore, Gathered, Plan, Totals, Turned};
