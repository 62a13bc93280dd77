//! The outside as the service sees it: where bytes come from and go to, and what time it is.
//!
//! Each trait says what a call tells of the bytes, where the object tells them, and counts the faults.
#![tactic(auto)]

mod clock;
mod link;
mod sink;
mod source;

pub use clock::{Clock, ReplayClock};
pub use link::{Link, Pair};
pub use sink::{MemSink, Sink};
pub use source::{Failed, MemSource, Source};
