//! What the plain machine does at an event: a file for each kind.
pub mod closing;
pub mod creating;
pub mod keeping;
pub mod opening;
pub mod publishing;
pub mod sealing;
pub mod searching;
pub mod writing;
pub mod written;
