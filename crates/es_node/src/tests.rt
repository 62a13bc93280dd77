//! Runs of the whole program over memory, and a service by itself.
mod endings;
mod expiry;
mod most_pits;
mod pages_and_bulks;
mod queries;
mod session;
mod slices;
mod sorts;
