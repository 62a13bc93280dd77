//! Requests and their responses: the events that a request takes, what it is answered, and one connection after the other
//! (Elasticsearch's reference pages for documents, bulks, refreshes, points in time and searches).
#![tactic(auto)]

mod bulk;
mod connection;
mod converse;
mod items;
mod label;
mod refresh;
mod refusal;
mod single;
mod work;

pub use connection::{ConnEnd, serve_connection};
pub use es_route::{Ask, pit_searches_show_places, route};
