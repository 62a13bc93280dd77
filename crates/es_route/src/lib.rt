//! What a request asks for, or why it is refused (Elasticsearch's reference pages for documents, bulks, refreshes, points
//! in time and searches).
#![tactic(auto)]

mod ask;
mod bodies;
mod documents;
mod items;
mod law;
mod limits;
mod methods;
mod moment;
mod params;
mod paths;
mod pits;
mod resource;
mod routing;
mod searches;
mod values;

pub use ask::Ask;
pub use items::write_of;
pub use law::{least_limit_is_told, pit_searches_show_places};
pub use moment::told_moment;
pub use resource::{Resource, routes};
pub use routing::{route, routed};
