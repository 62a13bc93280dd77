//! What is true of all requests.
ghost use Rattle.es_route.specs.Limits.{LeastIsTold};
ghost use Rattle.es_route.specs.Route.{PitSearchesShowPlaces};

use search_json::pit_bodies_show_places;

/// Each search of a point in time that a request makes asks for the place of each hit, so that its pages can be taken in turn.
pub fn pit_searches_show_places()
    ensures { PitSearchesShowPlaces }
{
    pit_bodies_show_places();
}

/// Of any limits that are broken the one that is told has the least rank.
pub fn least_limit_is_told()
    ensures { LeastIsTold }
{}
