//! That bodies with a point in time ask for places.
ghost use Rattle.std.specs.Prelude.{ℕ, Bool, List, IfOk};
ghost use Rattle.search_json.specs.Searches.{ShowsInPit, search_of};

/// Each body that names a point in time asks for the place of each hit, so that its pages can be taken in turn.
pub fn pit_bodies_show_places()
    ensures { (has_index : Bool) (batch : ℕ) (body : List ℕ) → IfOk (search_of has_index batch body) ShowsInPit }
{}
