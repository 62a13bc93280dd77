//! That bytes are cut into requests in one way.
ghost use Rattle.std.specs.Prelude.{◌≡◌, ℕ, List};
ghost use Rattle.http_wire.specs.declared.request.Request.{Request};
ghost use Rattle.http_wire.specs.Requests.{HasNoRequest, IsEnd, IsRefused, Spells};

/// Bytes are cut into requests in one way only, and what ends them has one cause.
pub fn one_cut()
    ensures cut { (stream : List ℕ) (requests others : List Request) (rest other : List ℕ)
        → Spells stream requests rest → IsEnd rest → Spells stream others other → IsEnd other
        → (requests ≡ others) × (rest ≡ other) }
    ensures apart { (bytes : List ℕ) → HasNoRequest bytes → IsRefused bytes → ⊥ }
{}
