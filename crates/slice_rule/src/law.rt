//! That each place is in one slice.
ghost use Rattle.std.specs.Prelude.{ℕ, ◌<◌, ◌≤◌};
ghost use Rattle.slice_rule.specs.Parts.{part};

/// However many slices there are, if any, the one that has a place is one of them.
pub fn each_place_has_a_slice()
    ensures { (max shards shard rank : ℕ) → 1 ≤ max → shard < shards → part max shards shard rank < max }
{}
