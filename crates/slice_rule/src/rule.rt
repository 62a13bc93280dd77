//! The slice that has a place.
ghost use Rattle.std.specs.Prelude.{◌≡◌, ◌<◌, ◌≤◌};
ghost use Rattle.slice_rule.specs.Parts.{part, sharing};

/// The number of the one slice, of `max`, that has the place of that rank in a shard, of `shards`.
pub fn part(max: u32, shards: u32, shard: u32, rank: u32) -> u32
    requires some { 1 ≤ max }
    requires there { shard < shards }
    ensures is { result ≡ part max shards shard rank }
    ensures below { result < max }
{
    if max < shards {
        return shard % max;
    }
    shard + shards * (rank % sharing(max, shards, shard))
}

// How many slices share a shard, where there are at least as many slices as shards.
pub fn sharing(max: u32, shards: u32, shard: u32) -> u32
    requires there { shard < shards }
    requires enough { shards ≤ max }
    ensures is { result ≡ sharing max shards shard }
    ensures some { 1 ≤ result }
    ensures most { result ≤ max }
{
    let more = if shard < max % shards { 1 } else { 0 };
    max / shards + more
}
