//! What a slice has of a shard.
ghost use Rattle.std.specs.Prelude.{◌≡◌, ◌<◌, ◌==◌, ℕ, not};
ghost use Rattle.slice_rule.specs.Parts.{IsFine, IsSlice, covers, has, is_none, part};

use crate::Slice;
use crate::rule::sharing;

/// What a slice has of a shard: nothing, all, or the places whose rank leaves `j` when divided by `c`, which is at least 2.
#[derive(Clone, Copy)]
pub enum Cover {
    None,
    All,
    Part { j: u32, c: u32 },
}

impl Slice {
    /// What the slice has of a shard, of so many.
    pub fn cover(&self, shard: u32, shards: u32) -> Cover
        requires slice { IsSlice self.now }
        requires there { shard < shards }
        ensures is { (rank : ℕ) → has result rank ≡ (part self.now.max shards shard rank == self.now.id) }
        ensures fine { IsFine result }
        ensures none { is_none result ≡ not (covers self.now.max shards shard self.now.id) }
    {
        if self.max < shards {
            return if shard % self.max == self.id {
                Cover::All
            } else {
                Cover::None
            };
        }
        if self.id % shards != shard {
            return Cover::None;
        }
        let c = sharing(self.max, shards, shard);
        if c == 1 {
            return Cover::All;
        }
        Cover::Part {
            j: self.id / shards,
            c,
        }
    }
}

/// Whether a cover has the place of that rank.
pub fn has(cover: &Cover, rank: u32) -> bool
    ensures { result ≡ has cover.now rank }
{
    match cover {
        Cover::None => false,
        Cover::All => true,
        Cover::Part { j, c } => *c > 0 && rank % *c == *j,
    }
}
