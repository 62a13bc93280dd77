//! A slice: its number, and how many there are.
ghost use Rattle.std.specs.Prelude.{◌≡◌, ◌≤◌, ◌<◌, ◌⊎◌, MatchResult};
ghost use Rattle.slice_rule.specs.Parts.{IsSlice};

/// How many slices there may be at least, and at most.
pub const LEAST_SLICES: u32 = 2;

pub const MOST_SLICES: u32 = 1_024;

/// A slice that cannot be: there are fewer or more of them than there may be, or it is none of theirs.
#[derive(Drop)]
pub struct BadSlice;

/// One of `max` slices by its number from 0 on. `make` gives one that there can be.
#[derive(Clone, Copy)]
pub struct Slice {
    pub id: u32,
    pub max: u32,
}

impl Slice {
    /// The slice of that number, where there can be one.
    pub fn make(id: u32, max: u32) -> Result<Slice, BadSlice>
        ensures { MatchResult result (λ slice. IsSlice slice × (slice.id ≡ id) × (slice.max ≡ max))
            (λ _. (max < LEAST_SLICES) ⊎ ((MOST_SLICES < max) ⊎ (max ≤ id))) }
    {
        if max < LEAST_SLICES || max > MOST_SLICES || id >= max {
            return Err(BadSlice);
        }
        Ok(Slice { id, max })
    }
}
