//! Whether a sort fits a mapping.
ghost use Rattle.std.specs.Prelude.{◌≡◌, MatchResult, IsTrue, IsFalse};
ghost use Rattle.std.specs.List.{list_all};
ghost use Rattle.es_sort.specs.Fits.{is_mapped, sort_fits};

use crate::{SortBy, SortKey, SortSpec};
use es_types::Mapping;

/// A sort by a field that isn't mapped.
#[derive(Drop)]
pub struct BadSort;

impl SortSpec {
    /// Whether each field of the sort is mapped.
    pub fn fit(&self, mapping: &Mapping) -> Result<(), BadSort>
        ensures { MatchResult result (λ _. IsTrue (sort_fits mapping.now self.now)) (λ _. IsFalse (sort_fits mapping.now self.now)) }
    {
        if are_mapped(mapping, self.keys.as_slice()) {
            Ok(())
        } else {
            Err(BadSort)
        }
    }
}

// Whether the field of each key is mapped.
fn are_mapped(mapping: &Mapping, keys: &[SortKey]) -> bool
    ensures { result ≡ list_all (λ key. is_mapped mapping.now key.by) keys.now }
{
    keys.iter().all(|key| is_mapped(mapping, &key.by))
}

fn is_mapped(mapping: &Mapping, by: &SortBy) -> bool
    ensures { result ≡ is_mapped mapping.now by.now }
{
    match by {
        SortBy::Field(name) => mapping.kind_of(name.as_str()).is_some(),
        SortBy::Place => true,
    }
}
