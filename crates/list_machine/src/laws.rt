//! What is true of every history.
ghost use Rattle.std.specs.Prelude.{◌≡◌, ℕ, ◌≤◌, List, ◌++◌, length, filter, Option, Some, None, All, AllPairs, Contains, IsTrue};
ghost use Rattle.std.specs.List.Sorted.{IsPermutation};
ghost use Rattle.es_types.specs.declared.limits.TheConstants.{ALL_SHARDS};
ghost use Rattle.es_query.specs.declared.query.Query.{Query};
ghost use Rattle.es_sort.specs.declared.sort.SortSpec.{SortSpec};
ghost use Rattle.slice_rule.specs.declared.slice.Slice.{Slice};
ghost use Rattle.list_machine.specs.declared.event.Entry.{Entry};
ghost use Rattle.list_machine.specs.declared.event.Limits.{Limits};
ghost use Rattle.list_machine.specs.Pages.{Enumerates};
ghost use Rattle.list_machine.specs.Run.{IsBounded, History, PutsObject, reply_of, state_of};
ghost use Rattle.list_machine.specs.Sliced.{IsInOne, has_place, slice_of};
ghost use Rattle.list_machine.specs.Seen.Stores.{IsCounted};
ghost use Rattle.list_machine.specs.State.{HasObjects, IsSound};
ghost use Rattle.list_machine.specs.Views.{HasPlaces, Place, View, comes_before, enumeration, found};

use crate::{Event, Reply};
use es_sort::strict_total_order;
use es_types::fit_gives_values;
use slice_rule::each_place_has_a_slice;

/// Pages of a point in time that are taken in turn are a prefix of the sorted matching documents of its view,
/// and all of them once a page is short, in every history.
pub fn pages_in_turn()
    ensures { (limits : Limits) (history : History) → Enumerates limits history }
{
    strict_total_order();
}

/// The enumeration of a view, whose shards have at most 2^32 rows, is the one list of the places that a search wants in which each
/// comes before those after it.
pub fn one_enumeration()
    ensures same { (view : View) (query : Query) (sort : SortSpec) (slice : Option Slice) → IsPermutation (found view query slice) (enumeration view query sort slice) }
    ensures ordered { (view : View) (query : Query) (sort : SortSpec) (slice : Option Slice) → HasPlaces view
        → AllPairs (λ (a b : Place). IsTrue (comes_before view sort a b)) (enumeration view query sort slice) }
    ensures only { (view : View) (query : Query) (sort : SortSpec) (slice : Option Slice) (places : List Place) → HasPlaces view → IsPermutation (found view query slice) places
        → AllPairs (λ (a b : Place). IsTrue (comes_before view sort a b)) places → places ≡ enumeration view query sort slice }
{
    strict_total_order();
}

/// However many slices there are of a search, if any, each of its places is in the enumeration of exactly one of them. A slice's
/// enumeration is that of the whole search, with other places left out.
pub fn slices_share_out()
    ensures one { (view : View) (query : Query) (sort : SortSpec) (max : ℕ) (place : Place) → 1 ≤ max
        → Contains (enumeration view query sort None) place → IsInOne view query sort max place }
    ensures rest { (view : View) (query : Query) (sort : SortSpec) (max id : ℕ)
        → enumeration view query sort (Some (slice_of max id)) ≡ filter (has_place view max id) (enumeration view query sort None) }
{
    strict_total_order();
    each_place_has_a_slice();
}

/// Every state that the machine comes to is sound. Where each put of the history is a JSON object, so is each row.
pub fn sound_states()
    ensures sound { (limits : Limits) (history : History) → IsSound (state_of limits history) }
    ensures objects { (limits : Limits) (history : History)
        → All (λ (entry : Entry). PutsObject entry.event) history → HasObjects (state_of limits history) }
    // A Seal answers no more numbers than there may be shards.
    ensures sealed { (limits : Limits) (history : History) (entry : Entry) (index numbers : List ℕ)
        → entry.event ≡ Event.Seal index → reply_of limits history entry ≡ Reply.Sealed numbers → length numbers ≤ ALL_SHARDS }
    // So are its numbers and sizes, by how many entries came before.
    ensures counted { (limits : Limits) (history : History)
        → All (λ (entry : Entry). IsBounded entry.event) history → IsCounted (length history) (state_of limits history) }
    // No entry changes the limits.
    ensures limits { (limits : Limits) (history : History) → (state_of limits history).limits ≡ limits }
    // The moment never falls.
    ensures moments { (limits : Limits) (history more : History)
        → (state_of limits history).moment ≤ (state_of limits (history ++ more)).moment }
{
    fit_gives_values();
}
