//! That sorts order the places of a view totally.
ghost use Rattle.std.specs.Prelude.{◌≡◌, ℕ, List};
ghost use Rattle.std.specs.Cmp.{IsTotalOrder};
ghost use Rattle.std.specs.declared.cmp.Ordering.TheVariants.{Less, Equal};
ghost use Rattle.es_types.specs.declared.mapping.Field.{Field};
ghost use Rattle.es_types.specs.declared.row.Value.{Value};
ghost use Rattle.es_sort.specs.declared.sort.Keys.{Keys};
ghost use Rattle.es_sort.specs.declared.sort.SortSpec.{SortSpec};
ghost use Rattle.es_sort.specs.Keys.{full_key};
ghost use Rattle.es_sort.specs.Orders.{compare};

/// The order of keys is a strict total order on the places of a view, whatever the sort: no key is less than itself, what is
/// less than a lesser one is less, and of two rows at different places one is less.
pub fn strict_total_order()
    ensures total { (sort : SortSpec) → IsTotalOrder (compare sort) }
    ensures irreflexive { (sort : SortSpec) (key : Keys) → compare sort key key ≡ Equal }
    ensures transitive { (sort : SortSpec) (a b c : Keys) → compare sort a b ≡ Less → compare sort b c ≡ Less → compare sort a c ≡ Less }
    ensures apart { (mapping : List Field) (sort : SortSpec) (a b : List Value) (m n : ℕ)
        → compare sort (full_key mapping sort a m) (full_key mapping sort b n) ≡ Equal → m ≡ n }
{}
