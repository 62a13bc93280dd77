//! That rows whose bounds exclude a query don't match it.
ghost use Rattle.std.specs.Prelude.{List, All, IsTrue, IsFalse};
ghost use Rattle.es_types.specs.declared.mapping.Field.{Field};
ghost use Rattle.es_types.specs.declared.row.Row.{Row};
ghost use Rattle.es_query.specs.declared.query.Query.{Query};
ghost use Rattle.es_query.specs.Excluded.{excluded};
ghost use Rattle.es_query.specs.Limits.{bounds_of};
ghost use Rattle.es_query.specs.Matches.{matches};

/// Where the bounds of a list of rows exclude a query, no row of the list matches it.
pub fn nothing_excluded_matches()
    ensures { (mapping : List Field) (rows : List Row) (query : Query) → IsTrue (excluded mapping (bounds_of mapping rows) query)
        → All (λ (row : Row). IsFalse (matches mapping row.values query)) rows }
{}
