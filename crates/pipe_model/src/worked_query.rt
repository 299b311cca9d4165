//! Worked queries, as laws over the definitions: each holds by computation.

ghost use Rattle.std.specs.Prelude.{◌≡◌, ◌∷◌, [], false, true, pos, negsuc, codes, None, Some};
ghost use Rattle.pipe_columns.specs.declared.data_type.DataType.TheVariants as dt;
ghost use Rattle.pipe_model.specs.Expr.{aggregate, alias, column, count, len, sum};
ghost use Rattle.pipe_model.specs.Groupable.{is_fed, is_suited, is_valued, IsGroupable};
ghost use Rattle.pipe_model.specs.Kind as kind;
ghost use Rattle.pipe_model.specs.Query.{each, rows_alone};
ghost use Rattle.pipe_model.specs.Worked.{agg_of, by_key, key_value, len_of, sum_and_count};
ghost use Rattle.pipe_model.specs.WorkedExprs.{field, v};
ghost use Rattle.pipe_model.specs.WrittenTree.{agg_tree, dropped, written_tree};

/// A written query has its aggregates by name and kind, and what is written without alias has the
/// name of its column.
pub fn written_queries()
    ensures whole { written_tree (record {
      schema = key_value dt.Int64 dt.Int64;
      keys = column (codes "k") ∷ [];
      aggs = alias (aggregate sum v) (codes "s")
          ∷ alias (aggregate (count false) v) (codes "c") ∷ [];
      slice = None;
      keeps_order = false;
    }) ≡ by_key dt.Int64 dt.Int64 sum_and_count }
    ensures no_alias { agg_tree (aggregate sum v) ≡ agg_of (codes "v") kind.sum }
    ensures rows { agg_tree len ≡ len_of (codes "len") }
    ensures from_the_third { dropped (pos 2) ≡ 2 }
    ensures below_the_first { dropped (negsuc 0) ≡ 0 }
{}

/// Which queries have a value for each key and input, and aggregates that a table can keep.
pub fn groupable_queries()
    ensures sums { IsGroupable (by_key dt.Int64 dt.Int64 sum_and_count) }
    ensures unknown_key { is_valued (field (codes "k") dt.Int64 ∷ []) v ≡ false }
    ensures aggregate_as_key { is_valued (field (codes "v") dt.Int64 ∷ []) (aggregate sum v)
        ≡ false }
    ensures rows_alone { is_fed [] rows_alone ≡ true }
    ensures sum_of_date { is_suited (field (codes "v") dt.Date ∷ []) (agg_of (codes "s") kind.sum)
        ≡ false }
    ensures min_of_text { is_suited (field (codes "v") dt.String ∷ []) (agg_of (codes "s") kind.min)
        ≡ false }
    ensures first_of_date { is_suited (field (codes "v") dt.Date ∷ []) (agg_of (codes "s") kind.first) ≡ true }
{}
