//! Worked aggregates, as laws over the definitions: each holds by computation.

ghost use Rattle.std.specs.Prelude.{◌≡◌, ◌∷◌, [], true, false, pos, codes};
ghost use Rattle.pipe_columns.specs.declared.data_type.DataType.TheVariants as dt;
ghost use Rattle.pipe_columns.specs.declared.any_value.AnyValue.TheVariants as av;
ghost use Rattle.pipe_columns.specs.declared.operator.Operator.TheVariants as op;
ghost use Rattle.pipe_model.specs.Convertible.{convertible};
ghost use Rattle.pipe_model.specs.Expr.{aggregate, alias, binary, count, len, max, min, sum};
ghost use Rattle.pipe_model.specs.Kind as kind;
ghost use Rattle.pipe_model.specs.Merged.{merged};
ghost use Rattle.pipe_model.specs.Worked.{int};
ghost use Rattle.pipe_model.specs.WorkedExprs.{field, large, v};

/// Which expressions are aggregates that a table of groups can keep.
pub fn kept_aggregates()
    ensures one_alias { convertible (alias (aggregate sum v) (codes "s"))
        (field (codes "v") dt.Int8 ∷ []) ≡ true }
    ensures two_aliases { convertible (alias (alias (aggregate sum v) (codes "s")) (codes "t"))
        (field (codes "v") dt.Int8 ∷ []) ≡ false }
    ensures sum_and_one { convertible (binary (aggregate sum v) op.Plus (large (pos 1)))
        (field (codes "v") dt.Int8 ∷ []) ≡ false }
    ensures sum_and_sum { convertible (binary (aggregate sum v) op.Plus (aggregate sum v))
        (field (codes "v") dt.Int8 ∷ []) ≡ false }
    ensures max_of_date { convertible (aggregate (max false) v)
        (field (codes "v") dt.Date ∷ []) ≡ false }
    ensures min_of_boolean { convertible (aggregate (min false) v)
        (field (codes "v") dt.Boolean ∷ []) ≡ false }
    ensures count_with_nulls { convertible (aggregate (count true) v)
        (field (codes "v") dt.Int8 ∷ []) ≡ false }
    ensures count_without { convertible (aggregate (count false) v)
        (field (codes "v") dt.Int8 ∷ []) ≡ true }
    ensures number_of_rows { convertible len [] ≡ true }
{}

/// Sums of two lists wrap again, a mean of no value adds nothing to one of some, and the least of
/// both is null only where neither has one.
pub fn merged_results()
    ensures sums { merged kind.sum dt.UInt32 (int 4294967295 ∷ []) (int 1 ∷ []) ≡ int 0 ∷ [] }
    ensures means { merged kind.mean dt.Int8 (int 5 ∷ int 2 ∷ []) (av.Null ∷ int 0 ∷ [])
        ≡ int 5 ∷ int 2 ∷ [] }
    ensures no_mean { merged kind.mean dt.String (av.Null ∷ []) (av.Null ∷ []) ≡ av.Null ∷ [] }
    ensures least { merged kind.min dt.Int8 (int 5 ∷ []) (av.Null ∷ []) ≡ int 5 ∷ [] }
    ensures no_least { merged kind.min dt.Int8 (av.Null ∷ []) (av.Null ∷ []) ≡ av.Null ∷ [] }
    ensures counts { merged kind.count dt.Int8 (int 2 ∷ []) (int 3 ∷ []) ≡ int 5 ∷ [] }
{}
