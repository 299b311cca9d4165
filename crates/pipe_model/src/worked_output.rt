//! Worked output columns, as laws over the definitions: each holds by computation.

ghost use Rattle.std.specs.Prelude.{◌≡◌, ◌∷◌, [], false, codes, None};
ghost use Rattle.pipe_columns.specs.declared.data_type.DataType.TheVariants as dt;
ghost use Rattle.pipe_model.specs.Kind as kind;
ghost use Rattle.pipe_model.specs.Expr.{column};
ghost use Rattle.pipe_model.specs.Output.{output_schema};
ghost use Rattle.pipe_model.specs.Query.{each, rows_alone};
ghost use Rattle.pipe_model.specs.Worked.{by_key, sum_alone, sum_and_mean};
ghost use Rattle.pipe_model.specs.WorkedExprs.{field, v};

/// The output has the keys' columns, then those of the aggregates: the two halves of a mean stand
/// under names of their own, a small sum is wide, and counts are unsigned.
pub fn output_columns()
    ensures { output_schema (record {
      schema = field (codes "k") dt.String ∷ field (codes "v") dt.Int8 ∷ [];
      keys = column (codes "k") ∷ [];
      aggs = record { name = codes "s"; kind = kind.sum; input = each v }
          ∷ record { name = codes "lo"; kind = kind.min; input = each v }
          ∷ record { name = codes "m"; kind = kind.mean; input = each v }
          ∷ record { name = codes "n"; kind = kind.len; input = rows_alone } ∷ [];
      slice = None;
      keeps_order = false;
    })
        ≡ field (codes "k") dt.String ∷ field (codes "s") dt.Int64 ∷ field (codes "lo") dt.Int8
        ∷ field (codes "m_sum") dt.Int128 ∷ field (codes "m_count") dt.UInt32
        ∷ field (codes "n") dt.UInt32 ∷ [] }
{}

/// A sum of small numbers is one of Int64, that of truths counts in UInt32, one of UInt32 stays so,
/// and those of texts have the type of texts.
pub fn columns_of_sums()
    ensures small { output_schema (by_key dt.Int64 dt.Int8 sum_alone)
        ≡ field (codes "k") dt.Int64 ∷ field (codes "s") dt.Int64 ∷ [] }
    ensures truths { output_schema (by_key dt.Int64 dt.Boolean sum_alone)
        ≡ field (codes "k") dt.Int64 ∷ field (codes "s") dt.UInt32 ∷ [] }
    ensures unsigned { output_schema (by_key dt.Int64 dt.UInt32 sum_alone)
        ≡ field (codes "k") dt.Int64 ∷ field (codes "s") dt.UInt32 ∷ [] }
    ensures texts { output_schema (by_key dt.Int64 dt.String sum_and_mean)
        ≡ field (codes "k") dt.Int64 ∷ field (codes "s") dt.String
        ∷ field (codes "m") dt.String ∷ [] }
{}
