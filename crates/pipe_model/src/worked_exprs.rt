//! Worked expressions, as laws over the definitions: each holds by computation.

ghost use Rattle.std.specs.Prelude.{◌≡◌, ◌∷◌, [], true, false, pos, negsuc, codes, None, Some};
ghost use Rattle.pipe_columns.specs.declared.any_value.AnyValue.TheVariants as av;
ghost use Rattle.pipe_columns.specs.declared.data_type.DataType.TheVariants as dt;
ghost use Rattle.pipe_columns.specs.Frame.{frame_of};
ghost use Rattle.pipe_columns.specs.declared.operator.Operator.TheVariants as op;
ghost use Rattle.pipe_model.specs.Expr.{alias, binary, cast, column, name_of, ternary};
ghost use Rattle.pipe_model.specs.Typing.{type_of};
ghost use Rattle.pipe_model.specs.Value.{value};
ghost use Rattle.pipe_model.specs.WorkedExprs.{alone, field, large, no_truth, small, truth, v};

/// A column has the type of the first field of its name, and its value in a row. Operands of two
/// types have none together, and names come from the left.
pub fn worked_types()
    ensures typed { type_of v (field (codes "k") dt.Int64 ∷ field (codes "v") dt.Int8 ∷ [])
        ≡ Some dt.Int8 }
    ensures unknown { type_of v (field (codes "k") dt.Int64 ∷ []) ≡ None }
    ensures valued { value v
        (frame_of (field (codes "k") dt.Int64 ∷ field (codes "v") dt.Int8 ∷ [])
        ((av.Int (pos 1) ∷ av.Int (pos 5) ∷ []) ∷ (av.Int (pos 2) ∷ av.Int (pos 6) ∷ []) ∷ [])) 1
        ≡ av.Int (pos 6) }
    ensures two_types { type_of (binary v op.Plus (column (codes "w")))
        (field (codes "v") dt.Int8 ∷ field (codes "w") dt.Int16 ∷ []) ≡ None }
    ensures literal_name { name_of (binary (small (pos 1)) op.Plus v) ≡ codes "literal" }
    ensures alias_name { name_of (alias v (codes "w")) ≡ codes "w" }
{}

/// Arithmetic wraps, division rounds down, and a zero divisor gives null; logic is of three truths,
/// a cast out of range gives null, and a null predicate takes the falsy branch.
pub fn worked_values()
    ensures wraps { alone (binary (small (pos 127)) op.Plus (small (pos 1))) ≡ av.Int (negsuc 127) }
    ensures rounds_down { alone (binary (small (pos 7)) op.FloorDivide (small (negsuc 1)))
        ≡ av.Int (negsuc 3) }
    ensures remains { alone (binary (small (pos 7)) op.Modulus (small (negsuc 1)))
        ≡ av.Int (negsuc 0) }
    ensures zero_divisor { alone (binary (small (pos 7)) op.FloorDivide (small (pos 0))) ≡ av.Null }
    ensures least_by_minus_one { alone (binary (small (negsuc 127)) op.FloorDivide (small (negsuc 0)))
        ≡ av.Int (negsuc 127) }
    ensures null_and_false { alone (binary no_truth op.And (truth false)) ≡ av.Boolean false }
    ensures null_or_true { alone (binary no_truth op.Or (truth true)) ≡ av.Boolean true }
    ensures out_of_range { alone (cast (large (pos 300)) dt.Int8) ≡ av.Null }
    ensures true_as_number { alone (cast (truth true) dt.Int64) ≡ av.Int (pos 1) }
    ensures null_predicate { alone (ternary no_truth (small (pos 1)) (small (pos 2)))
        ≡ av.Int (pos 2) }
{}
