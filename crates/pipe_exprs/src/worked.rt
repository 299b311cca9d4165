//! Worked arenas and columns, as laws over the definitions: each holds by computation.

ghost use Rattle.std.specs.Prelude.{◌≡◌, ◌∷◌, [], codes, false, true, pos, negsuc};
ghost use Rattle.pipe_columns.specs.Frame.{FrameData};
ghost use Rattle.pipe_columns.specs.declared.any_value.AnyValue.TheVariants as av;
ghost use Rattle.pipe_columns.specs.declared.data_type.DataType.TheVariants as dt;
ghost use Rattle.pipe_columns.specs.declared.operator.Operator.TheVariants as op;
ghost use Rattle.pipe_exprs.specs.declared.expression.AExpr.TheVariants as ax;
ghost use Rattle.pipe_exprs.specs.Evaluated.{counted_rows, evaluated};
ghost use Rattle.pipe_exprs.specs.Trees.{children_below, tree};
ghost use Rattle.pipe_exprs.specs.Worked.{shared_sum, two_rows};
ghost use Rattle.pipe_model.specs.Expr as expr;
ghost use Rattle.pipe_model.specs.WorkedExprs.{small, v};

/// An expression names only nodes that are there.
pub fn worked_children()
    ensures { children_below 0 (ax.Cast (record { 0 = 0 }) dt.Int8) ≡ false }
{}

/// A node that two others name stands in both of their trees.
pub fn worked_trees()
    ensures { tree shared_sum (record { 0 = 2 })
        ≡ expr.binary (expr.binary v op.Plus v) op.Plus (expr.binary v op.Plus v) }
{}

/// A sum has its own name, the type of its operands and no flag, and wraps; a null stays.
pub fn worked_column()
    ensures { evaluated (expr.alias (expr.binary v op.Plus (small (pos 1))) (codes "w")) two_rows
        ≡ record {
          name = codes "w";
          dtype = dt.Int8;
          sorted = false;
          values = av.Int (negsuc 127) ∷ av.Null ∷ [];
        } }
{}

/// An alias of a column keeps its flag and its values.
pub fn worked_alias()
    ensures { evaluated (expr.alias v (codes "w")) two_rows ≡ record {
      name = codes "w";
      dtype = dt.Int8;
      sorted = true;
      values = av.Int (pos 127) ∷ av.Null ∷ [];
    } }
{}

/// The number of rows is fed a null for each.
pub fn worked_count()
    ensures { counted_rows two_rows ≡ record {
      name = codes "len";
      dtype = dt.UInt32;
      sorted = false;
      values = av.Null ∷ av.Null ∷ [];
    } }
{}
