//! Worked texts and trees, as laws over the definitions: each holds by computation.

ghost use Rattle.std.specs.Prelude.{◌≡◌, ◌∷◌, [], codes, false, true, negsuc, pos, None, Some};
ghost use Rattle.pipe_columns.specs.declared.any_value.AnyValue.TheVariants as av;
ghost use Rattle.pipe_columns.specs.declared.data_type.DataType.TheVariants as dt;
ghost use Rattle.pipe_columns.specs.declared.operator.Operator.TheVariants as op;
ghost use Rattle.pipe_exprs.specs.declared.expression.AExpr.TheVariants as ax;
ghost use Rattle.pipe_model.specs.Expr as expr;
ghost use Rattle.pipe_model.specs.WorkedExprs.{v};
ghost use Rattle.pipe_aggs.specs.Worked.{sum_and_count, with_keys};
ghost use Rattle.pipe_query.specs.Flat.{flat_all, node, roots};
ghost use Rattle.pipe_query.specs.Worked.{asked, expressed, sum_and_count_with};

/// A query has three members, and two more if wanted. Of a doubled one the last is read.
pub fn worked_queries()
    ensures whole { asked (sum_and_count_with []) ≡ Some sum_and_count }
    ensures list { asked (codes "[]") ≡ None }
    ensures doubled { asked (sum_and_count_with (codes ",\"keys\":[\"v\"]"))
        ≡ Some (with_keys (v ∷ [])) }
    ensures unknown { asked (sum_and_count_with (codes ",\"limit\":1")) ≡ None }
    ensures ordered { asked (sum_and_count_with (codes ",\"maintain_order\":true"))
        ≡ Some (record sum_and_count { keeps_order = true }) }
    ensures no_field { asked (codes "{\"schema\":[],\"keys\":[],\"aggs\":[]}") ≡ None }
    ensures wide_field { asked (codes "{\"schema\":[[\"k\",\"Int128\"]],\"keys\":[],\"aggs\":[]}")
        ≡ None }
{}

/// A slice is null, or a pair of an integer and one that isn't negative.
pub fn worked_slices()
    ensures none { asked (sum_and_count_with (codes ",\"slice\":null")) ≡ Some sum_and_count }
    ensures some { asked (sum_and_count_with (codes ",\"slice\":[-1,2]"))
        ≡ Some (record sum_and_count { slice = Some (negsuc 0, 2) }) }
    ensures alone { asked (sum_and_count_with (codes ",\"slice\":[1]")) ≡ None }
    ensures negative { asked (sum_and_count_with (codes ",\"slice\":[1,-2]")) ≡ None }
    ensures minus_zero { asked (sum_and_count_with (codes ",\"slice\":[-0,2]")) ≡ None }
{}

/// An expression is a column's name, or an object of one member.
pub fn worked_expressions()
    ensures name { expressed (codes "\"v\"") ≡ Some v }
    ensures column { expressed (codes "{\"col\":\"v\"}") ≡ Some v }
    ensures binary { expressed (codes "{\"op\":[\"-\",\"k\",\"v\"]}")
        ≡ Some (expr.binary (expr.column (codes "k")) op.Minus v) }
    ensures literal { expressed (codes "{\"lit\":[\"Int8\",300]}")
        ≡ Some (expr.literal dt.Int8 (av.Int (pos 300))) }
    ensures fraction { expressed (codes "{\"lit\":[\"Int8\",1.0]}") ≡ None }
    ensures alias { expressed (codes "{\"alias\":[\"v\",\"w\"]}")
        ≡ Some (expr.alias v (codes "w")) }
    ensures count { expressed (codes "{\"count\":\"v\"}")
        ≡ Some (expr.aggregate (expr.count false) v) }
    ensures two_members { expressed (codes "{\"col\":\"v\",\"len\":null}") ≡ None }
{}

/// The nodes of a tree stand before their root, from left to right, and each written expression has
/// nodes of its own.
pub fn worked_flat()
    ensures nodes { flat_all 0 (expr.binary v op.Plus v ∷ expr.len ∷ [])
        ≡ ax.Column (codes "v") ∷ ax.Column (codes "v") ∷ ax.BinaryExpr (node 0) op.Plus (node 1)
        ∷ ax.Len ∷ [] }
    ensures roots { roots 0 (expr.binary v op.Plus v ∷ expr.len ∷ []) ≡ node 2 ∷ node 3 ∷ [] }
{}
