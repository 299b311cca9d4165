//! Worked queries, as laws over the definitions: each holds by computation.

ghost use Rattle.std.specs.Prelude.{◌≡◌, ◌∷◌, [], codes, false, true, negsuc, None, Some};
ghost use Rattle.pipe_columns.specs.declared.data_type.DataType.TheVariants as dt;
ghost use Rattle.pipe_columns.specs.declared.operator.Operator.TheVariants as op;
ghost use Rattle.pipe_exprs.specs.declared.expression.AExpr.TheVariants as ax;
ghost use Rattle.pipe_exprs.specs.declared.expression.IRAggExpr.TheVariants as ir;
ghost use Rattle.pipe_exprs.specs.Trees.{tree};
ghost use Rattle.pipe_model.specs.Convertible.{convertible};
ghost use Rattle.pipe_model.specs.Expr as expr;
ghost use Rattle.pipe_model.specs.Kind as kind;
ghost use Rattle.pipe_model.specs.WorkedExprs.{field, v};
ghost use Rattle.pipe_native.specs.Native.{native_i64, native_u32};
ghost use Rattle.pipe_running.specs.Transitions.{empty_sum};
ghost use Rattle.pipe_running.specs.declared.function.AggregateFunction.TheVariants as function;
ghost use Rattle.pipe_aggs.specs.Faults.{fault_of};
ghost use Rattle.pipe_aggs.specs.HashAggs.{function_for};
ghost use Rattle.pipe_aggs.specs.Worked.{k_and_v, named_of_v, of_v, sum_and_count, with_aggs, with_fields, with_keys};
ghost use Rattle.pipe_aggs.specs.declared.query_fault.QueryFault.TheVariants as fault;

/// A sum that both sides of an addition use is no aggregate that a table of groups can keep.
pub fn worked_nodes()
    ensures { convertible
        (tree (ax.Column (codes "v") ∷ ax.Agg (ir.Sum (record { 0 = 0 })) ∷
        ax.BinaryExpr (record { 0 = 1 }) op.Plus (record { 0 = 1 }) ∷ []) (record { 0 = 2 }))
        (field (codes "v") dt.Int8 ∷ []) ≡ false }
{}

/// Small integers are added up in 64 bits, truths in 32, and dates not at all.
pub fn worked_functions()
    ensures small { function_for kind.sum dt.Int8 ≡ function.SumI64 (empty_sum native_i64) }
    ensures truths { function_for kind.sum dt.Boolean ≡ function.SumU32 (empty_sum native_u32) }
    ensures dates { function_for kind.sum dt.Date ≡ function.Null (record { 0 = dt.Date }) }
{}

/// Faults of a query's shape, and of its columns and types.
pub fn worked_faults()
    ensures faultless { fault_of true sum_and_count ≡ None }
    ensures double_name { fault_of true (with_fields
        (field (codes "k") dt.Int64 ∷ field (codes "k") dt.Int8 ∷ [])) ≡ Some fault.DoubleName }
    ensures no_key { fault_of true (with_keys []) ≡ Some fault.NoKey }
    ensures bad_node { fault_of false sum_and_count ≡ Some fault.BadNode }
    ensures unknown_column { fault_of true (with_keys (expr.column (codes "x") ∷ []))
        ≡ Some fault.UnknownColumn }
    ensures wide_field { fault_of true (with_fields (k_and_v dt.Int64 dt.Int128))
        ≡ Some fault.IllTyped }
    ensures two_types { fault_of true (record (with_fields (k_and_v dt.Int64 dt.Int8)) {
      keys = expr.binary (expr.column (codes "k")) op.Plus v ∷ [];
    }) ≡ Some fault.IllTyped }
{}

/// Faults of what keys and aggregates are, of output columns and of slices; the first one is told.
pub fn worked_later_faults()
    ensures aggregate_as_key { fault_of true (with_keys (of_v expr.sum ∷ []))
        ≡ Some fault.KeyHasAggregate }
    ensures median { fault_of true (with_aggs (of_v expr.median ∷ []))
        ≡ Some fault.NotConvertible }
    ensures two_aliases { fault_of true (with_aggs
        (expr.alias (named_of_v (codes "s") expr.sum) (codes "t") ∷ []))
        ≡ Some fault.NotConvertible }
    ensures mean_of_dates { fault_of true (record (with_fields (k_and_v dt.Int64 dt.Date)) {
      aggs = of_v expr.mean ∷ [];
    }) ≡ Some fault.SumOfDate }
    ensures same_names { fault_of true (with_aggs (of_v expr.sum ∷ of_v expr.first ∷ []))
        ≡ Some fault.DoubleOutput }
    ensures half_of_a_mean { fault_of true (with_aggs
        (of_v expr.mean ∷ named_of_v (codes "v_sum") expr.sum ∷ []))
        ≡ Some fault.DoubleOutput }
    ensures below_zero { fault_of true (record sum_and_count { slice = Some (negsuc 0, 1) })
        ≡ Some fault.NegativeSlice }
    ensures first { fault_of true (record (with_keys []) { slice = Some (negsuc 0, 1) })
        ≡ Some fault.NoKey }
{}
