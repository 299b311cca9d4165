//! What is known of the nodes of an arena over some fields.

ghost use Rattle.std.specs.Prelude.{◌≡◌, option_and_then, option_map, is_some, true, false, Some, None, ◌&&◌, if◌then◌else◌};
ghost use Rattle.pipe_columns.specs.AnyValue.{fits};
ghost use Rattle.pipe_exprs.specs.ExprFacts.{expr_facts};
ghost use Rattle.pipe_exprs.specs.NodeFacts.{facts_at};
ghost use Rattle.pipe_exprs.specs.Trees.{aggregation};
ghost use Rattle.pipe_model.specs.Typing.{aggregate_type, both, field_named, operator_type, shared_type, where_boolean};
ghost use Rattle.pipe_columns.specs.DataType.{is_input};

use crate::expression::{AExpr, IRAggExpr, Node};
use crate::typing::{agg_type, binary_type, branch_type, cast_type, is_input, type_after};
use pipe_columns::{AnyValue, DataType, Field, Operator, Text};

/// What is known of a node: its type, whether it knows all its columns, and whether it has a value
/// in each row.
#[derive(Debug, Drop)]
pub struct NodeFacts {
    pub dtype: Option<DataType>,
    pub knows_columns: bool,
    pub row_wise: bool,
}

/// The type of the first field of a name.
fn dtype_named(fields: &[Field], name: &Text) -> Option<DataType>
    ensures { result ≡ option_map (λ f. f.dtype) (field_named name.now fields.now) }
{
    for field in fields {
        if field.name == *name {
            return Some(field.dtype);
        }
    }
    None
}

/// What is known of a column.
fn column_facts(fields: &[Field], name: &Text) -> NodeFacts
    ensures { result ≡ record {
      dtype = option_map (λ f. f.dtype) (field_named name.now fields.now);
      knows_columns = is_some (field_named name.now fields.now);
      row_wise = true;
    } }
{
    let dtype = dtype_named(fields, name);
    NodeFacts {
        dtype,
        knows_columns: dtype.is_some(),
        row_wise: true,
    }
}

/// What is known of a value of a type.
fn literal_facts(dtype: DataType, value: &AnyValue) -> NodeFacts
    ensures { result ≡ record {
      dtype = if is_input dtype && fits value.now dtype then Some dtype else None;
      knows_columns = true;
      row_wise = true;
    } }
{
    let fits = is_input(dtype) && value.fits(dtype);
    NodeFacts {
        dtype: if fits { Some(dtype) } else { None },
        knows_columns: true,
        row_wise: true,
    }
}

/// What is known of the values of an input in another type, or in none.
fn typed_facts(input: &NodeFacts, dtype: Option<DataType>) -> NodeFacts
    ensures { result ≡ record {
      dtype = dtype;
      knows_columns = input.now.knows_columns;
      row_wise = input.now.row_wise;
    } }
{
    NodeFacts {
        dtype,
        knows_columns: input.knows_columns,
        row_wise: input.row_wise,
    }
}

/// What is known of an operator and its operands.
fn binary_facts(left: &NodeFacts, op: Operator, right: &NodeFacts) -> NodeFacts
    ensures { result ≡ record {
      dtype = both (operator_type op) left.now.dtype right.now.dtype;
      knows_columns = left.now.knows_columns && right.now.knows_columns;
      row_wise = left.now.row_wise && right.now.row_wise;
    } }
{
    NodeFacts {
        dtype: binary_type(op, left.dtype, right.dtype),
        knows_columns: left.knows_columns && right.knows_columns,
        row_wise: left.row_wise && right.row_wise,
    }
}

/// What is known of a choice between two branches.
fn ternary_facts(predicate: &NodeFacts, truthy: &NodeFacts, falsy: &NodeFacts) -> NodeFacts
    ensures { result ≡ record {
      dtype = where_boolean predicate.now.dtype
          (both (shared_type (λ t. true)) truthy.now.dtype falsy.now.dtype);
      knows_columns = predicate.now.knows_columns
          && truthy.now.knows_columns && falsy.now.knows_columns;
      row_wise = predicate.now.row_wise && truthy.now.row_wise && falsy.now.row_wise;
    } }
{
    let branches = branch_type(truthy.dtype, falsy.dtype);
    NodeFacts {
        dtype: type_after(predicate.dtype, branches),
        knows_columns: predicate.knows_columns && truthy.knows_columns && falsy.knows_columns,
        row_wise: predicate.row_wise && truthy.row_wise && falsy.row_wise,
    }
}

/// What is known of an aggregate of an input.
fn agg_facts(agg: &IRAggExpr, input: &NodeFacts) -> NodeFacts
    ensures { result ≡ record {
      dtype = option_and_then
          (λ t. if is_input t then Some (aggregate_type (aggregation agg.now) t) else None)
          input.now.dtype;
      knows_columns = input.now.knows_columns;
      row_wise = false;
    } }
{
    NodeFacts {
        dtype: agg_type(agg, input.dtype),
        knows_columns: input.knows_columns,
        row_wise: false,
    }
}

/// What is known of an expression in the rows where another one is true.
fn filter_facts(input: &NodeFacts, by: &NodeFacts) -> NodeFacts
    ensures { result ≡ record {
      dtype = where_boolean by.now.dtype input.now.dtype;
      knows_columns = input.now.knows_columns && by.now.knows_columns;
      row_wise = false;
    } }
{
    NodeFacts {
        dtype: type_after(by.dtype, input.dtype),
        knows_columns: input.knows_columns && by.knows_columns,
        row_wise: false,
    }
}

/// What is known of the values of an input in their order.
fn sort_facts(input: &NodeFacts) -> NodeFacts
    ensures { result ≡ record {
      dtype = input.now.dtype;
      knows_columns = input.now.knows_columns;
      row_wise = false;
    } }
{
    NodeFacts {
        dtype: input.dtype,
        knows_columns: input.knows_columns,
        row_wise: false,
    }
}

/// What is known of the number of rows.
const LEN: NodeFacts = NodeFacts {
    dtype: Some(DataType::UInt32),
    knows_columns: true,
    row_wise: false,
};

/// What is known of a node; one that isn't there counts as `Len`.
pub fn facts_at(known: &[NodeFacts], node: Node) -> &NodeFacts
    ensures { result.now ≡ facts_at known.now node }
{
    match known.get(node.0) {
        Some(facts) => facts,
        None => &LEN,
    }
}

/// What is known of an expression, by what is known of the nodes that it names.
pub(crate) fn expr_facts(fields: &[Field], known: &[NodeFacts], expr: &AExpr) -> NodeFacts
    ensures { result ≡ expr_facts fields.now known.now expr.now }
{
    match expr {
        AExpr::Column(name) => column_facts(fields, name),
        AExpr::Literal { dtype, value } => literal_facts(*dtype, value),
        AExpr::Cast { expr, dtype } => {
            let input = facts_at(known, *expr);
            typed_facts(input, cast_type(input.dtype, *dtype))
        }
        AExpr::BinaryExpr { left, op, right } => {
            binary_facts(facts_at(known, *left), *op, facts_at(known, *right))
        }
        AExpr::Ternary {
            predicate,
            truthy,
            falsy,
        } => ternary_facts(
            facts_at(known, *predicate),
            facts_at(known, *truthy),
            facts_at(known, *falsy),
        ),
        AExpr::Alias(input, _) => {
            let input = facts_at(known, *input);
            typed_facts(input, input.dtype)
        }
        AExpr::Agg(agg) => agg_facts(agg, facts_at(known, agg.input())),
        AExpr::Len => LEN,
        AExpr::Filter { input, by } => filter_facts(facts_at(known, *input), facts_at(known, *by)),
        AExpr::Sort { expr } => sort_facts(facts_at(known, *expr)),
    }
}
