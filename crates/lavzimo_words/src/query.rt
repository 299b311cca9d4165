//! The query that asked columns make.

ghost use Rattle.std.specs.Prelude.{◌≡◌, ◌++◌, ◌∷◌, [], IfOk, None, OnOk, Some, codes, length, map, true};
ghost use Rattle.pipe_aggs.specs.Faults.{first_fault, has_nodes};
ghost use Rattle.pipe_aggs.specs.QueryTrees.{query_tree, written};
ghost use Rattle.pipe_model.specs.Expr as expr;
ghost use Rattle.pipe_query.specs.Added.{AreAdded, IsAdded};
ghost use Rattle.pipe_query.specs.Flat.{agg_node, node};
ghost use Rattle.lavzimo_words.specs.Askable.{IsAskable};
ghost use Rattle.lavzimo_words.specs.Asked.{columns_seen};
ghost use Rattle.lavzimo_words.specs.AskedQuery as spec;
ghost use Rattle.lavzimo_words.specs.Roles as roles;

use crate::asked::{Columns, Order};
use crate::asked_column::AskedColumn;
use crate::role::Role;
use pipe_aggs::{AExpr, Arena, IRAggExpr, Node, Query};
use pipe_columns::{AnyValue, DataType, Field, Schema, Text};
use std::alloc::{AllocError, Global};

/// Whether fields have one of a name.
fn has_field(fields: &[Field], name: &Text) -> bool
    ensures { result ≡ spec.has_field fields.now name.now }
{
    fields.iter().any(|field| field.name == *name)
}

/// Whether a column has one of fields, or none.
fn is_there(fields: &[Field], column: &AskedColumn) -> bool
    ensures { result ≡ spec.is_there fields.now column.now }
{
    column.role.is_rows() || has_field(fields, &column.column)
}

/// The columns that are named, each once, in the order in which they are shown.
fn named_fields(alloc: Global, columns: &[AskedColumn]) -> Result<Vec<Field>, AllocError>
    ensures { IfOk result (λ v. v.items ≡ spec.named_fields columns.now) }
{
    let mut fields = Vec::new(alloc);
    for column in columns {
        if is_there(&fields, column) {
            continue;
        }
        let name = column.column.try_clone(alloc)?;
        let dtype = column.dtype;
        fields.push(Field { name, dtype })?;
    }
    Ok(fields)
}

/// Adds an expression whose parts are there.
fn add_node(arena: &mut Arena, expr: AExpr) -> Result<Node, AllocError>
    ensures nodes { OnOk result (arena.new ≡ arena.old ++ expr ∷ []) }
    ensures node { IfOk result (λ n. n ≡ node (length arena.old)) }
{
    match arena.add(expr) {
        Ok(node) => Ok(node),
        Err(_) => Err(AllocError),
    }
}

/// Adds a column.
fn add_column(alloc: Global, arena: &mut Arena, name: &Text) -> Result<Node, AllocError>
    ensures { IfOk result
        (λ n. IsAdded (Some (expr.column name.now)) arena.old arena.new (Some n)) }
{
    let name = name.try_clone(alloc)?;
    let node = add_node(arena, AExpr::Column(name))?;
    Ok(node)
}

/// A name with an ending.
fn with_ending(alloc: Global, name: &Text, ending: &str) -> Result<Text, AllocError>
    ensures { IfOk result (λ t. t ≡ name.now ++ ending.now) }
{
    let name = name.as_str();
    let text = format!(in alloc; "{name}{ending}")?;
    Text::new(alloc, text.as_str())
}

/// Adds a key.
fn add_key(alloc: Global, arena: &mut Arena, column: &AskedColumn) -> Result<Node, AllocError>
    ensures { IfOk result
        (λ n. IsAdded (Some (spec.key_expr column.now)) arena.old arena.new (Some n)) }
{
    let input = add_column(alloc, arena, &column.column)?;
    let name = with_ending(alloc, &column.name, "_key")?;
    let node = add_node(arena, AExpr::Alias(input, name))?;
    Ok(node)
}

/// Whether days are compared.
fn compares_days(column: &AskedColumn) -> bool
    ensures { result ≡ spec.compares_days column.now }
{
    column.role.is_compared() && column.dtype == DataType::Date
}

/// Adds what is summed up.
fn add_input(alloc: Global, arena: &mut Arena, column: &AskedColumn) -> Result<Node, AllocError>
    ensures { IfOk result
        (λ n. IsAdded (Some (spec.input_of column.now)) arena.old arena.new (Some n)) }
{
    let expr = add_column(alloc, arena, &column.column)?;
    if !compares_days(column) {
        return Ok(expr);
    }
    let dtype = DataType::Int32;
    let node = add_node(arena, AExpr::Cast { expr, dtype })?;
    Ok(node)
}

/// How values are summed up.
fn aggregate(role: Role, input: Node) -> IRAggExpr
    ensures { result ≡ agg_node (roles.aggregation_of role) input }
{
    match role {
        Role::Key | Role::Rows | Role::First => IRAggExpr::First(input),
        Role::Values => IRAggExpr::Count(input, false),
        Role::Sum | Role::Mean => IRAggExpr::Mean(input),
        Role::Least => IRAggExpr::Min {
            input,
            propagate_nans: false,
        },
        Role::Greatest => IRAggExpr::Max {
            input,
            propagate_nans: false,
        },
        Role::Last => IRAggExpr::Last(input),
    }
}

/// Adds what the rows of a group have.
fn add_measured(alloc: Global, arena: &mut Arena, column: &AskedColumn) -> Result<Node, AllocError>
    ensures { IfOk result
        (λ n. IsAdded (Some (spec.measured column.now)) arena.old arena.new (Some n)) }
{
    if column.role.is_rows() {
        let node = add_node(arena, AExpr::Len)?;
        return Ok(node);
    }
    let input = add_input(alloc, arena, column)?;
    let agg = aggregate(column.role, input);
    let node = add_node(arena, AExpr::Agg(agg))?;
    Ok(node)
}

/// The name of an aggregate.
fn aggregate_name(alloc: Global, column: &AskedColumn) -> Result<Text, AllocError>
    ensures { IfOk result (λ t. t ≡ spec.aggregate_name column.now) }
{
    if column.role.has_halves() {
        column.name.try_clone(alloc)
    } else {
        with_ending(alloc, &column.name, "_value")
    }
}

/// Adds an aggregate.
fn add_agg(alloc: Global, arena: &mut Arena, column: &AskedColumn) -> Result<Node, AllocError>
    ensures { IfOk result
        (λ n. IsAdded (Some (spec.agg_expr column.now)) arena.old arena.new (Some n)) }
{
    let input = add_measured(alloc, arena, column)?;
    let name = aggregate_name(alloc, column)?;
    let node = add_node(arena, AExpr::Alias(input, name))?;
    Ok(node)
}

/// Adds the columns that are keys.
fn add_key_columns(
    alloc: Global,
    arena: &mut Arena,
    columns: &[AskedColumn],
) -> Result<Vec<Node>, AllocError>
    ensures { IfOk result (λ v. AreAdded (Some (map spec.key_expr (spec.keys_in columns.now)))
        arena.old arena.new (Some v.items)) }
{
    let mut nodes = Vec::new(alloc);
    for column in columns {
        if !column.role.is_key() {
            continue;
        }
        let node = add_key(alloc, arena, column)?;
        nodes.push(node)?;
    }
    Ok(nodes)
}

/// Adds the keys; where there is none, all rows have one.
fn add_keys(
    alloc: Global,
    arena: &mut Arena,
    columns: &[AskedColumn],
) -> Result<Vec<Node>, AllocError>
    ensures { IfOk result
        (λ v. AreAdded (Some (spec.keys_of (map spec.key_expr (spec.keys_in columns.now))))
        arena.old arena.new (Some v.items)) }
{
    let mut nodes = add_key_columns(alloc, arena, columns)?;
    if !nodes.is_empty() {
        return Ok(nodes);
    }
    let literal = AExpr::Literal {
        dtype: DataType::Int64,
        value: AnyValue::Int(0),
    };
    let node = add_node(arena, literal)?;
    nodes.push(node)?;
    Ok(nodes)
}

/// Adds the aggregates.
fn add_aggs(
    alloc: Global,
    arena: &mut Arena,
    columns: &[AskedColumn],
) -> Result<Vec<Node>, AllocError>
    ensures { IfOk result (λ v. AreAdded (Some (map spec.agg_expr (spec.aggs_in columns.now)))
        arena.old arena.new (Some v.items)) }
{
    let mut nodes = Vec::new(alloc);
    for column in columns {
        if column.role.is_key() {
            continue;
        }
        let node = add_agg(alloc, arena, column)?;
        nodes.push(node)?;
    }
    Ok(nodes)
}

/// Whether groups come in the order of their first rows.
fn is_first(order: Order) -> bool
    ensures { result ≡ spec.is_first order }
{
    matches!(order, Order::First)
}

/// The query that asked columns make.
pub fn query_of(alloc: Global, asked: &Columns) -> Result<Query, AllocError>
    ensures written { IfOk result (λ q. written q
        ≡ spec.written_of asked.now.columns.items (spec.is_first asked.now.order)) }
    ensures query { IfOk result (λ q. query_tree q ≡ spec.query_of_words (columns_seen asked.now)) }
    ensures nodes { IfOk result (λ q. has_nodes q ≡ true) }
    ensures faultless { IsAskable (columns_seen asked.now)
        → IfOk result (λ q. first_fault q ≡ None) }
{
    let schema = Schema::new(named_fields(alloc, &asked.columns)?);
    let mut arena = Arena::new(alloc);
    let keys = add_keys(alloc, &mut arena, &asked.columns)?;
    let aggs = add_aggs(alloc, &mut arena, &asked.columns)?;
    Ok(Query {
        schema,
        arena,
        keys,
        aggs,
        slice: None,
        maintain_order: is_first(asked.order),
    })
}
