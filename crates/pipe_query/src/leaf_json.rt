//! The parts of expressions that have no parts.

ghost use Rattle.std.specs.Prelude.{◌≡◌, ◌++◌, ◌∷◌, [], true, length, IfOk, OnOk, option_map};
ghost use Rattle.serde_json.specs.View.{view};
ghost use Rattle.pipe_exprs.specs.Trees.{children_below};
ghost use Rattle.pipe_query.specs.ExprJson.{json_column, length_of, literal_of, operator_of, type_of_name, value_of};
ghost use Rattle.pipe_query.specs.Added.{IsAdded};
ghost use Rattle.pipe_query.specs.Flat.{node};
ghost use Rattle.pipe_query.specs.JsonShapes.{pair_of};

use crate::json_names::{sign_named, type_named};
use crate::json_shapes::pair;
use pipe_aggs::{AExpr, AddError, Arena, Node, Operator};
use pipe_columns::{AnyValue, DataType, Text};
use serde_json::Value;
use std::alloc::{AllocError, Global};

/// The type that a value names.
pub fn data_type(json: &Value) -> Option<DataType>
    ensures { result ≡ type_of_name (view json.now) }
{
    type_named(json.as_str()?)
}

/// The operator whose sign a value is.
pub fn operator(json: &Value) -> Option<Operator>
    ensures { result ≡ operator_of (view json.now) }
{
    sign_named(json.as_str()?)
}

/// The value of a literal: null, a truth, an integer or a text.
fn literal_value(alloc: Global, json: &Value) -> Result<Option<AnyValue>, AllocError>
    ensures { IfOk result (λ o. o ≡ value_of (view json.now)) }
{
    match json {
        Value::Null => Ok(Some(AnyValue::Null)),
        Value::Bool(truth) => Ok(Some(AnyValue::Boolean(*truth))),
        Value::Number(number) => Ok(number.as_i128().map(AnyValue::Int)),
        Value::String(text) => Ok(Some(AnyValue::Text(Text::new(alloc, text.as_str())?))),
        Value::Array(_) | Value::Object(_) => Ok(None),
    }
}

/// Adds an expression whose children are there, and gives its node.
pub fn add_node(arena: &mut Arena, expr: AExpr) -> Result<Node, AllocError>
    requires { children_below (length arena.now) expr ≡ true }
    ensures nodes { OnOk result (arena.new ≡ arena.old ++ expr ∷ []) }
    ensures node { IfOk result (λ n. n ≡ node (length arena.old)) }
{
    match arena.add(expr) {
        Ok(node) => Ok(node),
        Err(AddError::Memory) => Err(AllocError),
        Err(AddError::NoChild) => unreachable!(),
    }
}

/// A column's name.
pub fn add_column(
    alloc: Global,
    arena: &mut Arena,
    json: &Value,
) -> Result<Option<Node>, AllocError>
    ensures { IfOk result (IsAdded (json_column (view json.now)) arena.old arena.new) }
{
    let Some(name) = json.as_str() else {
        return Ok(None);
    };
    let name = Text::new(alloc, name)?;
    let node = add_node(arena, AExpr::Column(name))?;
    Ok(Some(node))
}

/// A type and a value.
pub fn add_literal(
    alloc: Global,
    arena: &mut Arena,
    json: &Value,
) -> Result<Option<Node>, AllocError>
    ensures { IfOk result (IsAdded (literal_of (pair_of (view json.now))) arena.old arena.new) }
{
    let Some((dtype, value)) = pair(json) else {
        return Ok(None);
    };
    let Some(dtype) = data_type(dtype) else {
        return Ok(None);
    };
    let Some(value) = literal_value(alloc, value)? else {
        return Ok(None);
    };
    let node = add_node(arena, AExpr::Literal { dtype, value })?;
    Ok(Some(node))
}

/// The number of rows, of which the value is null.
pub fn add_len(arena: &mut Arena, json: &Value) -> Result<Option<Node>, AllocError>
    ensures { IfOk result (IsAdded (length_of (view json.now)) arena.old arena.new) }
{
    if !json.is_null() {
        return Ok(None);
    }
    let node = add_node(arena, AExpr::Len)?;
    Ok(Some(node))
}
