//! The expression that a JSON value is, added to an arena: children first, from left to right.

ghost use Rattle.std.specs.Prelude.{◌≡◌, IfOk, option_map};
ghost use Rattle.serde_json.specs.View.{view};
ghost use Rattle.pipe_query.specs.ExprJson.{alias_of, binary_of, cast_of, expr_of, filter_of, over_expr, parts_of, ternary_of, three_parts, two_parts};
ghost use Rattle.pipe_query.specs.Added.{IsAdded, over_ax};

use crate::json_names::{Form, Over, form_named};
use crate::json_shapes::{pair, sole_member, triple};
use crate::leaf_json::{add_column, add_len, add_literal, add_node, data_type, operator};
use pipe_aggs::{AExpr, Arena, IRAggExpr, Node};
use pipe_columns::Text;
use serde_json::Value;
use std::alloc::{AllocError, Global};

/// What is made of one node.
fn over_node(over: Over, input: Node) -> AExpr
    ensures { result ≡ over_ax over input }
{
    AExpr::Agg(match over {
        Over::Sum => IRAggExpr::Sum(input),
        Over::First => IRAggExpr::First(input),
        Over::Last => IRAggExpr::Last(input),
        Over::Mean => IRAggExpr::Mean(input),
        Over::Min => IRAggExpr::Min {
            input,
            propagate_nans: false,
        },
        Over::Max => IRAggExpr::Max {
            input,
            propagate_nans: false,
        },
        Over::Count => IRAggExpr::Count(input, false),
        Over::CountAll => IRAggExpr::Count(input, true),
        Over::Median => IRAggExpr::Median(input),
        Over::NUnique => IRAggExpr::NUnique(input),
        Over::Sort => return AExpr::Sort { expr: input },
    })
}

/// An aggregate of an expression, or its values in order.
#[cycle(expr)]
fn add_over(
    alloc: Global,
    arena: &mut Arena,
    over: Over,
    json: &Value,
) -> Result<Option<Node>, AllocError>
    ensures { IfOk result
        (IsAdded (option_map (over_expr over) (expr_of (view json.now))) arena.old arena.new) }
{
    let Some(input) = add_expr(alloc, arena, json)? else {
        return Ok(None);
    };
    let node = add_node(arena, over_node(over, input))?;
    Ok(Some(node))
}

/// An expression and a type.
#[cycle(expr)]
fn add_cast(alloc: Global, arena: &mut Arena, json: &Value) -> Result<Option<Node>, AllocError>
    ensures { IfOk result
        (IsAdded (cast_of (two_parts (parts_of (view json.now)))) arena.old arena.new) }
{
    let Some((expr, dtype)) = pair(json) else {
        return Ok(None);
    };
    let Some(dtype) = data_type(dtype) else {
        return Ok(None);
    };
    let Some(expr) = add_expr(alloc, arena, expr)? else {
        return Ok(None);
    };
    let node = add_node(arena, AExpr::Cast { expr, dtype })?;
    Ok(Some(node))
}

/// A sign and two operands.
#[cycle(expr)]
fn add_binary(alloc: Global, arena: &mut Arena, json: &Value) -> Result<Option<Node>, AllocError>
    ensures { IfOk result
        (IsAdded (binary_of (three_parts (parts_of (view json.now)))) arena.old arena.new) }
{
    let Some((sign, left, right)) = triple(json) else {
        return Ok(None);
    };
    let Some(op) = operator(sign) else {
        return Ok(None);
    };
    let Some(left) = add_expr(alloc, arena, left)? else {
        return Ok(None);
    };
    let Some(right) = add_expr(alloc, arena, right)? else {
        return Ok(None);
    };
    let node = add_node(arena, AExpr::BinaryExpr { left, op, right })?;
    Ok(Some(node))
}

/// A predicate and two branches.
#[cycle(expr)]
fn add_ternary(alloc: Global, arena: &mut Arena, json: &Value) -> Result<Option<Node>, AllocError>
    ensures { IfOk result
        (IsAdded (ternary_of (three_parts (parts_of (view json.now)))) arena.old arena.new) }
{
    let Some((predicate, truthy, falsy)) = triple(json) else {
        return Ok(None);
    };
    let Some(predicate) = add_expr(alloc, arena, predicate)? else {
        return Ok(None);
    };
    let Some(truthy) = add_expr(alloc, arena, truthy)? else {
        return Ok(None);
    };
    let Some(falsy) = add_expr(alloc, arena, falsy)? else {
        return Ok(None);
    };
    let node = add_node(
        arena,
        AExpr::Ternary {
            predicate,
            truthy,
            falsy,
        },
    )?;
    Ok(Some(node))
}

/// An expression and a name.
#[cycle(expr)]
fn add_alias(alloc: Global, arena: &mut Arena, json: &Value) -> Result<Option<Node>, AllocError>
    ensures { IfOk result
        (IsAdded (alias_of (two_parts (parts_of (view json.now)))) arena.old arena.new) }
{
    let Some((expr, name)) = pair(json) else {
        return Ok(None);
    };
    let Some(name) = name.as_str() else {
        return Ok(None);
    };
    let Some(input) = add_expr(alloc, arena, expr)? else {
        return Ok(None);
    };
    let name = Text::new(alloc, name)?;
    let node = add_node(arena, AExpr::Alias(input, name))?;
    Ok(Some(node))
}

/// An expression and a condition.
#[cycle(expr)]
fn add_filter(alloc: Global, arena: &mut Arena, json: &Value) -> Result<Option<Node>, AllocError>
    ensures { IfOk result
        (IsAdded (filter_of (two_parts (parts_of (view json.now)))) arena.old arena.new) }
{
    let Some((input, by)) = pair(json) else {
        return Ok(None);
    };
    let Some(input) = add_expr(alloc, arena, input)? else {
        return Ok(None);
    };
    let Some(by) = add_expr(alloc, arena, by)? else {
        return Ok(None);
    };
    let node = add_node(arena, AExpr::Filter { input, by })?;
    Ok(Some(node))
}

/// Adds the expression that a value is, if it is one, and gives its node.
#[cycle(expr)]
pub fn add_expr(alloc: Global, arena: &mut Arena, json: &Value) -> Result<Option<Node>, AllocError>
    ensures { IfOk result (IsAdded (expr_of (view json.now)) arena.old arena.new) }
{
    if json.is_string() {
        return add_column(alloc, arena, json);
    }
    let Some((name, value)) = sole_member(json) else {
        return Ok(None);
    };
    let Some(form) = form_named(name) else {
        return Ok(None);
    };
    match form {
        Form::Col => add_column(alloc, arena, value),
        Form::Lit => add_literal(alloc, arena, value),
        Form::Cast => add_cast(alloc, arena, value),
        Form::Op => add_binary(alloc, arena, value),
        Form::If => add_ternary(alloc, arena, value),
        Form::Alias => add_alias(alloc, arena, value),
        Form::Len => add_len(arena, value),
        Form::Filter => add_filter(alloc, arena, value),
        Form::Of(over) => add_over(alloc, arena, over, value),
    }
}
