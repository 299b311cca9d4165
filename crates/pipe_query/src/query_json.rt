//! The query that a JSON value is.

ghost use Rattle.std.specs.Prelude.{◌≡◌, ◌≤◌, IfOk, IfSome, codes, option_map, true};
ghost use Rattle.serde_json.specs.Find.{get};
ghost use Rattle.serde_json.specs.View.{items_view, view};
ghost use Rattle.pipe_aggs.specs.Faults.{has_nodes};
ghost use Rattle.pipe_aggs.specs.QueryTrees.{written};
ghost use Rattle.pipe_query.specs.ExprJson.{exprs_of};
ghost use Rattle.pipe_query.specs.Added.{AreAdded};
ghost use Rattle.pipe_query.specs.Flat.{IsFlat};
ghost use Rattle.pipe_query.specs.QueryJson as spec;

use crate::expr_json::add_expr;
use crate::json_shapes::{has_members, pair};
use crate::leaf_json::data_type;
use pipe_aggs::{Arena, Node, Query};
use pipe_columns::{Field, Schema, Text};
use serde_json::Value;
use std::alloc::{AllocError, Global};

/// The field that a pair of a name and a type's name is.
fn field(alloc: Global, json: &Value) -> Result<Option<Field>, AllocError>
    ensures { IfOk result (λ o. o ≡ spec.json_field (view json.now)) }
{
    let Some((name, dtype)) = pair(json) else {
        return Ok(None);
    };
    let Some(name) = name.as_str() else {
        return Ok(None);
    };
    let Some(dtype) = data_type(dtype) else {
        return Ok(None);
    };
    let name = Text::new(alloc, name)?;
    Ok(Some(Field { name, dtype }))
}

/// The fields of a list of pairs.
fn fields(alloc: Global, list: &[Value]) -> Result<Option<Vec<Field>>, AllocError>
    ensures { IfOk result
        (λ o. option_map (λ v. v.items) o ≡ spec.json_fields (items_view list.now)) }
{
    let mut fields = Vec::new(alloc);
    for value in list {
        match field(alloc, value)? {
            Some(field) => fields.push(field)?,
            None => return Ok(None),
        }
    }
    Ok(Some(fields))
}

/// The schema: a list of at least one pair.
fn schema(alloc: Global, json: &Value) -> Result<Option<Schema>, AllocError>
    ensures { IfOk result (λ o. o ≡ spec.schema_of (get (codes "schema") (view json.now))) }
{
    let Some(member) = json.get("schema") else {
        return Ok(None);
    };
    let Some(list) = member.as_array() else {
        return Ok(None);
    };
    match fields(alloc, list)? {
        Some(fields) if fields.len() != 0 => Ok(Some(Schema::new(fields))),
        _ => Ok(None),
    }
}

/// Adds the expressions of a list, and gives their nodes.
fn add_list(
    alloc: Global,
    arena: &mut Arena,
    list: &[Value],
) -> Result<Option<Vec<Node>>, AllocError>
    ensures { IfOk result (λ o. AreAdded (exprs_of (items_view list.now)) arena.old arena.new
        (option_map (λ v. v.items) o)) }
{
    let mut nodes = Vec::new(alloc);
    for value in list {
        match add_expr(alloc, arena, value)? {
            Some(node) => nodes.push(node)?,
            None => return Ok(None),
        }
    }
    Ok(Some(nodes))
}

/// Adds the expressions of a member, and gives their nodes.
fn add_member(
    alloc: Global,
    arena: &mut Arena,
    json: &Value,
    name: &str,
) -> Result<Option<Vec<Node>>, AllocError>
    ensures { IfOk result
        (λ o. AreAdded (spec.json_exprs (get name.now (view json.now))) arena.old arena.new
        (option_map (λ v. v.items) o)) }
{
    let Some(member) = json.get(name) else {
        return Ok(None);
    };
    let Some(list) = member.as_array() else {
        return Ok(None);
    };
    add_list(alloc, arena, list)
}

/// How many groups are dropped, and how many are kept at most.
fn bounds(json: &Value) -> Option<(i64, usize)>
    ensures { result ≡ spec.bounds_of (view json.now) }
{
    let (offset, count) = pair(json)?;
    let offset = offset.as_i64()?;
    let count = count.as_u64()?;
    Some((offset, count as usize))
}

/// The slice, where there is one.
fn slice(json: &Value) -> Option<Option<(i64, usize)>>
    ensures { result ≡ spec.slice_of (get (codes "slice") (view json.now)) }
{
    let Some(member) = json.get("slice") else {
        return Some(None);
    };
    if member.is_null() {
        return Some(None);
    }
    match bounds(member) {
        Some(bounds) => Some(Some(bounds)),
        None => None,
    }
}

/// Whether groups come in the order of their first rows.
fn order(json: &Value) -> Option<bool>
    ensures { result ≡ spec.order_of (get (codes "maintain_order") (view json.now)) }
{
    match json.get("maintain_order") {
        Some(member) => member.as_bool(),
        None => Some(false),
    }
}

/// One where a member is there.
fn present(json: &Value, name: &str) -> usize
    ensures count { result ≡ spec.present (get name.now (view json.now)) }
    ensures at_most_one { result ≤ 1 }
{
    match json.get(name) {
        Some(_) => 1,
        None => 0,
    }
}

/// Whether an object has three members beside the two that it may have, and no other.
fn has_query_members(json: &Value) -> bool
    ensures { result ≡ spec.has_query_members (view json.now) }
{
    let count = 3 + present(json, "slice") + present(json, "maintain_order");
    has_members(json, count)
}

/// The query that a JSON value is, if it is one.
pub fn query_of(alloc: Global, json: &Value) -> Result<Option<Query>, AllocError>
    ensures written { IfOk result (λ o. option_map written o ≡ spec.query_of (view json.now)) }
    ensures flat { IfOk result (λ o. IfSome o IsFlat) }
    ensures nodes { IfOk result (λ o. IfSome o (λ q. has_nodes q ≡ true)) }
{
    if !has_query_members(json) {
        return Ok(None);
    }
    let Some(schema) = schema(alloc, json)? else {
        return Ok(None);
    };
    let mut arena = Arena::new(alloc);
    let Some(keys) = add_member(alloc, &mut arena, json, "keys")? else {
        return Ok(None);
    };
    let Some(aggs) = add_member(alloc, &mut arena, json, "aggs")? else {
        return Ok(None);
    };
    let Some(slice) = slice(json) else {
        return Ok(None);
    };
    let Some(maintain_order) = order(json) else {
        return Ok(None);
    };
    Ok(Some(Query {
        schema,
        arena,
        keys,
        aggs,
        slice,
        maintain_order,
    }))
}
