//! How the key columns that a word names are found.

ghost use Rattle.std.specs.Prelude.{◌≡◌, IfErr, IfOk, None, Some, option_map};
ghost use Rattle.std.specs.List.{position};
ghost use Rattle.std.specs.Str.{bytes_eq};
ghost use Rattle.serde_json.specs.Read.{read};
ghost use Rattle.serde_json.specs.View.{items_view, view};
ghost use Rattle.pipe_aggs.specs.Faults.{first_fault};
ghost use Rattle.pipe_aggs.specs.QueryTrees.{query_tree};
ghost use Rattle.rollup_words.specs.Keys.{kept_positions, position_named, positions_in, positions_named};
ghost use Rattle.rollup_words.specs.Reading.{AreNoKeys};

use crate::distinct::has_twice;
use crate::refusal::{AskError, Refusal};
use pipe_aggs::{CheckError, Query};
use pipe_columns::{Field, Text};
use serde_json::Value;
use std::alloc::{AllocError, Global};

/// The position of the field of a name.
fn position_of(fields: &[Field], name: &str) -> Option<usize>
    ensures { result ≡ position (λ f. bytes_eq f.name name.now) fields.now }
{
    fields.iter().position(|field| field.name.as_str() == name)
}

/// The position of the field whose name a JSON value is.
fn position_named(fields: &[Field], json: &Value) -> Option<usize>
    ensures { result ≡ position_named fields.now (view json.now) }
{
    position_of(fields, json.as_str()?)
}

/// The positions of the fields whose names the items of a list are.
fn positions_named(
    alloc: Global,
    fields: &[Field],
    list: &[Value],
) -> Result<Option<Vec<usize>>, AllocError>
    ensures { IfOk result
        (λ o. option_map (λ v. v.items) o ≡ positions_named fields.now (items_view list.now)) }
{
    let mut positions = Vec::new(alloc);
    for value in list {
        match position_named(fields, value) {
            Some(position) => positions.push(position)?,
            None => return Ok(None),
        }
    }
    Ok(Some(positions))
}

/// The positions of the fields whose names a list is of, one at least and none twice.
fn positions_in(
    alloc: Global,
    fields: &[Field],
    json: &Value,
) -> Result<Option<Vec<usize>>, AllocError>
    ensures { IfOk result
        (λ o. option_map (λ v. v.items) o ≡ positions_in fields.now (Some (view json.now))) }
{
    let Some(list) = json.as_array() else {
        return Ok(None);
    };
    let Some(positions) = positions_named(alloc, fields, list)? else {
        return Ok(None);
    };
    if positions.is_empty() || has_twice(&positions) {
        return Ok(None);
    }
    Ok(Some(positions))
}

/// The positions of the fields that a word names.
fn word_positions(alloc: Global, fields: &[Field], word: &Text) -> Result<Vec<usize>, AskError>
    ensures kept { IfOk result (λ v. positions_in fields.now (read word.now) ≡ Some v.items) }
    ensures cause { IfErr result (λ e. AreNoKeys e (positions_in fields.now (read word.now))) }
{
    let json = match Value::from_str(alloc, word.as_str()) {
        Ok(json) => json,
        Err(error) if error.is_memory() => return Err(AskError::Memory),
        Err(_) => return Err(AskError::Refused(Refusal::Keys)),
    };
    match positions_in(alloc, fields, &json) {
        Ok(Some(positions)) => Ok(positions),
        Ok(None) => Err(AskError::Refused(Refusal::Keys)),
        Err(AllocError) => Err(AskError::Memory),
    }
}

/// The positions of the key columns of a query that a word names.
pub fn kept_positions(alloc: Global, query: &Query, word: &Text) -> Result<Vec<usize>, AskError>
    requires { first_fault query.now ≡ None }
    ensures kept { IfOk result
        (λ v. kept_positions (query_tree query.now) word.now ≡ Some v.items) }
    ensures cause { IfErr result
        (λ e. AreNoKeys e (kept_positions (query_tree query.now) word.now)) }
{
    match query.check(alloc) {
        Ok(checked) => {
            let count = checked.key_types().len();
            word_positions(alloc, &checked.output_schema().fields()[..count], word)
        }
        Err(CheckError::Memory) => Err(AskError::Memory),
        Err(CheckError::Fault(_)) => unreachable!(),
    }
}
