//! A column as a list names it.

ghost use Rattle.std.specs.Prelude.{◌≡◌, ◌++◌, IfErr, IfOk, Ok, option_map};
ghost use Rattle.lavzimo_words.specs.Items as items;
ghost use Rattle.lavzimo_words.specs.Roles as roles;
ghost use Rattle.lavzimo_words.specs.Results.{IsRefusedFor};

use crate::cut::{titled, typed};
use crate::refusal::{AskError, Refusal};
use crate::role::Role;
use pipe_columns::{DataType, Text};
use std::alloc::{AllocError, Global};

/// A column in a role: the type that it is said to have, and the name under which it is shown.
#[derive(Drop)]
pub(crate) struct Item {
    pub(crate) role: Role,
    pub(crate) column: Text,
    pub(crate) said: Option<DataType>,
    pub(crate) name: Text,
}

/// The name that a column has in a role where no other is given.
fn usual_name(alloc: Global, role: Role, column: &str) -> Result<Text, AllocError>
    ensures { IfOk result (λ t. t ≡ roles.prefix_of role ++ column.now) }
{
    let prefix = role.prefix();
    let name = format!(in alloc; "{prefix}{column}")?;
    Text::new(alloc, name.as_str())
}

/// A column in a role.
fn item_as(
    alloc: Global,
    role: Role,
    column: &str,
    said: Option<DataType>,
    name: Option<&str>,
) -> Result<Item, AllocError>
    ensures { IfOk result (λ i. i
        ≡ items.item_as role (column.now, said) (option_map (λ s. s.now) name.entry)) }
{
    let name = match name {
        Some(name) => Text::new(alloc, name)?,
        None => usual_name(alloc, role, column)?,
    };
    let column = Text::new(alloc, column)?;
    Ok(Item {
        role,
        column,
        said,
        name,
    })
}

/// The item that a piece writes.
fn written_item(alloc: Global, role: Role, piece: &str) -> Result<Item, AllocError>
    ensures { IfOk result (λ i. i ≡ items.written_item role piece.now) }
{
    let (front, name) = titled(piece);
    let (column, said) = typed(front);
    item_as(alloc, role, column, said, name)
}

/// The refusal of a piece that lacks a name.
fn nameless(alloc: Global, role: Role, piece: &str) -> Result<Refusal, AllocError>
    ensures { IfOk result (λ r. r ≡ Refusal.Nameless (roles.option_of role) piece.now) }
{
    let option = Text::new(alloc, role.option())?;
    let piece = Text::new(alloc, piece)?;
    Ok(Refusal::Nameless { option, piece })
}

/// The item of a piece in a role; rows are counted without a piece.
pub(crate) fn item_of(alloc: Global, role: Role, piece: &str) -> Result<Item, AskError>
    ensures item { IfOk result (λ i. items.item_of role piece.now ≡ Ok i) }
    ensures cause { IfErr result (λ e. IsRefusedFor e (items.item_of role piece.now)) }
{
    if role.is_rows() {
        return Ok(item_as(alloc, role, "", None, None)?);
    }
    let item = written_item(alloc, role, piece)?;
    if item.column.as_bytes().is_empty() || item.name.as_bytes().is_empty() {
        return Err(AskError::Refused(nameless(alloc, role, piece)?));
    }
    Ok(item)
}
