//! The columns that are shown: each with its type, and under a name of its own.

ghost use Rattle.std.specs.Prelude.{◌≡◌, IfErr, IfOk, Ok, option_copied, option_map};
ghost use Rattle.lavzimo_words.specs.Results.{IsRefusedFor};
ghost use Rattle.lavzimo_words.specs.Shown as shown;

use crate::asked_column::AskedColumn;
use crate::item::Item;
use crate::refusal::{AskError, Refusal};
use pipe_columns::{DataType, Text};
use std::alloc::{AllocError, Global};

/// The first item of a column of which a type is said.
fn said_item<'a>(items: &'a [Item], column: &Text) -> Option<&'a Item>
    ensures { option_copied result ≡ shown.said_item items.entry.now column.now }
{
    items
        .iter()
        .find(|item| item.column == *column && item.said.is_some())
}

/// The first type that a column is said to have.
fn said_type(items: &[Item], column: &Text) -> Option<DataType>
    ensures { result ≡ shown.said_type items.now column.now }
{
    match said_item(items, column) {
        Some(item) => item.said,
        None => None,
    }
}

/// Whether numbers of a column are added or compared.
fn has_numbers(items: &[Item], column: &Text) -> bool
    ensures { result ≡ shown.has_numbers items.now column.now }
{
    items
        .iter()
        .any(|item| item.column == *column && item.role.is_of_numbers())
}

/// The type of a column of which none is said.
fn usual_type(items: &[Item], column: &Text) -> DataType
    ensures { result ≡ shown.usual_type items.now column.now }
{
    if has_numbers(items, column) {
        DataType::Int64
    } else {
        DataType::String
    }
}

/// The type of a column.
fn column_type(items: &[Item], column: &Text) -> DataType
    ensures { result ≡ shown.column_type items.now column.now }
{
    match said_type(items, column) {
        Some(dtype) => dtype,
        None => usual_type(items, column),
    }
}

/// Whether a type is the one that is said, if one is.
fn is_as_said(said: Option<DataType>, dtype: DataType) -> bool
    ensures { result ≡ shown.is_as_said said dtype }
{
    match said {
        Some(said) => said == dtype,
        None => true,
    }
}

/// An item as a shown column of a type.
fn shown_as(alloc: Global, item: &Item, dtype: DataType) -> Result<AskedColumn, AskError>
    ensures column { IfOk result (λ s. shown.shown_as item.now dtype ≡ Ok s) }
    ensures cause { IfErr result (λ e. IsRefusedFor e (shown.shown_as item.now dtype)) }
{
    let column = item.column.try_clone(alloc)?;
    if !is_as_said(item.said, dtype) {
        return Err(AskError::Refused(Refusal::TwoTypes(column)));
    }
    if !item.role.suits(dtype) {
        let option = Text::new(alloc, item.role.option())?;
        return Err(AskError::Refused(Refusal::Unsuited {
            option,
            column,
            dtype,
        }));
    }
    let name = item.name.try_clone(alloc)?;
    Ok(AskedColumn {
        role: item.role,
        column,
        dtype,
        name,
    })
}

/// All items as shown columns: a column has one type.
pub(crate) fn shown_all(alloc: Global, items: &[Item]) -> Result<Vec<AskedColumn>, AskError>
    ensures columns { IfOk result (λ v. shown.shown_all items.now ≡ Ok v.items) }
    ensures cause { IfErr result (λ e. IsRefusedFor e (shown.shown_all items.now)) }
{
    let mut columns = Vec::new(alloc);
    for item in items {
        let dtype = column_type(items, &item.column);
        let column = shown_as(alloc, item, dtype)?;
        columns.push(column)?;
    }
    Ok(columns)
}

/// Whether some of the columns has a name.
fn has_name(columns: &[AskedColumn], name: &Text) -> bool
    ensures { result ≡ shown.has_name columns.now name.now }
{
    columns.iter().any(|column| column.name == *name)
}

/// The first name that stands again behind itself.
fn first_double(columns: &[AskedColumn]) -> Option<&Text>
    ensures { option_map (λ n. n.now) result ≡ shown.first_double columns.now }
{
    let mut rest = columns;
    while let Some((first, later)) = rest.split_first() {
        if has_name(later, &first.name) {
            return Some(&first.name);
        }
        rest = later;
    }
    None
}

/// Tests that there is a shown column, and that no two have one name.
pub(crate) fn tell_apart(
    alloc: Global,
    columns: Vec<AskedColumn>,
) -> Result<Vec<AskedColumn>, AskError>
    ensures columns { IfOk result (λ v. shown.told_apart columns.items ≡ Ok v.items) }
    ensures cause { IfErr result (λ e. IsRefusedFor e (shown.told_apart columns.items)) }
{
    if columns.is_empty() {
        return Err(AskError::Refused(Refusal::NothingAsked));
    }
    if let Some(name) = first_double(&columns) {
        let name = name.try_clone(alloc)?;
        return Err(AskError::Refused(Refusal::DoubleName(name)));
    }
    Ok(columns)
}
