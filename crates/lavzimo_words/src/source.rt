//! Where shown columns come from.

ghost use Rattle.std.specs.Prelude.{◌≡◌, IfOk};
ghost use Rattle.std.specs.List.{list_any};
ghost use Rattle.lavzimo_words.specs.AskedQuery as spec;
ghost use Rattle.lavzimo_words.specs.Roles.{is_key};

use crate::asked_column::AskedColumn;
use std::alloc::{AllocError, Global};

/// Where a shown column comes from, by a place among the columns of an answer.
#[derive(Clone, Copy, Debug, PartialEq, Eq)]
pub enum Source {
    /// It is the column there: a key, an aggregate, or an exact sum.
    Value(usize),
    /// It is the mean of the exact sum there and of the count behind it.
    Mean(usize),
}

/// Whether some column is a key.
fn has_key(columns: &[AskedColumn]) -> bool
    ensures { result ≡ list_any (λ c. is_key c.role) columns.now }
{
    columns.iter().any(|column| column.role.is_key())
}

/// The first shown place: the key that all rows have is not shown.
fn first_place(columns: &[AskedColumn]) -> usize
    ensures { result ≡ spec.first_place columns.now }
{
    if has_key(columns) { 0 } else { 1 }
}

/// Where a column comes from.
fn source_at(place: usize, column: &AskedColumn) -> Source
    ensures { result ≡ spec.source_at place column.now }
{
    if column.role.is_mean() {
        Source::Mean(place)
    } else {
        Source::Value(place)
    }
}

/// How many columns of an answer a shown one has.
fn width(column: &AskedColumn) -> usize
    ensures { result ≡ spec.width column.now.role }
{
    if column.role.has_halves() { 2 } else { 1 }
}

/// Where shown columns come from, in their order.
pub fn shown_columns(alloc: Global, columns: &[AskedColumn]) -> Result<Vec<Source>, AllocError>
    ensures sources { IfOk result (λ v. v.items ≡ spec.shown_columns columns.now) }
{
    let mut sources = Vec::new(alloc);
    let mut place = first_place(columns);
    for column in columns {
        sources.push(source_at(place, column))?;
        match place.checked_add(width(column)) {
            Some(next) => place = next,
            None => return Err(AllocError),
        }
    }
    Ok(sources)
}
