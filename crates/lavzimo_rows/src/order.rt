//! Which rows are shown, and in which order.

ghost use Rattle.std.specs.Prelude.{◌≡◌, IfOk, map, take};
ghost use Rattle.std.specs.List.{range_with_len};
ghost use Rattle.pipe_columns.specs.Frame.{row_at};
ghost use Rattle.pipe_lines.specs.Rows.{frame_rows};
ghost use Rattle.lavzimo_rows.specs.Shown.{column_cmp, key_cmp, kept_rows, limited, ordered};
ghost use Rattle.lavzimo_rows.specs.StableOrder.{in_order};

use crate::by_column::rows_by_column;
use crate::by_key::{all_rows, rows_by_key};
use crate::columns::ShownColumn;
use crate::row_order::{ColumnOrder, RowOrder};
use crate::shown::Shown;
use pipe_columns::{Column, DataFrame};
use std::alloc::{AllocError, Global};

/// The key columns, which are the first ones.
fn key_columns(columns: &[Column], keys: usize) -> &[Column]
    ensures { result.now ≡ take keys columns.now }
{
    &columns[..keys.min(columns.len())]
}

/// The rows of an order by a column; where it isn't shown all rows show the same.
fn order_by_column(
    alloc: Global,
    shown: &[ShownColumn],
    by: ColumnOrder,
    columns: &[Column],
    rows: Vec<usize>,
) -> Result<Vec<usize>, AllocError>
    ensures { IfOk result (λ v. map (row_at columns.now) v.items
        ≡ in_order (column_cmp shown.now by) (map (row_at columns.now) rows.items)) }
{
    match shown.get(by.column) {
        Some(column) => rows_by_column(alloc, columns, column.shows, by.descending, &rows),
        None => Ok(rows),
    }
}

/// The numbers of a frame's rows, in the order in which they are shown.
fn row_order(alloc: Global, shown: &Shown, frame: &DataFrame) -> Result<Vec<usize>, AllocError>
    ensures { IfOk result (λ v. map (row_at frame.now.columns) v.items
        ≡ ordered shown.now.columns shown.now.keys shown.now.order (frame_rows frame.now)) }
{
    let columns = frame.columns();
    let keys = key_columns(columns, shown.keys());
    match shown.order() {
        RowOrder::First => all_rows(alloc, frame.height()),
        RowOrder::Key => rows_by_key(alloc, keys, frame.height()),
        RowOrder::Column(by) => {
            let rows = rows_by_key(alloc, keys, frame.height())?;
            order_by_column(alloc, shown.columns(), by, columns, rows)
        }
    }
}

/// Drops the first rows, and keeps so many of the rest at most.
fn limit_rows(rows: &mut Vec<usize>, offset: usize, limit: Option<usize>)
    ensures { rows.new.items ≡ limited offset limit rows.old.items }
{
    let dropped = offset.min(rows.len());
    rows.drain(..dropped);
    if let Some(limit) = limit {
        rows.truncate(limit);
    }
}

/// The numbers of the rows that are shown of a frame, in their order.
pub fn shown_rows(alloc: Global, shown: &Shown, frame: &DataFrame) -> Result<Vec<usize>, AllocError>
    ensures { IfOk result (λ v.
        map (row_at frame.now.columns) v.items ≡ kept_rows shown.now (frame_rows frame.now)) }
{
    let mut rows = row_order(alloc, shown, frame)?;
    limit_rows(&mut rows, shown.offset(), shown.limit());
    Ok(rows)
}
