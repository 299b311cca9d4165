//! Rows of a chunk that wait as bytes, and what is needed to merge them.

ghost use Rattle.std.specs.Prelude.{◌≡◌, ◌<◌, ◌^◌, All, IfOk, IsTrue, OnOk, length};
ghost use Rattle.pipe_aggs.specs.CheckedQuery.{input_types};
ghost use Rattle.pipe_aggs.specs.QueryTrees.{query_tree};
ghost use Rattle.pipe_inputs.specs.ChunkRows.{row_at};
ghost use Rattle.pipe_model.specs.Output.{key_types};
ghost use Rattle.pipe_spill.specs.SpillRow.{AreRows, HasValues, spilled};
ghost use Rattle.pipe_waiting.specs.Waiting.{AreWaiting, HasPushed, HaveNoTexts, waiting_rows};

use pipe_aggs::CheckedQuery;
use pipe_columns::{AnyValue, DataType};
use pipe_groups::encode_row;
use pipe_inputs::ChunkRows;
use pipe_waiting::WaitingRows;
use std::alloc::{AllocError, Global};

/// Whether no type is that of texts.
pub(crate) fn have_no_texts(types: &[DataType]) -> bool
    ensures { IsTrue result → HaveNoTexts types.now }
{
    types.iter().all(|dtype| *dtype != DataType::String)
}

/// A list of so many values.
pub(crate) fn values_for(alloc: Global, count: usize) -> Result<Vec<AnyValue>, AllocError>
    ensures { IfOk result (λ v. length v.items ≡ count) }
{
    let mut values = Vec::with_capacity(alloc, count)?;
    for _value in 0..count {
        values.push_reserved(AnyValue::Null);
    }
    Ok(values)
}

/// Makes a row of a chunk wait.
fn push_row(
    waiting: &mut WaitingRows,
    key: &mut Vec<u8>,
    query: &CheckedQuery<'_>,
    rows: &ChunkRows<'_>,
    row: usize,
) -> Result<(), AllocError>
    requires there { row < length rows.now }
    requires number { row < 2 ^ 32 }
    requires typed { All (HasValues (key_types (query_tree query.now))
        (input_types (query_tree query.now))) rows.now }
    ensures { OnOk result (HasPushed (input_types (query_tree query.now))
        (spilled (key_types (query_tree query.now)) (row_at rows.now row)) waiting.old waiting.new) }
{
    encode_row(key, rows, row, query.key_types())?;
    waiting.push_lent(key, rows.place(row), rows, row, query.input_types())
}

/// Makes the rows of a chunk wait, where none did.
pub(crate) fn push_all(
    waiting: &mut WaitingRows,
    key: &mut Vec<u8>,
    query: &CheckedQuery<'_>,
    rows: &ChunkRows<'_>,
) -> Result<(), AllocError>
    requires number { length rows.now < 2 ^ 32 }
    requires typed { All (HasValues (key_types (query_tree query.now))
        (input_types (query_tree query.now))) rows.now }
    requires none { waiting.old.count ≡ 0 }
    requires held { AreWaiting (input_types (query_tree query.now)) waiting.old }
    ensures held { OnOk result (AreWaiting (input_types (query_tree query.now)) waiting.new) }
    ensures typed { OnOk result (AreRows (key_types (query_tree query.now))
        (input_types (query_tree query.now))
        (waiting_rows (input_types (query_tree query.now)) waiting.new)) }
    ensures count { OnOk result (waiting.new.count ≡ length rows.now) }
{
    for row in 0..rows.len() {
        push_row(waiting, key, query, rows, row)?;
    }
    Ok(())
}
