//! All that waits, or all rows of a frame, are moved into a table, or none.

ghost use Rattle.std.specs.Prelude.{◌≡◌, [], IfOk, IsTrue, ◌↔◌, OnErr, OnOk, length};
ghost use Rattle.pipe_columns.specs.DataType.{is_string};
ghost use Rattle.pipe_waiting.specs.Waiting.{HaveNoTexts, HoldRows, left_rows};
ghost use Rattle.pipe_global.specs.Moving.{CanMerge, TookRows};
ghost use Rattle.pipe_global.specs.Refused.{HoldsSame};
ghost use Rattle.pipe_global.specs.Waits.{AllWait, rows_read};

use crate::merge::{own_waiting, put_payloads, put_rows, reserve_payloads, reserve_rows};
use pipe_columns::{AnyValue, DataType};
use pipe_tables::AggHashTable;
use pipe_waiting::{LentRows, WaitingRows, own_rows};
use std::alloc::{AllocError, Global};

/// Whether no type is that of texts.
fn have_no_texts(types: &[DataType]) -> bool
    ensures { IsTrue result → HaveNoTexts types.now }
{
    types.iter().all(|dtype| *dtype != DataType::String)
}

/// A list of so many values.
fn values_for(alloc: Global, count: usize) -> Result<Vec<AnyValue>, AllocError>
    ensures { IfOk result (λ v. length v.items ≡ count) }
{
    let mut values = Vec::with_capacity(alloc, count)?;
    for _value in 0..count {
        values.push_reserved(AnyValue::Null);
    }
    Ok(values)
}

/// Feeds what waits from its bytes.
fn feed_waiting(
    alloc: Global,
    table: &mut AggHashTable,
    waiting: &[WaitingRows],
) -> Result<(), AllocError>
    requires typed { AllWait table.old.shape.input_types waiting.now }
    requires plain { HaveNoTexts table.old.shape.input_types }
    requires rows { CanMerge table.old (rows_read table.old.shape.input_types waiting.now) }
    ensures ok { OnOk result (TookRows table.old table.new
        (rows_read table.old.shape.input_types waiting.now)) }
    ensures err { OnErr result (HoldsSame table.old table.new) }
{
    let mut values = values_for(alloc, table.input_types().len())?;
    table.take_waiting(waiting, &mut values)
}

/// Feeds what waits row by row, once all rows are owned.
fn feed_owned(
    alloc: Global,
    table: &mut AggHashTable,
    waiting: &[WaitingRows],
) -> Result<(), AllocError>
    requires typed { AllWait table.old.shape.input_types waiting.now }
    requires rows { CanMerge table.old (rows_read table.old.shape.input_types waiting.now) }
    ensures ok { OnOk result (TookRows table.old table.new
        (rows_read table.old.shape.input_types waiting.now)) }
    ensures err { OnErr result (HoldsSame table.old table.new) }
{
    let payloads = own_waiting(alloc, waiting, table.input_types())?;
    reserve_payloads(table, &payloads)?;
    put_payloads(table, payloads);
    Ok(())
}

/// Feeds what waits, in the way that its inputs ask for.
fn feed_all(
    alloc: Global,
    table: &mut AggHashTable,
    waiting: &[WaitingRows],
) -> Result<(), AllocError>
    requires typed { AllWait table.old.shape.input_types waiting.now }
    requires rows { CanMerge table.old (rows_read table.old.shape.input_types waiting.now) }
    ensures ok { OnOk result (TookRows table.old table.new
        (rows_read table.old.shape.input_types waiting.now)) }
    ensures err { OnErr result (HoldsSame table.old table.new) }
{
    if have_no_texts(table.input_types()) {
        feed_waiting(alloc, table, waiting)
    } else {
        feed_owned(alloc, table, waiting)
    }
}

/// Moves all that waits in, where memory is there for all of it; then nothing waits.
pub(crate) fn take_waiting(
    alloc: Global,
    table: &mut AggHashTable,
    waiting: &mut Vec<WaitingRows>,
) -> Result<(), AllocError>
    requires typed { AllWait table.old.shape.input_types waiting.old.items }
    requires rows { CanMerge table.old
        (rows_read table.old.shape.input_types waiting.old.items) }
    ensures ok { OnOk result (TookRows table.old table.new
        (rows_read table.old.shape.input_types waiting.old.items)) }
    ensures none { OnOk result (waiting.new.items ≡ []) }
    ensures err { OnErr result (HoldsSame table.old table.new) }
    ensures kept { OnErr result (waiting.new.items ≡ waiting.old.items) }
{
    feed_all(alloc, table, waiting)?;
    waiting.clear();
    Ok(())
}

/// Feeds rows that are lent from their bytes.
fn feed_lent(alloc: Global, table: &mut AggHashTable, rows: LentRows<'_>) -> Result<(), AllocError>
    requires held { HoldRows table.old.shape.input_types rows.count rows.bytes }
    requires plain { HaveNoTexts table.old.shape.input_types }
    requires rows { CanMerge table.old (left_rows table.old.shape.input_types rows) }
    ensures ok { OnOk result (TookRows table.old table.new
        (left_rows table.old.shape.input_types rows.entry)) }
    ensures err { OnErr result (HoldsSame table.old table.new) }
{
    let mut values = values_for(alloc, table.input_types().len())?;
    table.take_lent(rows, &mut values)
}

/// Feeds rows that are lent row by row, once all are owned.
fn feed_lent_owned(
    alloc: Global,
    table: &mut AggHashTable,
    rows: LentRows<'_>,
) -> Result<(), AllocError>
    requires held { HoldRows table.old.shape.input_types rows.count rows.bytes }
    requires rows { CanMerge table.old (left_rows table.old.shape.input_types rows) }
    ensures ok { OnOk result (TookRows table.old table.new
        (left_rows table.old.shape.input_types rows.entry)) }
    ensures err { OnErr result (HoldsSame table.old table.new) }
{
    let owned = own_rows(alloc, rows, table.input_types())?;
    reserve_rows(table, &owned)?;
    put_rows(table, owned);
    Ok(())
}

/// Moves all rows that are lent in, where memory is there for all of them.
pub(crate) fn take_lent(
    alloc: Global,
    table: &mut AggHashTable,
    rows: LentRows<'_>,
) -> Result<(), AllocError>
    requires held { HoldRows table.old.shape.input_types rows.count rows.bytes }
    requires rows { CanMerge table.old (left_rows table.old.shape.input_types rows) }
    ensures ok { OnOk result (TookRows table.old table.new
        (left_rows table.old.shape.input_types rows.entry)) }
    ensures err { OnErr result (HoldsSame table.old table.new) }
{
    if have_no_texts(table.input_types()) {
        feed_lent(alloc, table, rows)
    } else {
        feed_lent_owned(alloc, table, rows)
    }
}
