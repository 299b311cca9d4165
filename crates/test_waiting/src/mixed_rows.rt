//! Rows of several types, with keys of several lengths: given, owned, and as bytes again.

ghost use Rattle.std.specs.Prelude.{◌≡◌, IfOk, length};
ghost use Rattle.pipe_spill.specs.SpillRow.{HaveInputs};
ghost use Rattle.pipe_waiting.specs.Waiting.{HaveNoTexts, HoldRows, left_rows};

use pipe_columns::{AnyValue, DataType, Place};
use pipe_spill::FrameError;
use pipe_waiting::{LentRows, OwnPartition, WaitingRows, lend_frame, own_rows};
use std::alloc::{AllocError, Global};
use std::test::Fail;

/// Types of inputs none of which is a text.
const PLAIN: [DataType; 6] = [
    DataType::Boolean,
    DataType::Int8,
    DataType::UInt16,
    DataType::Date,
    DataType::UInt64,
    DataType::Int128,
];

/// The frame of a row of the key k, one of the key null whose inputs are null, and one whose key is
/// 32 letters a.
const PLAIN_ROWS: [u8; 178] = [
    0, 0, 0, 0, 0, 0, 0, 3, //
    0, 0, 0, 3, 0, 0, 1, 2, 0, 0, 0, 0, 0, 0, 0, 4, 1, 107, 0, 0, //
    1, 1, 1, 0, 1, 255, 255, 1, 127, 255, 255, 255, //
    1, 255, 255, 255, 255, 255, 255, 255, 255, //
    1, 128, 0, 0, 16, 0, 0, 0, 0, 0, 0, 0, 0, 0, 0, 0, 0, //
    0, 0, 0, 4, 0, 0, 0, 0, 0, 0, 0, 0, 0, 0, 0, 1, 0, 0, 0, 0, 0, 0, 0, //
    0, 0, 0, 4, 0, 0, 0, 1, 0, 0, 0, 0, 0, 0, 0, 35, 1, //
    97, 97, 97, 97, 97, 97, 97, 97, 97, 97, 97, 97, 97, 97, 97, 97, //
    97, 97, 97, 97, 97, 97, 97, 97, 97, 97, 97, 97, 97, 97, 97, 97, 0, 0, //
    1, 0, 1, 255, 1, 0, 0, 1, 128, 0, 0, 0, 1, 0, 0, 0, 0, 0, 0, 0, 1, //
    1, 127, 255, 255, 255, 255, 255, 255, 255, 255, 255, 255, 255, 255, 255, 255, 255,
];

/// The frame of a row of the empty key, whose inputs are the text of NUL and b, and -2, and of one
/// whose key is 32 letters a, and whose inputs are null.
const TEXT_ROWS: [u8; 88] = [
    0, 0, 0, 0, 0, 0, 0, 2, //
    0, 0, 0, 0, 0, 0, 0, 1, 0, 0, 0, 0, 0, 0, 0, 3, 1, 0, 0, 1, 0, 1, 98, 0, 0, 1, 126, //
    0, 0, 0, 0, 0, 0, 0, 2, 0, 0, 0, 0, 0, 0, 0, 35, 1, //
    97, 97, 97, 97, 97, 97, 97, 97, 97, 97, 97, 97, 97, 97, 97, 97, //
    97, 97, 97, 97, 97, 97, 97, 97, 97, 97, 97, 97, 97, 97, 97, 97, 0, 0, 0, 0,
];

/// The types of the inputs of `TEXT_ROWS`.
const TEXT_TYPES: [DataType; 2] = [DataType::String, DataType::Int8];

/// The rows of a frame whose keys are texts.
fn lend<'a>(
    alloc: Global,
    frame: &'a [u8],
    types: &[DataType],
    count: u64,
) -> Result<LentRows<'a>, FrameError>
    ensures held { IfOk result (λ a. HoldRows types.now a.count a.bytes) }
    ensures typed { IfOk result (λ a. HaveInputs types.now (left_rows types.now a)) }
{
    let own = OwnPartition {
        number: 0,
        partitions: 1,
    };
    lend_frame(alloc, frame, &[DataType::String], types, own, count)
}

/// Whether values are those of the row of the key k.
fn are_of_letter(values: &[AnyValue]) -> bool {
    values.len() == 6
        && matches!(values[0], AnyValue::Boolean(true))
        && matches!(values[1], AnyValue::Int(-128))
        && matches!(values[2], AnyValue::Int(65535))
        && matches!(values[3], AnyValue::Int(-1))
        && matches!(values[4], AnyValue::Int(18446744073709551615))
        && matches!(values[5], AnyValue::Int(1267650600228229401496703205376))
}

/// Whether values are null.
fn are_null(values: &[AnyValue]) -> bool {
    for value in values {
        if !matches!(value, AnyValue::Null) {
            return false;
        }
    }
    true
}

/// Whether the next row has this place and key, given whole, and by these alone.
fn gives(
    rows: &mut LentRows<'_>,
    types: &[DataType],
    values: &mut [AnyValue],
    place: Place,
    key: &[u8],
) -> bool
    requires held { HoldRows types.now rows.old.count rows.old.bytes }
    requires plain { HaveNoTexts types.now }
    requires fit { length values.old ≡ length types.now }
    ensures held { HoldRows types.now rows.new.count rows.new.bytes }
    ensures fit { length values.new ≡ length values.old }
{
    let mut passed = rows.again();
    let Some(alone) = passed.next_key(types) else {
        return false;
    };
    let Some(next) = rows.next_plain(types, values) else {
        return false;
    };
    let left = passed.len() == rows.len() && passed.byte_len() == rows.byte_len();
    left && alone.place == place && alone.key == key && next.place == place && next.key == key
}

/// Whether the rows of `PLAIN_ROWS` are given in turn, and no other.
fn gives_plain(rows: &mut LentRows<'_>, types: &[DataType], values: &mut [AnyValue]) -> bool
    requires held { HoldRows types.now rows.old.count rows.old.bytes }
    requires plain { HaveNoTexts types.now }
    requires fit { length values.old ≡ length types.now }
{
    let place = Place { chunk: 3, row: 258 };
    let first = gives(rows, types, values, place, &[1, 107, 0, 0]);
    let letter = are_of_letter(values);
    let second = gives(rows, types, values, Place { chunk: 4, row: 0 }, &[0]);
    let null = are_null(values);
    let last = rows.len() == 1 && rows.next_plain(types, values).is_some();
    first && letter && second && null && last && rows.next_plain(types, values).is_none()
}

/// Whether `PLAIN_ROWS` give their rows, into a list that held other values.
fn plain_in_turn(alloc: Global) -> Result<bool, FrameError> {
    let mut rows = lend(alloc, &PLAIN_ROWS, &PLAIN, 3)?;
    let mut values = Vec::new(alloc);
    values.resize_with(6, || AnyValue::Boolean(true))?;
    Ok(values.len() == 6 && rows.byte_len() == 170 && gives_plain(&mut rows, &PLAIN, &mut values))
}

#[test]
fn plain_rows_in_turn(rt: HostRuntime) -> Result<(), Fail> {
    assert!(rt; plain_in_turn(rt.alloc()) == Ok(true));
    Ok(())
}

/// The rows of `TEXT_ROWS` as bytes, by rows of their own.
fn own_and_wait(alloc: Global) -> Result<WaitingRows, FrameError> {
    let rows = own_rows(alloc, lend(alloc, &TEXT_ROWS, &TEXT_TYPES, 2)?, &TEXT_TYPES)?;
    Ok(WaitingRows::of_rows(alloc, &rows, &TEXT_TYPES)?)
}

/// Whether these are the rows of `TEXT_ROWS`, which are gone once they are let go.
fn are_texts(mut waiting: WaitingRows) -> bool {
    let all = waiting.len() == 2 && waiting.bytes() == &TEXT_ROWS[8..];
    waiting.clear();
    all && waiting.is_empty() && waiting.bytes().is_empty()
}

/// Whether rows of texts that are owned and made bytes again are as before.
pub(crate) fn are_owned(alloc: Global) -> Result<bool, FrameError> {
    Ok(are_texts(own_and_wait(alloc)?))
}
