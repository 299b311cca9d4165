//! The rows of a frame that comes from a store, which is tested whole where it lies.

ghost use Rattle.std.specs.Prelude.{◌≡◌, ◌≢◌, ◌<◌, ◌%◌, ◌==◌, IfOk, IsErrOf, List, length, true};
ghost use Rattle.std.specs.List.{list_all};
ghost use Rattle.pipe_columns.specs.Key.{fold_bytes};
ghost use Rattle.pipe_spill.specs.FrameBytes.{frame_bytes, rows_bytes};
ghost use Rattle.pipe_spill.specs.SpillRow.{AreRows};
ghost use Rattle.pipe_spill.specs.declared.frame_read.FrameError.TheVariants as fault;
ghost use Rattle.pipe_spill.specs.declared.spill_row.SpillRow.{SpillRow};
ghost use Rattle.pipe_waiting.specs.OwnRows.{AreTestedTo, BeginsNoOwnRow, BeginsOwnRow};
ghost use Rattle.pipe_waiting.specs.Waiting.{HoldRows, left_rows};

use crate::lent_rows::LentRows;
use crate::read_inputs::{is_key, read_inputs};
use crate::row_head::{take_key, take_u64};
use pipe_columns::{AnyValue, DataType};
use pipe_spill::{DecodeError, FrameError, partition_of};
use std::alloc::Global;

/// The partition that keys are to lie in, out of so many.
#[derive(Debug, Clone, Copy)]
pub struct OwnPartition {
    pub number: usize,
    pub partitions: usize,
}

/// The bytes after a row of given types whose key lies in a partition. The list is for its values.
fn skip_row<'a>(
    alloc: Global,
    bytes: &'a [u8],
    key_types: &[DataType],
    input_types: &[DataType],
    own: OwnPartition,
    values: &mut Vec<AnyValue>,
) -> Result<&'a [u8], FrameError>
    requires { own.number < own.partitions }
    ensures row { IfOk result (λ rest. BeginsOwnRow key_types.now input_types.now
        own.partitions own.number bytes.now rest.now) }
    ensures not_a_frame { IsErrOf result fault.NotAFrame → BeginsNoOwnRow key_types.now
        input_types.now own.partitions own.number bytes.now }
{
    let Some((_place, key, inputs)) = take_key(bytes) else {
        return Err(FrameError::NotAFrame);
    };
    if partition_of(key, own.partitions) != own.number {
        return Err(FrameError::NotAFrame);
    }
    if !is_key(alloc, key, key_types, values)? {
        return Err(FrameError::NotAFrame);
    }
    match read_inputs(alloc, inputs, input_types, values) {
        Ok(rest) => Ok(rest),
        Err(DecodeError::NotAKey) => Err(FrameError::NotAFrame),
        Err(DecodeError::Memory) => Err(FrameError::Memory),
    }
}

/// The bytes after so many rows of given types whose keys lie in a partition.
fn skip_rows<'a>(
    alloc: Global,
    bytes: &'a [u8],
    key_types: &[DataType],
    input_types: &[DataType],
    own: OwnPartition,
    count: u64,
) -> Result<&'a [u8], FrameError>
    requires { own.number < own.partitions }
    ensures tested { IfOk result (λ rest. AreTestedTo key_types.now input_types.now
        own.partitions own.number rest.now bytes.now count) }
    ensures refused { IsErrOf result fault.NotAFrame → (rows : List SpillRow)
        → AreRows key_types.now input_types.now rows
        → list_all (λ r. fold_bytes r.key % own.partitions == own.number) rows ≡ true
        → length rows ≡ count → rows_bytes input_types.now rows ≢ bytes.now }
{
    let mut values = Vec::new(alloc);
    let mut rest = bytes;
    for _row in 0..count {
        rest = skip_row(alloc, rest, key_types, input_types, own, &mut values)?;
    }
    Ok(rest)
}

/// The rows of a frame, lent, where the bytes are one of so many rows of given types whose keys lie
/// in a partition. All is tested before the first row is given.
pub fn lend_frame<'a>(
    alloc: Global,
    bytes: &'a [u8],
    key_types: &[DataType],
    input_types: &[DataType],
    own: OwnPartition,
    count: u64,
) -> Result<LentRows<'a>, FrameError>
    requires { own.number < own.partitions }
    ensures held { IfOk result (λ a. HoldRows input_types.now a.count a.bytes) }
    ensures typed { IfOk result
        (λ a. AreRows key_types.now input_types.now (left_rows input_types.now a)) }
    ensures lie { IfOk result (λ a. list_all (λ r. fold_bytes r.key % own.partitions == own.number)
        (left_rows input_types.now a) ≡ true) }
    ensures count { IfOk result (λ a. a.count ≡ count) }
    ensures frame { IfOk result
        (λ a. frame_bytes input_types.now (left_rows input_types.now a) ≡ bytes.now) }
    ensures read_back { IfOk result (λ a. (rows : List SpillRow)
        → AreRows key_types.now input_types.now rows
        → frame_bytes input_types.now rows ≡ bytes.now → rows ≡ left_rows input_types.now a) }
    ensures refused { IsErrOf result fault.NotAFrame → (rows : List SpillRow)
        → AreRows key_types.now input_types.now rows
        → list_all (λ r. fold_bytes r.key % own.partitions == own.number) rows ≡ true
        → length rows ≡ count → frame_bytes input_types.now rows ≢ bytes.now }
{
    let Some((told, all)) = take_u64(bytes) else {
        return Err(FrameError::NotAFrame);
    };
    if told != count {
        return Err(FrameError::NotAFrame);
    }
    let rest = skip_rows(alloc, all, key_types, input_types, own, count)?;
    if rest.is_empty() {
        Ok(LentRows {
            count: count as usize,
            bytes: all,
        })
    } else {
        Err(FrameError::NotAFrame)
    }
}
