//! A row that comes to one buffer, and what waits in one that leaves.

ghost use Rattle.std.specs.Prelude.{◌≡◌, ◌<◌, ◌^◌, IfOk, OnErr, length};
ghost use Rattle.pipe_inputs.specs.ChunkRows.{row_at};
ghost use Rattle.pipe_spill.specs.KeyTypes.{AreOfTypes};
ghost use Rattle.pipe_waiting.specs.Waiting.{WaitAsBefore, lent_row};
ghost use Rattle.pipe_local.specs.OneBuffer.{HasCome, HasLeft};

use crate::worker_end::WorkerEnd;
use pipe_columns::DataType;
use pipe_inputs::ChunkRows;
use pipe_waiting::WaitingRows;
use std::alloc::{AllocError, Global};
use std::mem;

/// Puts row `row` of a chunk behind those of the buffer of a partition. Where it fills the buffer, all
/// of them leave, in memory of their own, and the buffer keeps its room.
#[inline(always)]
pub(crate) fn put_into(
    alloc: Global,
    buffer: &mut WaitingRows,
    partition: usize,
    buffer_size: usize,
    key: &[u8],
    rows: &ChunkRows<'_>,
    row: usize,
    types: &[DataType],
) -> WorkerEnd
    requires there { row < length rows.now }
    requires placed { row < 2 ^ 32 }
    requires typed { AreOfTypes types.now (row_at rows.now row).inputs }
    requires short { buffer.old.count < buffer_size }
    ensures { HasCome types.now partition buffer_size
        (lent_row key.now (row_at rows.now row).place rows.now row)
        buffer.old buffer.new result }
{
    let place = rows.place(row);
    if buffer.len() < buffer_size - 1 {
        return match buffer.push_lent(key, place, rows, row, types) {
            Ok(()) => WorkerEnd::Done,
            Err(AllocError) => WorkerEnd::Memory,
        };
    }
    match buffer.with_lent(alloc, key, place, rows, row, types) {
        Ok(payload) => {
            buffer.clear();
            WorkerEnd::Payload(partition, payload)
        }
        Err(AllocError) => WorkerEnd::Memory,
    }
}

/// Takes what waits in a buffer, if anything does.
pub(crate) fn take_rest(
    alloc: Global,
    buffer: &mut WaitingRows,
) -> Result<Option<WaitingRows>, AllocError>
    ensures left { IfOk result (λ left. HasLeft left buffer.old buffer.new) }
    ensures refused { OnErr result (WaitAsBefore buffer.old buffer.new) }
{
    if buffer.is_empty() {
        return Ok(None);
    }
    buffer.shrink()?;
    Ok(Some(mem::replace(buffer, WaitingRows::new(alloc))))
}
