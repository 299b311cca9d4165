//! What waits is put as one frame.

ghost use Rattle.std.specs.Prelude.{◌≡◌, ◌+◌, ◌-◌, ◌<◌, ◌≤◌, ◌^◌, ◌∷◌, ◌++◌, [], IfOk, IsErrOf, OnErr, OnOk, if◌then◌else◌, length};
ghost use Rattle.std.specs.Int.{bytes_high_first};
ghost use Rattle.pipe_columns.specs.Causes.{HasCause};
ghost use Rattle.pipe_spill.specs.FrameBytes.{frame_bytes};
ghost use Rattle.pipe_spill.specs.Store.{with_frame};
ghost use Rattle.pipe_global.specs.Steps.{puts};
ghost use Rattle.pipe_global.specs.Waits.{AllWait, bytes_waiting, count_waiting, payloads_read, rows_read};
ghost use Rattle.pipe_global.specs.declared.dump_error.DumpError.TheVariants as dump_error;

use crate::dump_error::DumpError;
use crate::mark::Mark;
use pipe_columns::DataType;
use pipe_spill::{SpillStore, StoreError};
use pipe_waiting::WaitingRows;
use std::alloc::{AllocError, Global};

/// How many rows wait, and how many bytes they are; where that number doesn't fit, the greatest.
fn sizes_of(waiting: &[WaitingRows]) -> (u64, usize)
    requires { count_waiting waiting.now < 2 ^ 32 }
    ensures { result.0 ≡ count_waiting waiting.now }
{
    let mut count = 0;
    let mut size: usize = 0;
    for rows in waiting {
        count += rows.len() as u64;
        size = size.saturating_add(rows.bytes().len());
    }
    (count, size)
}

/// The frame of so many rows, which are those that wait, with room for so many bytes of them.
fn frame_of(
    alloc: Global,
    waiting: &[WaitingRows],
    count: u64,
    size: usize,
) -> Result<Vec<u8>, AllocError>
    ensures { IfOk result
        (λ frame. frame.items ≡ bytes_high_first 8 count ++ bytes_waiting waiting.now) }
{
    let mut frame = Vec::with_capacity(alloc, size.saturating_add(8))?;
    frame.extend_from_slice(&count.to_be_bytes())?;
    for rows in waiting {
        frame.extend_from_slice(rows.bytes())?;
    }
    Ok(frame)
}

/// Puts what waits as one frame: the number of rows, and their bytes as they lie. Memory comes first.
fn put_frame<S: SpillStore>(
    alloc: Global,
    waiting: &[WaitingRows],
    store: &mut S,
    marks: &mut Vec<Mark>,
) -> Result<(), DumpError>
    requires few { count_waiting waiting.now < 2 ^ 32 }
    requires room { S.held store.old < 2 ^ 64 - 1 }
    ensures marks { OnOk result (marks.new.items ≡ marks.old.items
        ++ record { number = S.held store.old; rows = count_waiting waiting.now } ∷ []) }
    ensures told { OnOk result (S.told store.new ≡ with_frame (S.told store.old)
        (bytes_high_first 8 (count_waiting waiting.now) ++ bytes_waiting waiting.now)) }
    ensures held { OnOk result (S.held store.new ≡ S.held store.old + 1) }
    ensures refused { OnErr result (marks.new.items ≡ marks.old.items) }
    ensures refused_told { OnErr result (S.told store.new ≡ S.told store.old) }
    ensures refused_held { OnErr result (S.held store.new ≡ S.held store.old) }
    ensures sure { S.sure store.new ≡ S.sure store.old }
    ensures path { S.path store.new ≡ S.path store.old }
    ensures cause { HasCause (S.faults store.old) (S.faults store.new)
        (IsErrOf result dump_error.Store) }
    ensures calm { (IsErrOf result dump_error.Store → ⊥) → S.faults store.new ≡ S.faults store.old }
{
    let (rows, size) = sizes_of(waiting);
    if marks.reserve(1).is_err() {
        return Err(DumpError::Memory);
    }
    let Ok(frame) = frame_of(alloc, waiting, rows, size) else {
        return Err(DumpError::Memory);
    };
    match store.put(&frame) {
        Ok(number) => {
            marks.push_reserved(Mark { number, rows });
            Ok(())
        }
        Err(StoreError::Failed) => Err(DumpError::Store),
        Err(StoreError::Memory) => Err(DumpError::Memory),
    }
}

/// Puts what waits as one frame, where more payloads wait than the limit; none waits then.
pub(crate) fn put_waiting<S: SpillStore>(
    alloc: Global,
    waiting: &mut Vec<WaitingRows>,
    store: &mut S,
    marks: &mut Vec<Mark>,
    input_types: &[DataType],
    limit: usize,
) -> Result<(), DumpError>
    requires typed { AllWait input_types.now waiting.old.items }
    requires few { length (rows_read input_types.now waiting.old.items) < 2 ^ 32 }
    requires room { S.held store.old < 2 ^ 64 - 1 }
    ensures waiting { OnOk result (payloads_read input_types.now waiting.new.items
        ≡ (if puts limit (payloads_read input_types.now waiting.old.items) then []
        else payloads_read input_types.now waiting.old.items)) }
    ensures typed { AllWait input_types.now waiting.new.items }
    ensures marks { OnOk result (marks.new.items
        ≡ (if puts limit (payloads_read input_types.now waiting.old.items)
        then marks.old.items ++ record {
          number = S.held store.old;
          rows = length (rows_read input_types.now waiting.old.items);
        } ∷ []
        else marks.old.items)) }
    ensures told { OnOk result (S.told store.new
        ≡ (if puts limit (payloads_read input_types.now waiting.old.items)
        then with_frame (S.told store.old)
        (frame_bytes input_types.now (rows_read input_types.now waiting.old.items))
        else S.told store.old)) }
    ensures held { OnOk result (S.held store.new
        ≡ (if puts limit (payloads_read input_types.now waiting.old.items)
        then S.held store.old + 1 else S.held store.old)) }
    ensures refused { OnErr result (waiting.new.items ≡ waiting.old.items) }
    ensures refused_marks { OnErr result (marks.new.items ≡ marks.old.items) }
    ensures refused_told { OnErr result (S.told store.new ≡ S.told store.old) }
    ensures refused_held { OnErr result (S.held store.new ≡ S.held store.old) }
    ensures sure { S.sure store.new ≡ S.sure store.old }
    ensures path { S.path store.new ≡ S.path store.old }
    ensures cause { HasCause (S.faults store.old) (S.faults store.new)
        (IsErrOf result dump_error.Store) }
    ensures calm { (IsErrOf result dump_error.Store → ⊥) → S.faults store.new ≡ S.faults store.old }
{
    if waiting.len() <= limit {
        return Ok(());
    }
    match put_frame(alloc, waiting, store, marks) {
        Ok(()) => {
            waiting.clear();
            Ok(())
        }
        Err(error) => Err(error),
    }
}
