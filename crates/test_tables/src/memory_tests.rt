//! Calls that want memory: `rt try --test --fail-alloc N` refuses the allocation of number N. A
//! refused call is made again, and then each row counts once.

use crate::asked::hold;
use crate::tables::joined::{Asked, answer};
use crate::tables::local::waits;
use crate::tables::rows::{FEW, HIDDEN_FIRST, HIDDEN_OTHER, are_hashed};
use pipe_columns::{AnyValue, DataType, Place};
use pipe_spill::{SpillRow, Values, encode_key};
use pipe_tables::{LocalEnd, SpillPartitions};
use std::alloc::{AllocError, Global};
use std::test::Fail;

#[test]
fn tables_that_are_joined(rt: HostRuntime) -> Result<(), Fail> {
    hold(answer(rt.alloc(), &FEW, Asked::Join))
}

#[test]
fn a_partition_that_is_taken(rt: HostRuntime) -> Result<(), Fail> {
    hold(answer(rt.alloc(), &FEW, Asked::Take))
}

#[test]
fn first_places(rt: HostRuntime) -> Result<(), Fail> {
    hold(answer(rt.alloc(), &FEW, Asked::Firsts))
}

#[test]
fn groups_by_first_row(rt: HostRuntime) -> Result<(), Fail> {
    hold(answer(rt.alloc(), &FEW, Asked::Order))
}

/// A row of key 1.
fn row_of(alloc: Global, row: u32) -> Result<SpillRow, AllocError> {
    Ok(SpillRow {
        place: Place { chunk: 0, row },
        key: encode_key(alloc, &[AnyValue::Int(1)], &[DataType::Int64])?,
        values: Values::new(Vec::new(alloc)),
    })
}

/// Puts a row into buffers, again where memory was wanting.
fn put_into(buffers: &mut SpillPartitions, row: SpillRow) -> LocalEnd {
    match buffers.insert(row) {
        LocalEnd::Memory(row) => buffers.insert(row),
        end => end,
    }
}

/// Whether a row stays in the buffers.
fn stays(buffers: &mut SpillPartitions, row: SpillRow) -> bool {
    matches!(put_into(buffers, row), LocalEnd::Done)
}

/// Whether a row makes two rows of partition 0 leave, of which the first one has number 0.
fn two_leave(buffers: &mut SpillPartitions, row: SpillRow) -> bool {
    match put_into(buffers, row) {
        LocalEnd::Payload(0, payload) => {
            payload.rows.len() == 2 && payload.rows[0].place.row == 0
        }
        _ => false,
    }
}

/// Whether of two rows in a buffer of two the first stays, and both leave with the second.
fn leave_by_two(alloc: Global, buffers: &mut SpillPartitions) -> Result<bool, AllocError> {
    let stays = stays(buffers, row_of(alloc, 0)?);
    Ok(two_leave(buffers, row_of(alloc, 1)?) && stays)
}

#[test]
fn rows_that_overflow(rt: HostRuntime) -> Result<(), Fail> {
    let mut buffers = SpillPartitions::new(rt.alloc(), 1, 2)?;
    let leave = leave_by_two(rt.alloc(), &mut buffers);
    drop(buffers);
    hold(Ok(leave?))
}

#[test]
fn rows_that_wait(rt: HostRuntime) -> Result<(), Fail> {
    hold(waits(rt.alloc()))
}

#[test]
fn a_table_that_hides_takes_one_that_does_not(rt: HostRuntime) -> Result<(), Fail> {
    hold(Ok(are_hashed()))?;
    hold(answer(rt.alloc(), &HIDDEN_FIRST, Asked::Join))
}

#[test]
fn a_table_takes_one_that_hides(rt: HostRuntime) -> Result<(), Fail> {
    hold(answer(rt.alloc(), &HIDDEN_OTHER, Asked::Join))
}
