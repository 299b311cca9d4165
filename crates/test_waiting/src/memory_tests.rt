//! Calls that want memory: `rt try --test --fail-alloc N` refuses the allocation of number N. That
//! refused rows are as if they had not been put behind is said by the clauses.

use crate::chunk_rows::wait_as_bytes;
use crate::kept_rows::{TWO_ROWS, two_rows};
use crate::mixed_rows::are_owned;
use crate::store_frames::gives_mixed;
use pipe_spill::FrameError;
use pipe_waiting::WaitingRows;
use std::alloc::{AllocError, Global};
use std::test::Fail;

/// Whether rows are given back as the frame of both, and lent.
fn are_both(alloc: Global, waiting: &WaitingRows) -> Result<bool, Fail> {
    match waiting.frame(alloc) {
        Ok(frame) => Ok(frame.as_slice() == TWO_ROWS.as_slice() && waiting.lend().len() == 2),
        Err(AllocError) => Err("frame wants memory".into()),
    }
}

#[test]
fn memory_for_rows_and_their_frame(rt: HostRuntime) -> Result<(), Fail> {
    let mut waiting = two_rows(rt.alloc())?;
    if waiting.shrink().is_err() {
        return Err("shrink wants memory".into());
    }
    assert!(rt; are_both(rt.alloc(), &waiting)?);
    Ok(())
}

#[test]
fn memory_for_rows_of_a_chunk(rt: HostRuntime) -> Result<(), Fail> {
    let mut waiting = WaitingRows::new(rt.alloc());
    assert!(rt; wait_as_bytes(rt.alloc(), &mut waiting)?);
    Ok(())
}

/// What is so of frames, and whether memory is wanted.
fn judged(good: Result<bool, FrameError>) -> Result<bool, Fail> {
    match good {
        Ok(good) => Ok(good),
        Err(FrameError::Memory) => Err("a call wants memory".into()),
        Err(FrameError::NotAFrame) => Err("not a frame".into()),
    }
}

#[test]
fn memory_for_rows_of_a_store(rt: HostRuntime) -> Result<(), Fail> {
    let mut values = Vec::new(rt.alloc());
    assert!(rt; judged(gives_mixed(rt.alloc(), &mut values))?);
    Ok(())
}

#[test]
fn memory_for_rows_of_their_own(rt: HostRuntime) -> Result<(), Fail> {
    assert!(rt; judged(are_owned(rt.alloc()))?);
    Ok(())
}
