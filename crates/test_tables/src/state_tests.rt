//! What the first looks at memory answer, and parts of slices.

use crate::asked::hold;
use pipe_sinks::{compute_slices, default_slices};
use pipe_tables::{OocState, SpillAction};
use std::alloc::{AllocError, Global};
use std::test::Fail;

/// The first answer where 100 were free at the start.
fn first_answer(free: u64, waiting: bool) -> SpillAction {
    let mut state = OocState::new();
    state.check_memory_usage(free, 100, waiting)
}

/// Whether it goes by what is free, and by whether something waits.
fn goes_by_what_is_free() -> bool {
    first_answer(29, true) == SpillAction::Dump
        && first_answer(29, false) == SpillAction::None
        && first_answer(30, true) == SpillAction::EarlyMerge
        && first_answer(50, true) == SpillAction::None
}

/// Whether rows are dumped again where much is free.
fn dumps_again() -> bool {
    let mut state = OocState::new();
    state.check_memory_usage(29, 100, true) == SpillAction::Dump
        && state.check_memory_usage(100, 100, false) == SpillAction::Dump
}

/// Whether the 512th look merges, and none before it.
fn merges_at_512() -> bool {
    let mut state = OocState::new();
    for _ in 0..511 {
        if state.check_memory_usage(100, 100, true) != SpillAction::None {
            return false;
        }
    }
    state.check_memory_usage(100, 100, true) == SpillAction::EarlyMerge
}

#[test]
fn looks_at_memory(_rt: HostRuntime) -> Result<(), Fail> {
    hold(Ok(goes_by_what_is_free() && dumps_again() && merges_at_512()))
}

/// Whether a slice over partitions goes on from one to the next, and the parts of none are whole.
fn are_parts(alloc: Global) -> Result<bool, AllocError> {
    let parts = compute_slices(alloc, &[5, 6], Some((3, 4)))?;
    let whole = default_slices(alloc, &[5, 0])?;
    Ok(
        parts.as_slice() == [Some((3, 2)), Some((0, 2))].as_slice()
            && whole.as_slice() == [Some((0, 5)), Some((0, 0))].as_slice(),
    )
}

#[test]
fn parts_of_slices(rt: HostRuntime) -> Result<(), Fail> {
    hold(Ok(are_parts(rt.alloc())?))
}
