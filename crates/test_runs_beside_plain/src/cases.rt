//! The rows of the table of runs, each by its number.

use pipe_plan::{Limits, SinkKind, SpillAction};
use std::alloc::{AllocError, Global};

/// Numbers of workers.
const WORKERS: [usize; 5] = [1, 2, 3, 4, 5];

/// Numbers of partitions.
const PARTITIONS: [usize; 3] = [1, 2, 7];

/// Sizes from which on keys overflow.
const SPILL_SIZES: [usize; 4] = [0, 1, 3, 18446744073709551615];

/// Sizes of buffers.
const BUFFERS: [usize; 3] = [1, 2, 5];

/// Limits of payloads.
const PAYLOADS: [usize; 3] = [0, 1, 9];

/// What follows each turn of a worker, in its three forms.
const ACTIONS: [[SpillAction; 3]; 3] = [
    [SpillAction::None, SpillAction::None, SpillAction::None],
    [SpillAction::Dump, SpillAction::Dump, SpillAction::Dump],
    [
        SpillAction::EarlyMerge,
        SpillAction::Dump,
        SpillAction::None,
    ],
];

/// How many rows the table has.
pub(crate) const COUNT: usize = 1620;

/// The limits of a row.
pub(crate) fn limits_of(number: usize, sink: SinkKind) -> Limits {
    Limits {
        sink,
        workers: WORKERS[number % 5],
        partitions: PARTITIONS[number / 5 % 3],
        spill_size: SPILL_SIZES[number / 15 % 4],
        buffer_size: BUFFERS[number / 60 % 3],
        payload_limit: PAYLOADS[number / 180 % 3],
    }
}

/// The actions of a row: each worker has the same.
pub(crate) fn actions_of(
    alloc: Global,
    number: usize,
    workers: usize,
) -> Result<Vec<Vec<SpillAction>>, AllocError> {
    let actions = &ACTIONS[number / 540 % 3];
    let mut lists = Vec::new(alloc);
    for _worker in 0..workers {
        lists.push(Vec::from_slice(alloc, actions)?)?;
    }
    Ok(lists)
}
