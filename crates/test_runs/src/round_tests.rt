//! Runs that are fed in rounds: one key is held, and each further row goes to a buffer.

ghost use Rattle.std.specs.Prelude.{◌≡◌, IfOk};

use crate::asked::{Pair, chunk_of, chunks_of, hold, sum_query};
use crate::runs::{actions_of, limits_of, stores_of};
use pipe_aggs::Query;
use pipe_columns::DataType;
use pipe_global::OpenGate;
use pipe_group_by::{GroupByRun, PipeError};
use pipe_plan::{PartitionEvent, SinkKind, SpillAction};
use pipe_spill::MemoryStore;
use std::alloc::Global;
use std::sync::Wait;
use std::test::Fail;
use std::thread::Threads;

/// The rows 0 1 and 1 0 of key 2, with the inputs 6 and 7.
const FRAME: [u8; 76] = [
    0, 0, 0, 0, 0, 0, 0, 2, 0, 0, 0, 0, 0, 0, 0, 1, 0, 0, 0, 0, 0, 0, 0, 9, 1, 128, 0, 0, 0, 0, 0,
    0, 2, 1, 128, 0, 0, 0, 0, 0, 0, 6, 0, 0, 0, 1, 0, 0, 0, 0, 0, 0, 0, 0, 0, 0, 0, 9, 1, 128, 0,
    0, 0, 0, 0, 0, 2, 1, 128, 0, 0, 0, 0, 0, 0, 7,
];

/// What partition 0 goes through: the first turn finds nothing to dump, the second the two rows.
const EVENTS: [PartitionEvent; 3] = [
    PartitionEvent::Dump { worker: 0 },
    PartitionEvent::Arrive { worker: 0 },
    PartitionEvent::Dump { worker: 0 },
];

/// A run of one worker and one partition before its first chunk.
fn begun<'a, H: Wait>(
    rt: &H,
    alloc: Global,
    query: &'a Query,
    buffer_size: usize,
) -> Result<GroupByRun<'a, MemoryStore>, Fail>
    ensures { IfOk result (λ r. r.setting.limits.partitions ≡ 1) }
{
    let limits = limits_of(SinkKind::Generic, 1, 1, buffer_size);
    let actions = actions_of(alloc, 1, &[SpillAction::Dump, SpillAction::Dump])?;
    let stores = stores_of(alloc, 1)?;
    match GroupByRun::begin(rt, alloc, query, &limits, actions, stores) {
        Ok(run) => Ok(run),
        Err(_) => Err("GroupByRun::begin wants memory".into()),
    }
}

/// The run with one chunk more.
fn fed<'a, H: Threads + Wait + Sync>(
    rt: &H,
    alloc: Global,
    run: GroupByRun<'a, MemoryStore>,
    rows: &[Pair],
) -> Result<GroupByRun<'a, MemoryStore>, Fail>
    ensures { IfOk result (λ r. r.setting ≡ run.entry.setting) }
{
    let chunks = chunks_of(alloc, &[rows])?;
    match run.feed(rt, alloc, &OpenGate, chunks) {
        Ok(run) => Ok(run),
        Err(_) => Err("GroupByRun::feed wants memory".into()),
    }
}

/// Whether there is one store, with the frame alone.
fn have_frame(stores: &[MemoryStore]) -> bool {
    if stores.len() != 1 {
        return false;
    }
    let frames = stores[0].frames();
    frames.len() == 1 && frames[0].as_slice() == FRAME.as_slice()
}

/// Whether a run has gone through the events, and leaves the frame where it is given up.
fn leaves_frame(run: GroupByRun<'_, MemoryStore>) -> bool
    requires { run.setting.limits.partitions ≡ 1 }
{
    let gone = run.journal(0).events() == EVENTS.as_slice();
    let stores = run.into_stores();
    gone && have_frame(&stores)
}

/// Whether two rounds do so.
fn two_rounds<H: Threads + Wait + Sync>(
    rt: &H,
    alloc: Global,
    query: &Query,
) -> Result<bool, Fail> {
    let run = begun(rt, alloc, query, 2)?;
    let run = fed(rt, alloc, run, &[(1, 5), (2, 6)])?;
    let run = fed(rt, alloc, run, &[(2, 7)])?;
    Ok(leaves_frame(run))
}

#[test]
fn a_run_given_up_behind_two_rounds_leaves_its_frame(rt: HostRuntime) -> Result<(), Fail> {
    let query = sum_query(rt.alloc())?;
    let leaves = two_rounds(&rt, rt.alloc(), &query);
    drop(query);
    hold(leaves)
}

/// Whether a chunk was refused as the second of a run, and one store has one frame of so many bytes.
fn is_second(refusal: &(PipeError, Vec<MemoryStore>), length: usize) -> bool {
    let [store] = refusal.1.as_slice() else {
        return false;
    };
    let frames = store.frames();
    refusal.0 == (PipeError::Schema { chunk: 1 }) && frames.len() == 1 && frames[0].len() == length
}

/// Whether a run of one chunk refuses one of another type, and leaves the frame of the first.
fn refuses_another<H: Threads + Wait + Sync>(
    rt: &H,
    alloc: Global,
    run: GroupByRun<'_, MemoryStore>,
) -> Result<bool, Fail> {
    let mut chunks = Vec::new(alloc);
    chunks.push(chunk_of(alloc, DataType::Int32, &[(2, 7)])?)?;
    match run.feed(rt, alloc, &OpenGate, chunks) {
        Ok(_) => Ok(false),
        Err(refusal) => Ok(is_second(&refusal, 42)),
    }
}

/// Whether the second round does so.
fn misfit_in_a_round<H: Threads + Wait + Sync>(
    rt: &H,
    alloc: Global,
    query: &Query,
) -> Result<bool, Fail> {
    let run = begun(rt, alloc, query, 1)?;
    let run = fed(rt, alloc, run, &[(1, 5), (2, 6)])?;
    refuses_another(rt, alloc, run)
}

#[test]
fn a_later_chunk_that_does_not_fit_leaves_the_frames(rt: HostRuntime) -> Result<(), Fail> {
    let query = sum_query(rt.alloc())?;
    let leaves = misfit_in_a_round(&rt, rt.alloc(), &query);
    drop(query);
    hold(leaves)
}
