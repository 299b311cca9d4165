//! Runs in threads, over gates that see where the workers are.

use crate::asked::{Pair, chunks_of, hold, sum_query};
use crate::runs::{End, limits_of, run};
use pipe_aggs::Query;
use pipe_global::Gate;
use pipe_plan::{SinkKind, SpillAction};
use std::alloc::Global;
use std::sync::Wait;
use std::sync::atomic::{AtomicU64, Ordering};
use std::test::Fail;
use std::thread::{self, Threads};

/// In how many turns of its wait a worker finds the other, at most.
const MOST_TURNS: u64 = 100_000_000;

/// A gate in which a worker of two waits until the other stands inside a partition too.
#[derive(Drop)]
struct MeetingGate {
    first: AtomicU64,
    second: AtomicU64,
    missed: AtomicU64,
}

impl Gate for MeetingGate {
    fn inside(&self, worker: usize, _partition: usize) {
        let (own, other) = if worker == 0 {
            (&self.first, &self.second)
        } else {
            (&self.second, &self.first)
        };
        own.store(1, Ordering::SeqCst);
        for _turn in 0..MOST_TURNS {
            if other.load(Ordering::SeqCst) == 1 {
                return;
            }
            thread::yield_now();
        }
        self.missed.store(1, Ordering::SeqCst);
    }
}

/// Whether two workers with a chunk each meet in a gate, and the run is answered.
fn meet<H: Threads + Wait + Sync>(rt: &H, alloc: Global, query: &Query) -> Result<bool, Fail> {
    let gate = MeetingGate {
        first: AtomicU64::new(0),
        second: AtomicU64::new(0),
        missed: AtomicU64::new(0),
    };
    let limits = limits_of(SinkKind::Generic, 2, 2, 1);
    let chunks = chunks_of(alloc, &[&[(1, 5), (3, 6)], &[(1, 7), (4, 8)]])?;
    let end = run(rt, alloc, query, &limits, &[], chunks, &gate)?;
    Ok(end.0.is_ok() && gate.missed.load(Ordering::SeqCst) == 0)
}

#[test]
fn two_inside(rt: HostRuntime) -> Result<(), Fail> {
    let query = sum_query(rt.alloc())?;
    let met = meet(&rt, rt.alloc(), &query);
    drop(query);
    hold(met)
}

/// A gate that counts its calls.
#[derive(Drop)]
struct CountingGate {
    calls: AtomicU64,
}

impl Gate for CountingGate {
    fn inside(&self, _worker: usize, _partition: usize) {
        self.calls.fetch_add(1, Ordering::SeqCst);
    }
}

/// How many events the journals of a run hold, none where it was refused.
fn count_events(end: &End) -> u64 {
    let mut events: u64 = 0;
    if let Ok(output) = &end.0 {
        for journal in output.journals.journals() {
            events = events.wrapping_add(journal.events().len() as u64);
        }
    }
    events
}

/// The keys 0 to 15.
const ROWS: [Pair; 16] = [
    (0, 1),
    (1, 1),
    (2, 1),
    (3, 1),
    (4, 1),
    (5, 1),
    (6, 1),
    (7, 1),
    (8, 1),
    (9, 1),
    (10, 1),
    (11, 1),
    (12, 1),
    (13, 1),
    (14, 1),
    (15, 1),
];

/// Whether a gate is called once in each event of four threads over sixteen partitions.
fn is_called_in_each_event<H: Threads + Wait + Sync>(
    rt: &H,
    alloc: Global,
    query: &Query,
) -> Result<bool, Fail> {
    let gate = CountingGate {
        calls: AtomicU64::new(0),
    };
    let limits = limits_of(SinkKind::Generic, 4, 16, 1);
    let actions = [SpillAction::EarlyMerge, SpillAction::Dump];
    let chunks = chunks_of(alloc, &[ROWS.as_slice(); 32])?;
    let end = run(rt, alloc, query, &limits, &actions, chunks, &gate)?;
    Ok(count_events(&end) == 488 && gate.calls.load(Ordering::SeqCst) == 488)
}

#[test]
fn a_gate_is_called_once_in_each_event(rt: HostRuntime) -> Result<(), Fail> {
    let query = sum_query(rt.alloc())?;
    let is = is_called_in_each_event(&rt, rt.alloc(), &query);
    drop(query);
    hold(is)
}
