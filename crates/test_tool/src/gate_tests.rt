//! A gate in which two workers meet.

use crate::hold::hold;
use crate::runs::{NOTHING, Run, SUM_AND_COUNT, holds_in_memory};
use pipe_global::Gate;
use std::alloc::{AllocError, Global};
use std::sync::Wait;
use std::sync::atomic::{AtomicU64, Ordering};
use std::test::Fail;
use std::thread::{self, Threads};

/// In how many turns of its wait a worker finds the other, at most.
const MOST_TURNS: u64 = 100_000_000;

/// A gate in which a worker of two waits until the other stands inside a partition too.
#[derive(Drop)]
struct MeetingGate {
    first: AtomicU64,
    second: AtomicU64,
    missed: AtomicU64,
}

impl Gate for MeetingGate {
    fn inside(&self, worker: usize, _partition: usize) {
        let (own, other) = if worker == 0 {
            (&self.first, &self.second)
        } else {
            (&self.second, &self.first)
        };
        own.store(1, Ordering::SeqCst);
        for _turn in 0..MOST_TURNS {
            if other.load(Ordering::SeqCst) == 1 {
                return;
            }
            thread::yield_now();
        }
        self.missed.store(1, Ordering::SeqCst);
    }
}

/// Rows of four keys, in two partitions, of which two workers feed two rows each.
const RUN: Run<'static> = Run {
    words: &[
        "--workers",
        "2",
        "--partitions",
        "2",
        "--spill-size",
        "0",
        "--buffer",
        "1",
        "--chunk",
        "2",
        SUM_AND_COUNT,
    ],
    files: &[("-", "k,v\n1,5\n3,6\n1,7\n4,8\n")],
    output: b"k,s,c\n1,12,2\n3,6,1\n4,8,1\n",
    ..NOTHING
};

/// Whether each of two workers stands inside a partition while the other one does.
fn do_two_meet<H: Alloc<A = Global> + Threads + Wait + Sync>(rt: &H) -> Result<bool, AllocError> {
    let gate = MeetingGate {
        first: AtomicU64::new(0),
        second: AtomicU64::new(0),
        missed: AtomicU64::new(0),
    };
    Ok(holds_in_memory(rt, &RUN, &gate)? && gate.missed.load(Ordering::SeqCst) == 0)
}

#[test]
fn two_inside(rt: HostRuntime) -> Result<(), Fail> {
    hold(do_two_meet(&rt))
}
