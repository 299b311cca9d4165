//! Stores that fail, and a store that gives no byte back.

use crate::folder_stores::{FolderStores, MadeStore};
use crate::hold::hold;
use crate::runs::{NOTHING, Run, holds, holds_in_memory};
use pipe_global::OpenGate;
use pipe_spill::{MemoryStore, SpillStore, StoreError};
use std::alloc::{AllocError, Global};
use std::sync::Wait;
use std::test::Fail;
use std::thread::Threads;

/// A run that spills two of its three rows to a folder, in one frame.
const SPILLED: Run<'static> = Run {
    words: &[
        "--spill-size",
        "0",
        "--buffer",
        "1",
        "--payloads",
        "0",
        "--actions",
        "d",
        "--spill-dir",
        "x",
        r#"{"schema":[["k","Int64"],["v","Int64"]],"keys":["k"],"aggs":[{"alias":[{"sum":"v"},"s"]}]}"#,
    ],
    files: &[("-", "k,v\n1,5\n2,6\n2,7\n")],
    output: b"k,s\n1,5\n2,13\n",
    frames: Some(1),
    ..NOTHING
};

/// The same where the store has failed.
const FAILED: Run<'static> = Run {
    status: 8,
    output: b"",
    line: b"store 0 failed\n",
    ..SPILLED
};

/// A store that doesn't tell, and gives no byte back.
#[derive(Drop)]
struct Loose {
    frames: u64,
}

impl SpillStore for Loose {
    ghost use Rattle.std.specs.Prelude.{None, false, refl};

    ghost told = { λ _. None };

    ghost held = { λ s. s.frames };

    ghost faults = { λ _. 0 };

    ghost sure = { λ _. false };

    ghost path = { λ _. None };

    ghost tells_all = { λ _. tt };

    ghost never_failed = { λ _ _. refl };

    fn held(&self) -> u64 {
        self.frames
    }

    fn put(&mut self, _frame: &[u8]) -> Result<u64, StoreError> {
        let number = self.frames;
        self.frames += 1;
        Ok(number)
    }

    fn get(&mut self, _number: u64, into: &mut Vec<u8>) -> Result<(), StoreError> {
        into.clear();
        Ok(())
    }
}

impl MadeStore for Loose {
    fn made(_alloc: Global, _failing: &[u64]) -> Result<Loose, AllocError> {
        Ok(Loose { frames: 0 })
    }
}

/// Whether a run over such stores of a folder, of which listed calls fail, comes to what is due.
fn holds_over<S: MadeStore, H: Alloc<A = Global> + Threads + Wait + Sync>(
    rt: &H,
    run: &Run<'_>,
    mut maker: FolderStores<S>,
) -> Result<bool, AllocError> {
    holds(rt, run, &mut maker, &OpenGate)
}

/// Whether a run over a store in memory of which listed calls fail does.
fn holds_where<H: Alloc<A = Global> + Threads + Wait + Sync>(
    rt: &H,
    run: &Run<'_>,
    failing: &'static [u64],
) -> Result<bool, AllocError> {
    let maker: FolderStores<MemoryStore> = FolderStores::new(rt.alloc(), failing);
    holds_over(rt, run, maker)
}

/// What comes where the first call fails.
const UNPUT: Run<'static> = Run {
    frames: Some(0),
    ..FAILED
};

/// What comes where the store can't be made.
const UNMADE: Run<'static> = Run {
    status: 10,
    line: b"out of memory\n",
    frames: None,
    ..FAILED
};

/// Whether runs do whose store never fails, whose first or second call fails, and that can't be made.
fn do_all_hold<H: Alloc<A = Global> + Threads + Wait + Sync>(rt: &H) -> Result<bool, AllocError> {
    Ok(
        holds_where(rt, &SPILLED, &[])?
            && holds_where(rt, &UNPUT, &[0])?
            && holds_where(rt, &FAILED, &[1])?
            && holds_in_memory(rt, &UNMADE, &OpenGate)?,
    )
}

#[test]
fn stores_of_a_folder(rt: HostRuntime) -> Result<(), Fail> {
    hold(do_all_hold(&rt))
}

/// What comes where the store gives no byte of its frame back.
const DAMAGED: Run<'static> = Run {
    status: 9,
    line: b"store 0 frame 0 damaged\n",
    ..FAILED
};

#[test]
fn no_byte_back(rt: HostRuntime) -> Result<(), Fail> {
    let maker: FolderStores<Loose> = FolderStores::new(rt.alloc(), &[]);
    hold(holds_over(&rt, &DAMAGED, maker))
}
