//! A store in memory, which fails at listed calls.

ghost use Rattle.std.specs.Prelude.{◌≡◌, ◌<◌, ◌+◌, ◌-◌, ◌^◌, ◌↔◌, ◌==◌, ◌∷◌, ◌++◌, [], length, IfOk, OnOk, OnErr, IsErrOf, IsTrue};
ghost use Rattle.pipe_columns.specs.Calls.{after_call, is_listed, no_calls};
ghost use Rattle.pipe_columns.specs.Causes.{HasCause};
ghost use Rattle.pipe_spill.specs.MemoryStore.{faults_of, held_of, is_sure, told_of};
ghost use Rattle.pipe_spill.specs.Store.{contents, IsFrameAt, with_frame};
ghost use Rattle.pipe_spill.specs.declared.store.StoreError.TheVariants as store_error;

use crate::store::{SpillStore, StoreError};
use pipe_columns::FailingCalls;
use std::alloc::{AllocError, Global};
use std::marker::Model;

/// Frames in memory. Contracts see its frames and its calls.
#[derive(Debug, Drop)]
pub struct MemoryStore {
    alloc: Global,
    frames: Vec<Vec<u8>>,
    calls: FailingCalls,
}

impl Model for MemoryStore {
    ghost use Rattle.pipe_spill.specs.MemoryStore.{MemoryFrames};
    ghost use Rattle.pipe_spill.specs.Store.{contents};

    ghost Value = { MemoryFrames };

    ghost view = { λ s. record { frames = contents s.frames.items; calls = s.calls } };
}

impl MemoryStore {
    /// The calls of `put` and `get` are numbered together from 0, and those listed fail.
    pub fn new(alloc: Global, failing: Vec<u64>) -> MemoryStore
        ensures empty { result.frames ≡ [] }
        ensures calls { result.calls ≡ no_calls failing.items }
        ensures sure { is_sure result ≡ (length failing.items == 0) }
    {
        MemoryStore {
            alloc,
            frames: Vec::new(alloc),
            calls: FailingCalls::new(failing),
        }
    }

    /// The frames in the order of their puts.
    pub fn frames(&self) -> &[Vec<u8>]
        ensures { contents result.now ≡ self.now.frames }
    {
        &self.frames
    }
}

impl SpillStore for MemoryStore {
    ghost use Rattle.std.specs.Prelude.{refl, None};
    ghost use Rattle.pipe_spill.specs.MemoryStore.{sure_never_failed};

    ghost told = { told_of };

    ghost held = { held_of };

    ghost faults = { faults_of };

    ghost sure = { is_sure };

    ghost path = { λ s. None };

    ghost tells_all = { λ s. refl };

    ghost never_failed = { sure_never_failed };

    fn held(&self) -> u64
        ensures { result ≡ held_of self.now }
    {
        self.frames.len() as u64
    }

    fn put(&mut self, frame: &[u8]) -> Result<u64, StoreError>
        requires room { held_of self.old < 2 ^ 64 - 1 }
        ensures number { IfOk result (λ n. n ≡ held_of self.old) }
        ensures held { OnOk result (held_of self.new ≡ held_of self.old + 1) }
        ensures told { OnOk result (told_of self.new ≡ with_frame (told_of self.old) frame.now) }
        ensures refused { OnErr result (told_of self.new ≡ told_of self.old) }
        ensures refused_held { OnErr result (held_of self.new ≡ held_of self.old) }
        ensures sure { is_sure self.new ≡ is_sure self.old }
        ensures cause { HasCause (faults_of self.old) (faults_of self.new)
            (IsErrOf result store_error.Failed) }
        ensures calm { (IsErrOf result store_error.Failed → ⊥)
            → faults_of self.new ≡ faults_of self.old }
        ensures fails_exactly { IsErrOf result store_error.Failed
            ↔ IsTrue (is_listed self.old.calls) }
        ensures calls { self.new.calls ≡ after_call self.old.calls }
    {
        if self.calls.count() {
            return Err(StoreError::Failed);
        }
        let number = self.frames.len() as u64;
        match push_copy(self.alloc, &mut self.frames, frame) {
            Ok(()) => Ok(number),
            Err(_) => Err(StoreError::Memory),
        }
    }

    fn get(&mut self, number: u64, into: &mut Vec<u8>) -> Result<(), StoreError>
        requires held { number < held_of self.old }
        ensures frame { OnOk result (IsFrameAt (told_of self.old) number into.new.items) }
        ensures refused { OnErr result (into.new.items ≡ []) }
        ensures told { told_of self.new ≡ told_of self.old }
        ensures held { held_of self.new ≡ held_of self.old }
        ensures sure { is_sure self.new ≡ is_sure self.old }
        ensures cause { HasCause (faults_of self.old) (faults_of self.new)
            (IsErrOf result store_error.Failed) }
        ensures calm { (IsErrOf result store_error.Failed → ⊥)
            → faults_of self.new ≡ faults_of self.old }
        ensures fails_exactly { IsErrOf result store_error.Failed
            ↔ IsTrue (is_listed self.old.calls) }
        ensures calls { self.new.calls ≡ after_call self.old.calls }
    {
        into.clear();
        if self.calls.count() {
            return Err(StoreError::Failed);
        }
        match into.extend_from_slice(&self.frames[number as usize]) {
            Ok(()) => Ok(()),
            Err(_) => Err(StoreError::Memory),
        }
    }
}

/// Appends a copy of a frame.
fn push_copy(alloc: Global, frames: &mut Vec<Vec<u8>>, frame: &[u8]) -> Result<(), AllocError>
    ensures ok { OnOk result (contents frames.new.items
        ≡ contents frames.old.items ++ (frame.now ∷ [])) }
    ensures refused { OnErr result (frames.new.items ≡ frames.old.items) }
{
    frames.push(Vec::from_slice(alloc, frame)?)?;
    Ok(())
}
