//! A store whose one frame comes back changed.

ghost use Rattle.std.specs.Prelude.{◌≡◌};

use pipe_spill::{SpillStore, StoreError};
use std::alloc::Global;

/// What is changed: the lowest bit of a byte, or the frame's length; or no byte comes back.
#[derive(Clone, Copy)]
pub(crate) enum Change {
    Bit(usize),
    LastByteCut,
    OneByteMore,
    NoByte,
}

/// A store that doesn't tell. It gives its last frame changed.
#[derive(Drop)]
pub(crate) struct ChangedStore {
    alloc: Global,
    bytes: Vec<u8>,
    frames: u64,
    change: Change,
}

impl ChangedStore {
    pub(crate) fn new(alloc: Global, change: Change) -> ChangedStore
        ensures { result.frames ≡ 0 }
    {
        ChangedStore {
            alloc,
            bytes: Vec::new(alloc),
            frames: 0,
            change,
        }
    }
}

/// Changes the bytes of a frame. The error is want of memory.
fn changed(bytes: &mut Vec<u8>, change: Change) -> Result<(), StoreError> {
    match change {
        Change::Bit(at) => {
            if let Some(byte) = bytes.get_mut(at) {
                *byte ^= 1;
            }
        }
        Change::LastByteCut => {
            let _ = bytes.pop();
        }
        Change::NoByte => bytes.clear(),
        Change::OneByteMore => {
            if bytes.push(0).is_err() {
                return Err(StoreError::Memory);
            }
        }
    }
    Ok(())
}

impl SpillStore for ChangedStore {
    ghost use Rattle.std.specs.Prelude.{None, false, refl};

    ghost told = { λ _. None };

    ghost held = { λ s. s.frames };

    ghost faults = { λ _. 0 };

    ghost sure = { λ _. false };

    ghost path = { λ _. None };

    ghost tells_all = { λ _. tt };

    ghost never_failed = { λ _ _. refl };

    fn held(&self) -> u64 {
        self.frames
    }

    fn put(&mut self, frame: &[u8]) -> Result<u64, StoreError> {
        let Ok(bytes) = Vec::from_slice(self.alloc, frame) else {
            return Err(StoreError::Memory);
        };
        let number = self.frames;
        self.bytes = bytes;
        self.frames += 1;
        Ok(number)
    }

    fn get(&mut self, _number: u64, into: &mut Vec<u8>) -> Result<(), StoreError> {
        into.clear();
        if into.extend_from_slice(&self.bytes).is_err() {
            return Err(StoreError::Memory);
        }
        if changed(into, self.change).is_err() {
            into.clear();
            return Err(StoreError::Memory);
        }
        Ok(())
    }
}
