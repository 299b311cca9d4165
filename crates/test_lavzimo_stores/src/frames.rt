//! What stores answer to two puts and to the gets of what they hold.

use pipe_spill::{SpillStore, StoreError};
use std::alloc::Global;

/// Whether a put is answered so.
pub(crate) fn puts<S: SpillStore>(
    store: &mut S,
    frame: &[u8],
    want: Result<u64, StoreError>,
) -> bool {
    store.held() != u64::MAX && store.put(frame) == want
}

/// Whether a get is answered so, and leaves these bytes.
pub(crate) fn gets<S: SpillStore>(
    alloc: Global,
    store: &mut S,
    number: u64,
    want: Result<(), StoreError>,
    left: &[u8],
) -> bool {
    if number >= store.held() {
        return false;
    }
    let Ok(mut into) = Vec::from_slice(alloc, b"before") else {
        return false;
    };
    let answer = store.get(number, &mut into);
    answer == want && into.as_slice() == left
}

/// Whether a store puts two frames.
pub(crate) fn puts_both<S: SpillStore>(store: &mut S) -> bool {
    puts(store, b"one", Ok(0)) && puts(store, b"second", Ok(1))
}

/// Whether a store keeps two frames.
pub(crate) fn keeps<S: SpillStore>(alloc: Global, store: &mut S) -> bool {
    puts_both(store)
        && gets(alloc, store, 0, Ok(()), b"one")
        && gets(alloc, store, 1, Ok(()), b"second")
}

/// Whether each put fails, and no frame is kept.
pub(crate) fn keeps_none<S: SpillStore>(store: &mut S) -> bool {
    puts(store, b"one", Err(StoreError::Failed))
        && puts(store, b"second", Err(StoreError::Failed))
        && store.held() == 0
}
