//! Calls that want memory: `rt try --test --fail-alloc N` refuses the allocation of number N.

use crate::frames::puts;
use lavzimo_stores::{OwnStores, SpillMaker};
use pipe_columns::Text;
use pipe_spill::StoreError;
use std::fs;
use std::test::Fail;

#[test]
fn memory_for_a_store(rt: HostRuntime) -> Result<(), Fail> {
    fs::create_dir(&rt, "memory")?;
    let dir = Text::new(rt.alloc(), "memory")?;
    let mut maker = OwnStores::new(&rt, rt.alloc(), 7, 9, None);
    let Ok(mut store) = maker.make(Some(&dir)) else {
        return Err("make wants memory".into());
    };
    if puts(&mut store, b"frame", Err(StoreError::Memory)) {
        return Err("put wants memory".into());
    }
    fs::remove_dir(&rt, "memory")?;
    Ok(())
}
