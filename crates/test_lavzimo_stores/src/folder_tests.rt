//! Stores in memory and in folders.

use crate::frames::{gets, keeps, keeps_none};
use lavzimo_stores::{OwnStores, SpillMaker};
use pipe_columns::Text;
use pipe_spill::SpillStore;
use std::alloc::Global;
use std::fs;
use std::test::Fail;

/// Whether a store that may go to another thread keeps frames, or none.
fn keeps_any<S: SpillStore + Send>(alloc: Global, store: &mut S, any: bool) -> bool {
    if any {
        keeps(alloc, store)
    } else {
        keeps_none(store)
    }
}

/// Whether a store of a maker of its own does.
fn made_keeps(rt: HostRuntime, dir: Option<&Text>, any: bool) -> Result<bool, Fail> {
    let mut maker = OwnStores::new(&rt, rt.alloc(), 7, 9, None);
    let mut store = maker.make(dir)?;
    Ok(keeps_any(rt.alloc(), &mut store, any))
}

/// Whether a folder takes no file.
fn takes_none(rt: HostRuntime, dir: &str) -> Result<bool, Fail> {
    let dir = Text::new(rt.alloc(), dir)?;
    made_keeps(rt, Some(&dir), false)
}

/// Whether two stores in one folder keep their own frames, and neither has a file there: the folder can
/// be removed while they are used.
fn keep_their_own<S: SpillStore, T: SpillStore>(
    rt: HostRuntime,
    dir: &str,
    store: &mut S,
    other: &mut T,
) -> Result<bool, Fail> {
    let kept = keeps(rt.alloc(), store) && keeps(rt.alloc(), other);
    fs::remove_dir(&rt, dir)?;
    Ok(
        kept && gets(rt.alloc(), store, 1, Ok(()), b"second")
            && gets(rt.alloc(), other, 0, Ok(()), b"one"),
    )
}

/// Whether a store and one of a maker of its own do so.
fn is_beside<S: SpillStore>(
    rt: HostRuntime,
    dir: &Text,
    store: &mut S,
    salt: u64,
) -> Result<bool, Fail> {
    let mut maker = OwnStores::new(&rt, rt.alloc(), 7, salt, None);
    let mut other = maker.make(Some(dir))?;
    keep_their_own(rt, dir.as_str(), store, &mut other)
}

/// Whether stores of two makers in a folder do so.
fn share(rt: HostRuntime, dir: &str, salts: (u64, u64)) -> Result<bool, Fail> {
    fs::create_dir(&rt, dir)?;
    let dir = Text::new(rt.alloc(), dir)?;
    let mut maker = OwnStores::new(&rt, rt.alloc(), 7, salts.0, None);
    let mut store = maker.make(Some(&dir))?;
    is_beside(rt, &dir, &mut store, salts.1)
}

/// In memory, and in a folder that two runs share.
#[test]
fn stores_keep_their_frames(rt: HostRuntime) -> Result<(), Fail> {
    assert!(rt;
        made_keeps(rt, None, true)? && share(rt, "shared", (1, 2))? && share(rt, "shared", (3, 3))?
    );
    Ok(())
}

/// Whether a name that is taken is refused, and what stands there is left alone.
fn leaves_alone(rt: HostRuntime, path: &str) -> Result<bool, Fail> {
    fs::write(&rt, path, "of another process")?;
    let refused = takes_none(rt, "taken")?;
    Ok(refused && fs::read_to_string(&rt, path)?.as_str() == "of another process")
}

#[test]
fn folders_that_take_no_file(rt: HostRuntime) -> Result<(), Fail> {
    fs::write(&rt, "file", "text")?;
    for dir in ["absent", "", "file", "/proc"] {
        assert!(rt; takes_none(rt, dir)?, "{dir}");
    }
    fs::create_dir(&rt, "taken")?;
    assert!(rt; leaves_alone(rt, "taken/partition-0.spill-7-9")?);
    Ok(())
}
