//! A log in a file, as a store.

use pipe_columns::Text;
use pipe_spill::{SpillStore, StoreError};
use std::alloc::Global;
use std::fs::{self, File, Files};
use std::test::Fail;
use summary_log::{KeptFile, read_log};

/// The file that the log lies in.
const LOG: &str = "frames.log";

/// The log in the file, open.
fn open_log<R: Files<File = File>>(rt: &R, alloc: Global) -> Result<KeptFile, StoreError> {
    match Text::new(alloc, LOG) {
        Ok(path) => KeptFile::open(rt, alloc, &path),
        Err(_) => Err(StoreError::Memory),
    }
}

/// Puts a frame into the log in the file.
fn put_frame<R: Files<File = File>>(
    rt: &R,
    alloc: Global,
    frame: &[u8],
) -> Result<u64, StoreError> {
    let mut store = open_log(rt, alloc)?;
    if store.held() > 8 {
        return Err(StoreError::Failed);
    }
    store.put(frame)
}

/// Whether the frame of a number is these bytes.
fn is_frame<R: Files<File = File>>(
    rt: &R,
    alloc: Global,
    number: u64,
    frame: &[u8],
) -> Result<bool, StoreError> {
    let mut store = open_log(rt, alloc)?;
    let mut bytes = Vec::new(alloc);
    if number >= store.held() {
        return Ok(false);
    }
    store.get(number, &mut bytes)?;
    Ok(bytes.as_slice() == frame)
}

/// Whether three frames get numbers in turn.
fn are_put<R: Files<File = File>>(rt: &R, alloc: Global) -> Result<bool, StoreError> {
    Ok(
        put_frame(rt, alloc, b"first")? == 0
            && put_frame(rt, alloc, b"")? == 1
            && put_frame(rt, alloc, b"third")? == 2,
    )
}

/// Whether they are kept.
fn are_kept<R: Files<File = File>>(rt: &R, alloc: Global) -> Result<bool, StoreError> {
    Ok(
        is_frame(rt, alloc, 0, b"first")?
            && is_frame(rt, alloc, 1, b"")?
            && is_frame(rt, alloc, 2, b"third")?,
    )
}

/// What is put into a log in a file is there when it is opened again, an empty frame too.
#[test]
fn frames_are_kept(rt: HostRuntime) -> Result<(), Fail> {
    assert!(rt; are_put(&rt, rt.alloc())? && are_kept(&rt, rt.alloc())?);
    Ok(())
}

/// A log that is open in one store can't be opened in another.
#[test]
fn one_store_alone(rt: HostRuntime) -> Result<(), Fail> {
    let first = open_log(&rt, rt.alloc());
    let second = open_log(&rt, rt.alloc()).err();
    let opened = first.is_ok();
    drop(first);
    if opened && second == Some(StoreError::Failed) {
        Ok(())
    } else {
        Err("both are open".into())
    }
}

/// The bytes of a log, and of one whose last entry is cut short.
#[test]
fn logs_are_read(rt: HostRuntime) -> Result<(), Fail> {
    let log = b"\0\0\0\0\0\0\0\x02ab\0\0\0\0\0\0\0\x01c\0\0\0\0\0\0\0\x03de";
    let parts = read_log(rt.alloc(), log)?;
    let frames = parts.frames.as_slice();
    if parts.length == 19 && frames.len() == 2 && frames[1].as_slice() == b"c".as_slice() {
        Ok(())
    } else {
        Err("other frames".into())
    }
}
