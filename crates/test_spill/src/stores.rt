//! What stores answer to two puts and the gets of what they hold, in memory and in files.

ghost use Rattle.std.specs.Prelude.{◌≡◌, IfOk};
ghost use Rattle.pipe_spill.specs.FileStore.{held_of};

use crate::hold::hold;
use pipe_columns::Text;
use pipe_spill::{FileStore, MemoryStore, SpillStore};
use std::alloc::{AllocError, Global};
use std::fs;
use std::test::Fail;

/// Writes the answer to a put, as a line.
pub(crate) fn write_put<S: SpillStore>(
    lines: &mut String,
    store: &mut S,
    frame: &str,
) -> Result<(), AllocError> {
    if store.held() == u64::MAX {
        return Ok(());
    }
    let answer = store.put(frame.as_bytes());
    write!(lines, "put {answer:?}\n")
}

/// Writes the answer to a get and the text that it leaves, as a line.
pub(crate) fn write_get<S: SpillStore>(
    alloc: Global,
    lines: &mut String,
    store: &mut S,
    number: u64,
) -> Result<(), AllocError> {
    if number >= store.held() {
        return Ok(());
    }
    let mut into = Vec::from_slice(alloc, b"before")?;
    let answer = store.get(number, &mut into);
    write!(
        lines,
        "get {answer:?} {}\n",
        str::from_utf8(&into).unwrap_or("no text")
    )
}

/// Puts two frames and gets each that is held. It writes down the answers, a line each.
fn put_and_get<S: SpillStore>(
    alloc: Global,
    lines: &mut String,
    store: &mut S,
) -> Result<(), AllocError> {
    write_put(lines, store, "one")?;
    write_put(lines, store, "second")?;
    for number in 0..store.held() {
        write_get(alloc, lines, store, number)?;
    }
    Ok(())
}

/// Whether a store answers these lines.
fn answers<S: SpillStore>(alloc: Global, store: &mut S, want: &str) -> Result<bool, AllocError> {
    let mut lines = String::new(alloc);
    put_and_get(alloc, &mut lines, store)?;
    Ok(lines.as_str() == want)
}

/// Whether a store in memory of which the third call fails gives what it was put, and lends it.
fn gives_and_lends(alloc: Global, store: &mut MemoryStore) -> Result<bool, AllocError> {
    let want = "put Ok(0)\nput Ok(1)\nget Err(Failed) \nget Ok(()) second\n";
    Ok(
        answers(alloc, store, want)?
            && store.frames().len() == 2
            && store.frames()[1].as_slice() == b"second".as_slice(),
    )
}

#[test]
fn a_listed_call_of_a_store_fails(rt: HostRuntime) -> Result<(), Fail> {
    let failing = Vec::from_slice(rt.alloc(), &[2])?;
    hold(gives_and_lends(rt.alloc(), &mut MemoryStore::new(rt.alloc(), failing)))
}

/// Takes a store that threads may share behind a lock.
fn share<S: Send + Sync>(_store: &S) {}

/// The store of a partition in a folder.
fn file_store(
    rt: HostRuntime,
    dir: &str,
    partition: usize,
) -> Result<FileStore<HostRuntime>, AllocError>
    ensures { IfOk result (λ s. held_of s.frames ≡ 0) }
{
    let dir = Text::new(rt.alloc(), dir)?;
    FileStore::new(rt, rt.alloc(), &dir, partition)
}

/// Whether a store in a file of a folder answers these lines.
fn file_answers(rt: HostRuntime, dir: &str, want: &str) -> Result<bool, AllocError> {
    let mut store = file_store(rt, dir, 3)?;
    share(&store);
    answers(rt.alloc(), &mut store, want)
}

/// Asserts that a file holds this text.
fn assert_holds(rt: HostRuntime, path: &str, want: &str) -> Result<(), Fail> {
    let text = fs::read_to_string(&rt, path)?;
    hold(Ok(text.as_str() == want))
}

#[test]
fn frames_in_a_file_are_read_back(rt: HostRuntime) -> Result<(), Fail> {
    let both = "put Ok(0)\nput Ok(1)\nget Ok(()) one\nget Ok(()) second\n";
    fs::create_dir(&rt, "spills")?;
    fs::write(&rt, "spills/partition-3.spill", "of a former run")?;
    hold(file_answers(rt, "spills", both))?;
    assert_holds(rt, "spills/partition-3.spill", "onesecond")
}

/// Whether no file was made where the folders are absent.
fn is_none_made(rt: HostRuntime) -> bool {
    fs::metadata(&rt, "/partition-3.spill").is_err()
        && fs::metadata(&rt, "partition-3.spill").is_err()
}

#[test]
fn folders_that_are_absent(rt: HostRuntime) -> Result<(), Fail> {
    let refused = "put Err(Failed)\nput Err(Failed)\n";
    hold(file_answers(rt, "absent", refused))?;
    hold(file_answers(rt, "", refused))?;
    hold(Ok(is_none_made(rt)))
}

/// Asserts what a store answers when its file with one frame was taken away.
fn assert_answers_without_file(
    rt: HostRuntime,
    store: &mut FileStore<HostRuntime>,
) -> Result<(), Fail>
    requires { held_of store.old.frames ≡ 0 }
{
    store.put(b"frame")?;
    fs::remove_file(&rt, "./partition-7.spill")?;
    let refused = "put Err(Failed)\nput Err(Failed)\nget Err(Failed) \n";
    hold(answers(rt.alloc(), store, refused))
}

#[test]
fn a_file_that_was_taken_away(rt: HostRuntime) -> Result<(), Fail> {
    let mut store = file_store(rt, ".", 7)?;
    assert_answers_without_file(rt, &mut store)
}
