//! What real files give, and one in memory of which a call fails.

use crate::hold::hold;
use crate::side_by_side::gives_beside;
use pipe_columns::Text;
use pipe_io::{FileEnd, InputFiles, MemoryFiles, RealFiles, read_file};
use std::alloc::{AllocError, Global};
use std::fs;
use std::test::Fail;
use std::thread::Threads;

/// Bytes, or what comes in their place.
type Due<'a> = Result<&'a [u8], FileEnd>;

/// Whether what was read is due.
fn is_due(read: &Result<Vec<u8>, FileEnd>, due: &Due<'_>) -> bool {
    match (read, due) {
        (Ok(bytes), Ok(wanted)) => bytes.as_slice() == *wanted,
        (Err(end), Err(named)) => end == named,
        _ => false,
    }
}

/// Whether a file has these bytes, or this comes in their place.
fn gives<I: InputFiles>(
    alloc: Global,
    input: &mut I,
    name: &str,
    due: &Due<'_>,
) -> Result<bool, AllocError> {
    let name = Text::new(alloc, name)?;
    Ok(is_due(&read_file(alloc, input, &name), due))
}

/// The file `a` of some bytes, of which the second call fails, and the fifth.
fn file_a(alloc: Global, bytes: &[u8]) -> Result<MemoryFiles, AllocError> {
    let calls = Vec::from_slice(alloc, &[1, 4])?;
    let name = Text::new(alloc, "a")?;
    let file = (name, Vec::from_slice(alloc, bytes)?);
    Ok(MemoryFiles::new(vec![in alloc; file]?, calls))
}

/// Whether a file gives nothing where a call fails, and then its bytes: whole, and side by side.
fn gives_in_turn<H: Threads + Sync>(
    rt: &H,
    alloc: Global,
    files: &mut MemoryFiles,
) -> Result<bool, AllocError> {
    Ok(
        gives(alloc, files, "a", &Err(FileEnd::Failed))?
            && gives_beside(rt, alloc, files, "a", 4, &mut [b'?'; 5], b"01234!56789abc")?
            && gives(alloc, files, "a", &Ok(b"0123456789abc"))?
            && gives(alloc, files, "c", &Err(FileEnd::Missing))?,
    )
}

#[test]
fn listed_reads_fail(rt: HostRuntime) -> Result<(), Fail> {
    let mut files = file_a(rt.alloc(), b"0123456789abc")?;
    hold(gives_in_turn(&rt, rt.alloc(), &mut files))
}

/// Whether a file that was begun, or wasn't there, tells this size.
fn tells_size<I: InputFiles>(
    alloc: Global,
    files: &mut I,
    name: &str,
    size: usize,
) -> Result<bool, AllocError> {
    let _begun = files.begin(&Text::new(alloc, name)?);
    Ok(files.size_hint() == size)
}

/// Whether real files are read, and tell their sizes.
fn all_are_read<I: InputFiles>(alloc: Global, files: &mut I) -> Result<bool, AllocError> {
    Ok(
        files.size_hint() == 0
            && gives(alloc, files, "small.csv", &Ok(b"k,v\n"))?
            && gives(alloc, files, "absent.csv", &Err(FileEnd::Missing))?
            && gives(alloc, files, "-", &Ok(b"typed"))?
            && gives(alloc, files, ".", &Err(FileEnd::Failed))?
            && tells_size(alloc, files, "small.csv", 4)?
            && tells_size(alloc, files, "-", 0)?
            && tells_size(alloc, files, "absent.csv", 0)?,
    )
}

/// Asserts that files of some sizes are read whole: so many of some bytes.
fn assert_read_whole<I: InputFiles>(
    rt: HostRuntime,
    files: &mut I,
    bytes: &[u8],
) -> Result<(), Fail> {
    for size in [65535, 65536, 65537, 131072, 200000] {
        let front = &bytes[..bytes.len().min(size)];
        fs::write(&rt, "large.csv", front)?;
        hold(gives(rt.alloc(), files, "large.csv", &Ok(front)))?;
    }
    Ok(())
}

#[test]
fn real_files_are_read(rt: HostRuntime) -> Result<(), Fail> {
    let bytes = vec![in rt.alloc(); b'x'; 200000]?;
    fs::write(&rt, "small.csv", "k,v\n")?;
    let mut files = RealFiles::new(&rt, &b"typed"[..]);
    hold(all_are_read(rt.alloc(), &mut files))?;
    assert_read_whole(rt, &mut files, &bytes)
}
