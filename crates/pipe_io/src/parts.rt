//! Bytes of a file that threads read in parts, side by side.

ghost use Rattle.std.specs.Prelude.{◌<◌, ◌≤◌, IfSome, length};
ghost use Rattle.std.specs.Thread.{IsSync};

use std::io::{Seek, SeekFrom};
use std::os::unix::fs::FileExt;
use std::thread::{Threads, join_mut};

/// How many bytes of a file from a place on one read gives, and none where it fails.
fn read_part<F: FileExt>(file: &F, at: u64, into: &mut [u8]) -> usize
    ensures { result ≤ length into.new }
{
    file.read_at(into, at).unwrap_or(0)
}

/// Reads bytes of a file from a place on in parts, in at most so many threads, and tells how many
/// of them came before the first gap.
#[cycle(parts)]
fn read_parts<H: Threads + Sync, F: FileExt + Sync>(
    rt: &H,
    file: &F,
    at: u64,
    threads: usize,
    into: &mut [u8],
) -> usize
    ensures { result ≤ length into.new }
{
    if threads < 2 || into.len() < 2 {
        return read_part(file, at, into);
    }
    let size = into.len().div_ceil(threads);
    let next = at.wrapping_add(size as u64);
    let left = threads - 1;
    let (first, others) = into.split_at_mut(size);
    let mut front = || -> usize
        requires { IsSync F.row }
        ensures { result ≤ length first.exit.now }
    { read_part(file, at, first) };
    let mut back = || -> usize
        requires { IsSync H.row × IsSync F.row }
        ensures { result ≤ length others.exit.now }
    { read_parts(rt, file, next, left, others) };
    let (count, more) = join_mut(rt, &mut front, &mut back);
    if count < size { count } else { count + more }
}

/// Reads the next bytes of a file in parts, in at most so many threads, and tells how many of them
/// came before the first gap. Where that can't be had or none came, the file stands as before.
pub(crate) fn read_in_parts<H: Threads + Sync, F: FileExt + Seek + Sync>(
    rt: &H,
    file: &mut F,
    threads: usize,
    into: &mut [u8],
) -> Option<usize>
    ensures { IfSome result (λ n. (0 < n) × (n ≤ length into.new)) }
{
    let at = file.stream_position().ok()?;
    let count = read_parts(rt, &*file, at, threads, into);
    let behind = at.checked_add(count as u64)?;
    if count == 0 || file.seek(SeekFrom::Start(behind)).is_err() {
        return None;
    }
    Some(count)
}
