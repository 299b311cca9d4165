//! Files that threads read in parts: real ones, and one without a position.

ghost use Rattle.std.specs.Prelude.{◌≡◌, ◌<◌, length, true};

use crate::hold::hold;
use pipe_columns::Text;
use pipe_io::{InputError, InputFiles, RealFiles};
use std::alloc::{AllocError, Global};
use std::fs::{self, File, Files};
use std::io::{self, PipeReader, Write, pipe};
use std::os::fd::AsRawFd;
use std::test::Fail;
use std::thread::Threads;

/// What is left of a begun file, read side by side into room; a `!` stands for each call that fails.
fn rest_of<I: InputFiles, H: Threads + Sync>(
    rt: &H,
    all: &mut Vec<u8>,
    input: &mut I,
    threads: usize,
    room: &mut [u8],
) -> Result<(), AllocError>
    requires started { I.begun input.old ≡ true }
    requires room { 0 < length room.old }
{
    for _ in 0..1000 {
        match input.read_beside(rt, threads, room) {
            Ok(0) => return Ok(()),
            Ok(count) => all.extend_from_slice(&room[..count])?,
            Err(InputError::Failed) => all.push(b'!')?,
            Err(_) => return Err(AllocError),
        }
    }
    Ok(())
}

/// Whether all of a file, read side by side into room, is this.
pub(crate) fn gives_beside<I: InputFiles, H: Threads + Sync>(
    rt: &H,
    alloc: Global,
    input: &mut I,
    name: &str,
    threads: usize,
    room: &mut [u8],
    want: &[u8],
) -> Result<bool, AllocError> {
    let name = Text::new(alloc, name)?;
    let mut all = Vec::new(alloc);
    if room.is_empty() || input.begin(&name).is_err() {
        return Ok(false);
    }
    rest_of(rt, &mut all, input, threads, room)?;
    Ok(all.as_slice() == want)
}

/// The bytes of a long file.
fn long_bytes(alloc: Global) -> Result<Vec<u8>, AllocError> {
    let mut long = Vec::new(alloc);
    for i in 0..70000u32 {
        long.push((i % 251) as u8)?;
    }
    Ok(long)
}

/// Whether a long file, one without a byte and standard input are read whole.
fn are_given<I: InputFiles, H: Threads + Sync>(
    rt: &H,
    alloc: Global,
    files: &mut I,
    long: &[u8],
    threads: usize,
    room: &mut [u8],
) -> Result<bool, AllocError> {
    Ok(
        gives_beside(rt, alloc, files, "long.bin", threads, room, long)?
            && gives_beside(rt, alloc, files, "none.bin", threads, room, b"")?
            && gives_beside(rt, alloc, files, "-", threads, room, b"typed")?,
    )
}

/// Whether real files are read by any number of threads, into room.
fn are_read<H: Threads + Sync + Files<File = File>>(
    rt: &H,
    alloc: Global,
    long: &[u8],
    room: &mut [u8],
) -> Result<bool, AllocError> {
    for threads in 0..6 {
        let mut files = RealFiles::new(rt, &b"typed"[..]);
        if !are_given(rt, alloc, &mut files, long, threads, room)? {
            return Ok(false);
        }
    }
    Ok(true)
}

/// Whether they are, whatever room there is.
fn are_read_into_any<H: Threads + Sync + Files<File = File>>(
    rt: &H,
    alloc: Global,
    long: &[u8],
) -> Result<bool, AllocError> {
    for size in [999, 65536, 70000, 70001, 100000] {
        let mut room = vec![in alloc; b'?'; size]?;
        if !are_read(rt, alloc, long, room.as_mut_slice())? {
            return Ok(false);
        }
    }
    Ok(true)
}

#[test]
fn real_files_are_read_side_by_side(rt: HostRuntime) -> Result<(), Fail> {
    let long = long_bytes(rt.alloc())?;
    fs::write(&rt, "none.bin", "")?;
    fs::write(&rt, "long.bin", long.as_slice())?;
    hold(are_read_into_any(&rt, rt.alloc(), &long))
}

/// The bytes of a short file.
const BYTES: &[u8] = b"0123456789abc";

/// The end of a pipe that gives a short file.
fn filled_pipe(rt: HostRuntime) -> io::Result<PipeReader> {
    let (reader, mut writer) = pipe(&rt)?;
    writer.write_all(BYTES)?;
    Ok(reader)
}

/// Whether a pipe gives the bytes.
fn does_pipe_give<H: Threads + Sync + Files<File = File>>(
    rt: &H,
    alloc: Global,
    pipe: &PipeReader,
) -> Result<bool, AllocError> {
    let name = format!(in alloc; "/proc/self/fd/{}", pipe.as_raw_fd())?;
    let mut files = RealFiles::new(rt, &b""[..]);
    gives_beside(
        rt,
        alloc,
        &mut files,
        name.as_str(),
        4,
        &mut [b'?'; 20],
        BYTES,
    )
}

/// A pipe has no position, so no part of it is read before another one.
#[test]
fn files_without_a_position_are_read_in_order(rt: HostRuntime) -> Result<(), Fail> {
    let pipe = filled_pipe(rt)?;
    hold(does_pipe_give(&rt, rt.alloc(), &pipe))
}
