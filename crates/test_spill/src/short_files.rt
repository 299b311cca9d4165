//! Stores over a file system whose files take few bytes and then fail.

use crate::hold::hold;
use crate::stores::{write_get, write_put};
use pipe_columns::Text;
use pipe_spill::FileStore;
use std::alloc::{AllocError, Allocator, Global};
use std::cell::Cell;
use std::fs::{self, File, Files, Metadata, OpenFile, OpenOptions};
use std::io::{self, Error, ErrorKind, Read, Seek, SeekFrom, Write};
use std::test::Fail;

/// How many bytes files take at once, how many they take in all, and how a write then fails.
#[derive(Clone, Copy, Drop)]
struct Room {
    at_once: usize,
    left: usize,
    fault: ErrorKind,
}

/// A file of the runtime that takes as much as there is room for.
#[derive(Drop)]
struct ShortFile<'a> {
    file: File,
    room: &'a Cell<Room>,
}

impl<'a> Read for ShortFile<'a> {
    fn read(&mut self, into: &mut [u8]) -> io::Result<usize> {
        self.file.read(into)
    }
}

impl<'a> Write for ShortFile<'a> {
    fn write(&mut self, piece: &[u8]) -> io::Result<usize> {
        let mut room = self.room.get();
        if room.left == 0 {
            return Err(Error::from(room.fault));
        }
        let count = piece.len().min(room.at_once).min(room.left);
        let taken = self.file.write(&piece[..count])?;
        room.left = room.left.saturating_sub(taken);
        self.room.set(room);
        Ok(taken)
    }

    fn flush(&mut self) -> io::Result<()> {
        Ok(())
    }
}

impl<'a> Seek for ShortFile<'a> {
    fn seek(&mut self, to: SeekFrom) -> io::Result<u64> {
        self.file.seek(to)
    }
}

impl<'a> OpenFile for ShortFile<'a> {
    fn metadata(&self) -> io::Result<Metadata> {
        self.file.metadata()
    }

    fn set_len(&self, size: u64) -> io::Result<()> {
        self.file.set_len(size)
    }

    fn sync_all(&self) -> io::Result<()> {
        Ok(())
    }

    fn sync_data(&self) -> io::Result<()> {
        Ok(())
    }
}

/// The runtime's file system with such files; nothing else is asked of it.
#[derive(Drop)]
struct ShortFiles<'a> {
    rt: HostRuntime,
    room: &'a Cell<Room>,
}

/// What is answered where something else is asked.
fn unsupported<T>() -> io::Result<T> {
    Err(Error::from(ErrorKind::Unsupported))
}

impl<'a> Files for ShortFiles<'a> {
    type File = ShortFile<'a>;

    type Dir = File;

    fn open_file(&self, how: &OpenOptions, path: &str) -> io::Result<ShortFile<'a>> {
        Ok(ShortFile {
            file: self.rt.open_file(how, path)?,
            room: self.room,
        })
    }

    fn open_dir(&self, _path: &str) -> io::Result<File> {
        unsupported()
    }

    fn metadata(&self, _path: &str) -> io::Result<Metadata> {
        unsupported()
    }

    fn symlink_metadata(&self, _path: &str) -> io::Result<Metadata> {
        unsupported()
    }

    fn copy(&self, _from: &str, _to: &str) -> io::Result<u64> {
        unsupported()
    }

    fn rename(&self, _from: &str, _to: &str) -> io::Result<()> {
        unsupported()
    }

    fn remove_file(&self, _path: &str) -> io::Result<()> {
        unsupported()
    }

    fn create_dir(&self, _path: &str) -> io::Result<()> {
        unsupported()
    }

    fn remove_dir(&self, _path: &str) -> io::Result<()> {
        unsupported()
    }

    fn remove_dir_all<B: Allocator>(&self, _alloc: B, _path: &str) -> io::Result<()> {
        unsupported()
    }
}

/// A call of a store, or what is done to its file.
enum Call {
    /// A put into a file that takes so many bytes at once, and so many in all.
    Put(usize, usize, &'static str),
    /// A get of the frame of a number.
    Get(u64),
    /// The file of a path is made to hold a text.
    Overwrite(&'static str, &'static str),
}

/// Writes what a store answers to a call, as a line.
fn write_line<'a>(
    rt: HostRuntime,
    lines: &mut String,
    store: &mut FileStore<ShortFiles<'a>>,
    room: &Cell<Room>,
    call: &Call,
) -> Result<(), Fail> {
    match call {
        Call::Put(at_once, left, frame) => {
            room.set(Room {
                at_once: *at_once,
                left: *left,
                fault: room.get().fault,
            });
            Ok(write_put(lines, store, *frame)?)
        }
        Call::Get(number) => Ok(write_get(rt.alloc(), lines, store, *number)?),
        Call::Overwrite(path, text) => Ok(fs::write(&rt, *path, *text)?),
    }
}

/// Writes what a store answers to calls.
fn write_all_lines<'a>(
    rt: HostRuntime,
    lines: &mut String,
    store: &mut FileStore<ShortFiles<'a>>,
    room: &Cell<Room>,
    calls: &[Call],
) -> Result<(), Fail> {
    for call in calls {
        write_line(rt, lines, store, room, call)?;
    }
    Ok(())
}

/// The store of partition 0 in a folder of such files.
fn short_store<'a>(
    rt: HostRuntime,
    dir: &str,
    room: &'a Cell<Room>,
) -> Result<FileStore<ShortFiles<'a>>, AllocError> {
    let dir = Text::new(rt.alloc(), dir)?;
    FileStore::new(ShortFiles { rt, room }, rt.alloc(), &dir, 0)
}

/// Writes what a store in a folder answers to calls, where a write without room fails so.
fn write_lines(
    rt: HostRuntime,
    lines: &mut String,
    dir: &str,
    fault: ErrorKind,
    calls: &[Call],
) -> Result<(), Fail> {
    let room = Cell::new(Room {
        at_once: 0,
        left: 0,
        fault,
    });
    let mut store = short_store(rt, dir, &room)?;
    write_all_lines(rt, lines, &mut store, &room, calls)
}

/// Asserts that a store in a new folder answers these lines to calls.
fn assert_answers(
    rt: HostRuntime,
    lines: &mut String,
    dir: &str,
    fault: ErrorKind,
    calls: &[Call],
    want: &str,
) -> Result<(), Fail> {
    fs::create_dir(&rt, dir)?;
    write_lines(rt, lines, dir, fault, calls)?;
    hold(Ok(lines.as_str() == want))
}

/// Calls of which the second finds too little room.
const REFUSED: [Call; 6] = [
    Call::Put(3, 9, "first"),
    Call::Put(3, 4, "too long"),
    Call::Get(0),
    Call::Put(3, 9, "next"),
    Call::Get(1),
    Call::Get(0),
];

#[test]
fn a_refused_put_spoils_nothing(rt: HostRuntime) -> Result<(), Fail> {
    let want = "put Ok(0)\nput Err(Failed)\nget Ok(()) first\n\
        put Ok(1)\nget Ok(()) next\nget Ok(()) first\n";
    let mut lines = String::new(rt.alloc());
    assert_answers(rt, &mut lines, "short", ErrorKind::Other, &REFUSED, want)
}

/// Calls of a file that takes no byte at once, and then of one that does, but is cut before the second frame is read.
const STARVED: [Call; 7] = [
    Call::Put(0, 9, "frame"),
    Call::Put(0, 0, "frame"),
    Call::Put(0, 0, ""),
    Call::Get(0),
    Call::Put(9, 9, "frame"),
    Call::Overwrite("starved/partition-0.spill", "fram"),
    Call::Get(1),
];

#[test]
fn files_that_take_or_give_too_little(rt: HostRuntime) -> Result<(), Fail> {
    let want = "put Err(Failed)\nput Err(Memory)\nput Ok(0)\nget Ok(()) \n\
        put Ok(1)\nget Err(Failed) \n";
    let mut lines = String::new(rt.alloc());
    assert_answers(
        rt,
        &mut lines,
        "starved",
        ErrorKind::OutOfMemory,
        &STARVED,
        want,
    )
}
