//! Stores over a file system of which some calls fail.

use crate::frames::{gets, keeps_none, puts_both};
use lavzimo_stores::{OwnStores, SpillMaker};
use pipe_columns::Text;
use pipe_spill::{SpillStore, StoreError};
use std::alloc::{Allocator, Global};
use std::fs::{self, File, Files, Metadata, OpenOptions};
use std::io::{self, Error, ErrorKind};
use std::test::Fail;

/// Which calls fail.
#[derive(Clone, Copy, PartialEq, Eq)]
enum Fault {
    /// A file can't be made.
    Open,
    /// A name can't be removed.
    Remove,
    /// A file takes no bytes: it is a full device.
    Write,
    /// A file gives no bytes: it is open for writing alone.
    Read,
}

/// The runtime's file system, of which some calls fail.
#[derive(Clone, Copy)]
struct FaultyFiles {
    rt: HostRuntime,
    fault: Fault,
}

/// What is answered where something else is asked than to make a file and to remove its name.
fn unsupported<T>() -> io::Result<T> {
    Err(Error::from(ErrorKind::Unsupported))
}

impl Files for FaultyFiles {
    type File = File;

    type Dir = File;

    fn open_file(&self, how: &OpenOptions, path: &str) -> io::Result<File> {
        match self.fault {
            Fault::Open => Err(Error::from(ErrorKind::PermissionDenied)),
            Fault::Remove => self.rt.open_file(how, path),
            Fault::Write => fs::OpenOptions::new()
                .read(true)
                .write(true)
                .open(&self.rt, "/dev/full"),
            Fault::Read => fs::OpenOptions::new()
                .write(true)
                .create_new(true)
                .open(&self.rt, path),
        }
    }

    fn open_dir(&self, _path: &str) -> io::Result<File> {
        unsupported()
    }

    fn metadata(&self, _path: &str) -> io::Result<Metadata> {
        unsupported()
    }

    fn symlink_metadata(&self, _path: &str) -> io::Result<Metadata> {
        unsupported()
    }

    fn copy(&self, _from: &str, _to: &str) -> io::Result<u64> {
        unsupported()
    }

    fn rename(&self, _from: &str, _to: &str) -> io::Result<()> {
        unsupported()
    }

    fn remove_file(&self, path: &str) -> io::Result<()> {
        match self.fault {
            Fault::Remove => Err(Error::from(ErrorKind::PermissionDenied)),
            Fault::Read => self.rt.remove_file(path),
            Fault::Open | Fault::Write => Ok(()),
        }
    }

    fn create_dir(&self, _path: &str) -> io::Result<()> {
        unsupported()
    }

    fn remove_dir(&self, _path: &str) -> io::Result<()> {
        unsupported()
    }

    fn remove_dir_all<B: Allocator>(&self, _alloc: B, _path: &str) -> io::Result<()> {
        unsupported()
    }
}

/// Whether a store over such files does what is due: it keeps none, or gives none back.
fn is_due<S: SpillStore>(alloc: Global, store: &mut S, fault: Fault) -> bool {
    match fault {
        Fault::Read => {
            puts_both(store)
                && gets(alloc, store, 0, Err(StoreError::Failed), b"")
                && gets(alloc, store, 1, Err(StoreError::Failed), b"")
        }
        Fault::Open | Fault::Remove | Fault::Write => keeps_none(store),
    }
}

/// Whether a store over such files of a folder does.
fn is_faulty(rt: HostRuntime, dir: &Text, fault: Fault) -> Result<bool, Fail> {
    let files = FaultyFiles { rt, fault };
    let mut maker = OwnStores::new(&files, rt.alloc(), 7, 9, None);
    let mut store = maker.make(Some(dir))?;
    Ok(is_due(rt.alloc(), &mut store, fault))
}

/// Whether it does so at each fault.
fn are_faulty(rt: HostRuntime, dir: &Text) -> Result<bool, Fail> {
    Ok(
        is_faulty(rt, dir, Fault::Open)?
            && is_faulty(rt, dir, Fault::Write)?
            && is_faulty(rt, dir, Fault::Read)?
            && is_faulty(rt, dir, Fault::Remove)?,
    )
}

/// A file whose name couldn't be removed is all that may stay.
#[test]
fn each_call_fails(rt: HostRuntime) -> Result<(), Fail> {
    fs::create_dir(&rt, "faulty")?;
    let dir = Text::new(rt.alloc(), "faulty")?;
    assert!(rt; are_faulty(rt, &dir)?);
    fs::remove_file(&rt, "faulty/partition-0.spill-7-9")?;
    fs::remove_dir(&rt, "faulty")?;
    Ok(())
}
