//! A file without a name.

use std::alloc::{Allocator, Global};
use std::cell::OnceCell;
use std::fs::{File, Files, Metadata, OpenOptions};
use std::io::{self, Error, ErrorKind};

/// A file system of one file, which is made when it is first opened, under a name that no other process
/// takes, and loses its name at once: so it is gone when it is closed, however that comes. Each who
/// opens it gets the same open file.
#[derive(Drop)]
pub struct UnnamedFile<R> {
    rt: R,
    alloc: Global,
    process: u32,
    salt: u64,
    file: OnceCell<File>,
}

impl<R: Files<File = File>> UnnamedFile<R> {
    /// No file yet. The name of one ends in the number of the process and a salt.
    pub fn new(rt: R, alloc: Global, process: u32, salt: u64) -> UnnamedFile<R> {
        UnnamedFile {
            rt,
            alloc,
            process,
            salt,
            file: OnceCell::new(),
        }
    }

    /// Makes a file by a name that is not there yet, and takes the name away.
    fn make(&self, path: &str) -> io::Result<File> {
        if path.is_empty() {
            return Err(Error::from(ErrorKind::NotFound));
        }
        let process = self.process;
        let salt = self.salt;
        let name = format!(in self.alloc; "{path}-{process}-{salt}")?;
        let mut options = OpenOptions::new();
        options.read(true).write(true).create_new(true);
        let file = options.open(&self.rt, name.as_str())?;
        self.rt.remove_file(name.as_str())?;
        Ok(file)
    }
}

/// What is answered where something else is asked than to open the file.
fn unsupported<T>() -> io::Result<T> {
    Err(Error::from(ErrorKind::Unsupported))
}

impl<R: Files<File = File>> Files for UnnamedFile<R> {
    type File = File;

    type Dir = File;

    fn open_file(&self, how: &OpenOptions, path: &str) -> io::Result<File> {
        if let Some(file) = self.file.get() {
            return file.try_clone();
        }
        if !how.asks_create() {
            return Err(Error::from(ErrorKind::NotFound));
        }
        let file = self.make(path)?;
        let handle = file.try_clone()?;
        match self.file.set(file) {
            Ok(()) => Ok(handle),
            Err(_) => Err(Error::from(ErrorKind::AlreadyExists)),
        }
    }

    fn open_dir(&self, _path: &str) -> io::Result<File> {
        unsupported()
    }

    fn metadata(&self, _path: &str) -> io::Result<Metadata> {
        unsupported()
    }

    fn symlink_metadata(&self, _path: &str) -> io::Result<Metadata> {
        unsupported()
    }

    fn copy(&self, _from: &str, _to: &str) -> io::Result<u64> {
        unsupported()
    }

    fn rename(&self, _from: &str, _to: &str) -> io::Result<()> {
        unsupported()
    }

    fn remove_file(&self, _path: &str) -> io::Result<()> {
        unsupported()
    }

    fn create_dir(&self, _path: &str) -> io::Result<()> {
        unsupported()
    }

    fn remove_dir(&self, _path: &str) -> io::Result<()> {
        unsupported()
    }

    fn remove_dir_all<B: Allocator>(&self, _alloc: B, _path: &str) -> io::Result<()> {
        unsupported()
    }
}
