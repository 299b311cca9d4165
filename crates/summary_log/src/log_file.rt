//! The file that a log lies in.

ghost use Rattle.std.specs.Prelude.{◌≡◌, IfOk, IfSome, List, None, OnErr, OnOk, Option, ℕ, length};
ghost use Rattle.summary_log.specs.LogFile.{bytes_at, HasFront, IsCutAt, IsWrittenAt};

use std::fs::File;
use std::io::{self, Read, Seek, SeekFrom, Write};

/// A file whose bytes are read and written at places.
pub trait LogFile {
    /// Its bytes, where it tells them.
    ghost told: { Self → Option (List ℕ) };

    /// How many bytes it has.
    fn size(&mut self) -> io::Result<u64>
        ensures size { IfOk result (λ n. IfSome (told self.old) (λ bytes. n ≡ length bytes)) }
        ensures told { told self.new ≡ told self.old };

    /// Fills `into` with the bytes at a place.
    fn fill_at(&mut self, at: u64, into: &mut [u8]) -> io::Result<()>
        ensures bytes { OnOk result (IfSome (told self.old)
            (λ bytes. bytes_at at (length into.new) bytes ≡ into.new)) }
        ensures told { told self.new ≡ told self.old };

    /// Writes bytes at a place. What is refused may have written a part of them.
    fn write_at(&mut self, at: u64, bytes: &[u8]) -> io::Result<()>
        ensures written { OnOk result (IsWrittenAt at bytes.now (told self.old) (told self.new)) }
        ensures front { OnErr result (HasFront at (told self.old) (told self.new)) };

    /// Cuts off the bytes from a place on.
    fn cut_at(&mut self, at: u64) -> io::Result<()>
        ensures cut { OnOk result (IsCutAt at (told self.old) (told self.new)) }
        ensures refused { OnErr result (told self.new ≡ told self.old) };

    /// Waits until what was written is kept by the device.
    fn sync(&mut self) -> io::Result<()>
        ensures told { told self.new ≡ told self.old };
}

/// A file of the system tells none of its bytes.
impl LogFile for File {
    ghost told = { λ f. None };

    fn size(&mut self) -> io::Result<u64> {
        self.seek(SeekFrom::End(0))
    }

    fn fill_at(&mut self, at: u64, into: &mut [u8]) -> io::Result<()> {
        self.seek(SeekFrom::Start(at))?;
        self.read_exact(into)
    }

    fn write_at(&mut self, at: u64, bytes: &[u8]) -> io::Result<()> {
        self.seek(SeekFrom::Start(at))?;
        self.write_all(bytes)
    }

    fn cut_at(&mut self, at: u64) -> io::Result<()> {
        self.set_len(at)
    }

    fn sync(&mut self) -> io::Result<()> {
        self.sync_all()
    }
}
