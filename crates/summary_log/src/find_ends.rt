//! Where the entries end of the log that a file begins with.

ghost use Rattle.std.specs.Prelude.{◌≡◌, ◌<◌, ◌≤◌, IfOk, IfSome, length, OnErr};
ghost use Rattle.pipe_spill.specs.FileStore.{next_start};
ghost use Rattle.summary_log.specs.Ends.{AreEndsIn};
ghost use Rattle.summary_log.specs.Finding.{EndsEntry, IsSize};
ghost use Rattle.summary_log.specs.LogFile.{IsCutAt};

use crate::log_file::LogFile;
use crate::places::end_of;
use crate::take_entry::take_length;
use std::alloc::Global;
use std::io::{self, ErrorKind};

/// How many bytes the length of a frame takes.
pub(crate) const LENGTH_BYTES: u64 = 8;

/// The most bytes of a log.
pub const MOST_LOG_BYTES: u64 = 1 << 30;

/// Where the entry ends that starts at a place, if one does that is whole.
fn entry_end<F: LogFile>(file: &mut F, start: u64, size: u64) -> io::Result<Option<u64>>
    requires size { IsSize (F.told file.old) size }
    requires start { start ≤ size }
    ensures ends { IfOk result (λ end. IfSome (F.told file.old) (λ bytes. EndsEntry bytes start end)) }
    ensures later { IfOk result (λ end. IfSome end (λ n. start < n)) }
    ensures inside { IfOk result (λ end. IfSome end (λ n. n ≤ size)) }
    ensures told { F.told file.new ≡ F.told file.old }
{
    if size - start < LENGTH_BYTES {
        return Ok(None);
    }
    let mut word = [0; 8];
    file.fill_at(start, &mut word)?;
    let Some((length, _)) = take_length(&word) else {
        return Ok(None);
    };
    if length > size - start - LENGTH_BYTES {
        return Ok(None);
    }
    Ok(Some(start + LENGTH_BYTES + length))
}

/// Where the entries end of the log that a file of so many bytes begins with. Of each entry its length
/// alone is read.
fn find_ends<F: LogFile>(alloc: Global, file: &mut F, size: u64) -> io::Result<Vec<u64>>
    requires size { IsSize (F.told file.old) size }
    ensures ends { IfOk result (λ ends. IfSome (F.told file.old)
        (λ bytes. AreEndsIn bytes ends.items)) }
    ensures inside { IfOk result (λ ends. next_start ends.items ≤ size) }
    ensures told { F.told file.new ≡ F.told file.old }
{
    let mut ends = Vec::new(alloc);
    let mut start = 0;
    while let Some(end) = entry_end(file, start, size)? {
        ends.push(end)?;
        start = end;
    }
    Ok(ends)
}

/// Where the entries end of the log that a file begins with. What lies behind it is cut off.
pub(crate) fn find_log<F: LogFile>(alloc: Global, file: &mut F) -> io::Result<Vec<u64>>
    ensures ends { IfOk result (λ ends. IfSome (F.told file.old)
        (λ bytes. AreEndsIn bytes ends.items)) }
    ensures cut { IfOk result (λ ends. IsCutAt (next_start ends.items) (F.told file.old)
        (F.told file.new)) }
    ensures small { IfOk result (λ _. IfSome (F.told file.old)
        (λ bytes. length bytes ≤ MOST_LOG_BYTES)) }
    ensures refused { OnErr result (F.told file.new ≡ F.told file.old) }
{
    let size = file.size()?;
    if size > MOST_LOG_BYTES {
        return Err(io::Error::from(ErrorKind::FileTooLarge));
    }
    let ends = find_ends(alloc, file, size)?;
    let end = end_of(&ends);
    if end < size {
        file.cut_at(end)?;
    }
    Ok(ends)
}
