//! Entries as they are written to a file, and frames as they are read from one.

ghost use Rattle.std.specs.Prelude.{◌≡◌, ◌<◌, ◌≤◌, ◌+◌, ◌⊎◌, [], false, true, length, IfSome, IsNone, OnErr, OnOk};
ghost use Rattle.summary_log.specs.Log.{entry};
ghost use Rattle.summary_log.specs.LogFile.{bytes_at, HasFront, IsWrittenAt};

use crate::find_ends::{LENGTH_BYTES, MOST_LOG_BYTES};
use crate::log_file::LogFile;
use std::io;

/// Where the entry of a frame of so many bytes ends that starts at a place, where the log has room for
/// it and nothing is left there that couldn't be cut off.
pub(crate) fn end_behind(start: u64, size: u64, torn: bool) -> Option<u64>
    ensures end { IfSome result (λ end. end ≡ start + (8 + size)) }
    ensures room { IfSome result (λ end. end ≤ MOST_LOG_BYTES) }
    ensures whole { IfSome result (λ _. torn ≡ false) }
{
    if torn {
        return None;
    }
    let end = start.checked_add(LENGTH_BYTES)?.checked_add(size)?;
    if end > MOST_LOG_BYTES {
        return None;
    }
    Some(end)
}

/// Writes the entry of a frame at a place, and waits until it is kept.
pub(crate) fn write_entry<F: LogFile>(file: &mut F, start: u64, frame: &[u8]) -> io::Result<()>
    requires room { start + length (entry frame.now) ≤ MOST_LOG_BYTES }
    ensures written { OnOk result (IsWrittenAt start (entry frame.now) (F.told file.old)
        (F.told file.new)) }
    ensures front { OnErr result (HasFront start (F.told file.old) (F.told file.new)) }
{
    let size = frame.len() as u64;
    file.write_at(start, &size.to_be_bytes())?;
    file.write_at(start + LENGTH_BYTES, frame)?;
    file.sync()
}

/// Leaves so many bytes from a place on in `into`, or none.
pub(crate) fn read_bytes<F: LogFile>(
    file: &mut F,
    start: u64,
    size: usize,
    into: &mut Vec<u8>,
) -> io::Result<()>
    ensures size { OnOk result (length into.new.items ≡ size) }
    ensures bytes { OnOk result (IfSome (F.told file.old)
        (λ bytes. into.new.items ≡ bytes_at start size bytes)) }
    ensures refused { OnErr result (into.new.items ≡ []) }
    ensures told { F.told file.new ≡ F.told file.old }
{
    into.clear();
    into.resize(size, 0)?;
    match file.fill_at(start, into) {
        Ok(()) => Ok(()),
        Err(error) => {
            into.clear();
            Err(error)
        }
    }
}
