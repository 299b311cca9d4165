//! The frames of a log.

ghost use Rattle.std.specs.Prelude.{◌≡◌, ◌++◌, ◌^◌, ◌<◌, ℕ, List, IfOk, length, take};
ghost use Rattle.summary_log.specs.Log.{AreFramesOf, entry, log};

use crate::take_entry::take_entry;
use pipe_spill::Frames;
use std::alloc::{AllocError, Global};

/// The frames of a log, and how many bytes their log has.
#[derive(Debug, Drop)]
pub struct LogParts {
    pub frames: Frames,
    pub length: usize,
}

/// The longest list of frames whose log the bytes begin with.
pub fn read_log(alloc: Global, bytes: &[u8]) -> Result<LogParts, AllocError>
    ensures frames { IfOk result (λ p. AreFramesOf bytes.now p.frames) }
    ensures length { IfOk result (λ p. p.length ≡ length (log p.frames)) }

    // The bytes of a log, and behind it those of an entry that was cut short.
    ensures cut { (frames : List (List ℕ)) (frame : List ℕ) (n : ℕ) → length frame < 2 ^ 64
        → n < length (entry frame) → bytes.now ≡ log frames ++ take n (entry frame)
        → IfOk result (λ p. p.frames ≡ frames) }
{
    let mut frames = Vec::new(alloc);
    let mut rest = bytes;
    while let Some((frame, behind)) = take_entry(rest) {
        frames.push(Vec::from_slice(alloc, frame)?)?;
        rest = behind;
    }
    Ok(LogParts {
        frames: Frames::new(frames),
        length: bytes.len() - rest.len(),
    })
}
