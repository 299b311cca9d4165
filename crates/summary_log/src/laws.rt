//! What logs are read as, as laws over the definitions.

ghost use Rattle.std.specs.Prelude.{◌≡◌, ◌^◌, ◌<◌, ◌≤◌, ◌++◌, ℕ, List, length, take, slice_index};
ghost use Rattle.pipe_spill.specs.FileStore.{next_start, with_end};
ghost use Rattle.summary_log.specs.Ends.{AreEndsIn, ends_of, frame_size, frame_start};
ghost use Rattle.summary_log.specs.Log.{AreFramesOf, entry, log};
ghost use Rattle.summary_log.specs.LogFile.{bytes_at};

/// Bytes begin with the log of one list of frames, which is the longest; behind a log an entry that was
/// cut short is none.
pub fn logs_are_read()
    ensures cut { (frames : List (List ℕ)) (frame : List ℕ) (n : ℕ) → length frame < 2 ^ 64
        → n < length (entry frame) → AreFramesOf (log frames ++ take n (entry frame)) frames }
    ensures once { (bytes : List ℕ) (frames others : List (List ℕ)) → length bytes < 2 ^ 64
        → AreFramesOf bytes frames → AreFramesOf bytes others → frames ≡ others }
    ensures longest { (bytes rest : List ℕ) (frames others : List (List ℕ)) → length bytes < 2 ^ 64
        → AreFramesOf bytes frames → bytes ≡ log others ++ rest → length others ≤ length frames }
{}
