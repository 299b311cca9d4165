//! Worked logs, as laws over the definitions.

ghost use Rattle.std.specs.Prelude.{◌≡◌, ◌∷◌, []};
ghost use Rattle.summary_log.specs.Ends.{ends_of, frame_size, frame_start};
ghost use Rattle.summary_log.specs.Log.{entry, log};

/// The log of no frame, of an empty one, and of two.
pub fn logs_of_frames()
    ensures none { log [] ≡ [] }
    ensures empty { log ([] ∷ []) ≡ 0 ∷ 0 ∷ 0 ∷ 0 ∷ 0 ∷ 0 ∷ 0 ∷ 0 ∷ [] }
    ensures two { log ((7 ∷ 8 ∷ []) ∷ (9 ∷ []) ∷ [])
        ≡ 0 ∷ 0 ∷ 0 ∷ 0 ∷ 0 ∷ 0 ∷ 0 ∷ 2 ∷ 7 ∷ 8 ∷ 0 ∷ 0 ∷ 0 ∷ 0 ∷ 0 ∷ 0 ∷ 0 ∷ 1 ∷ 9 ∷ [] }
    ensures ends { ends_of ((7 ∷ 8 ∷ []) ∷ (9 ∷ []) ∷ []) ≡ 10 ∷ 19 ∷ [] }
    ensures start { frame_start (10 ∷ 19 ∷ []) 1 ≡ 18 }
    ensures size { frame_size (10 ∷ 19 ∷ []) 1 ≡ 1 }
{}
