//! Worked runs, as laws over the definitions: each holds by computation.

ghost use Rattle.std.specs.Prelude.{◌≡◌, ◌∷◌, []};
ghost use Rattle.pipe_model.specs.Answer.{answer};
ghost use Rattle.pipe_model.specs.Worked.{numbers, shown};
ghost use Rattle.pipe_plan.specs.declared.event.PartitionEvent.TheVariants.{Arrive, Dump, Merge};
ghost use Rattle.pipe_plan.specs.Kept.{kept};
ghost use Rattle.pipe_plan.specs.Overflow.{overflow, overflow_count};
ghost use Rattle.pipe_plan.specs.Plan.{plan};
ghost use Rattle.pipe_plan.specs.Replay.{replay};
ghost use Rattle.pipe_plan.specs.WorkedRuns.{empty_between, merged_between, one_spill, row_at, two_workers, typed_keys};

/// The first key is kept, the other rows arrive one by one, and a dump puts them as one frame.
pub fn one_frame()
    ensures kept { kept (one_spill 0) 0 ≡ numbers (1 ∷ []) ∷ [] }
    ensures count { overflow_count (one_spill 0) ≡ 2 }
    ensures plan { plan (one_spill 0) 0 0 ≡ Arrive 0 ∷ Arrive 0 ∷ Dump 0 ∷ [] }
    ensures replay { replay (one_spill 0) 0 (Arrive 0 ∷ Arrive 0 ∷ Dump 0 ∷ []) ≡ record {
      merged = [];
      waiting = [];
      frames = (row_at 0 1 2 (6 ∷ []) ∷ row_at 0 2 2 (7 ∷ []) ∷ []) ∷ [];
    } }
    ensures answer { shown (answer (one_spill 0).chunks (one_spill 0).query 1)
        ≡ numbers (1 ∷ 2 ∷ []) ∷ numbers (5 ∷ 13 ∷ []) ∷ [] }
{}

/// No more pieces wait than the limit, so the dump puts no frame.
pub fn dump_below_the_limit()
    ensures plan { plan (one_spill 2) 0 0 ≡ Arrive 0 ∷ Arrive 0 ∷ Dump 0 ∷ [] }
    ensures replay { replay (one_spill 2) 0 (Arrive 0 ∷ Arrive 0 ∷ Dump 0 ∷ []) ≡ record {
      merged = [];
      waiting = (row_at 0 1 2 (6 ∷ []) ∷ []) ∷ (row_at 0 2 2 (7 ∷ []) ∷ []) ∷ [];
      frames = [];
    } }
{}

/// A merge takes the pieces that wait, and leaves none; what comes later waits.
pub fn merge_of_waiting_pieces()
    ensures plan { plan merged_between 0 0 ≡ Arrive 0 ∷ Merge 0 ∷ Arrive 0 ∷ [] }
    ensures replay { replay merged_between 0 (Arrive 0 ∷ Merge 0 ∷ Arrive 0 ∷ []) ≡ record {
      merged = row_at 0 1 2 (6 ∷ []) ∷ [];
      waiting = (row_at 1 0 2 (7 ∷ []) ∷ []) ∷ [];
      frames = [];
    } }
{}

/// Each worker keeps its first key and sends its second row, and first and last values go by place,
/// whichever piece arrived first.
pub fn first_and_last()
    ensures first { overflow two_workers 0 0 ≡ row_at 0 1 4 (7 ∷ 7 ∷ []) ∷ [] }
    ensures second { overflow two_workers 1 0 ≡ row_at 1 1 4 (9 ∷ 9 ∷ []) ∷ [] }
    ensures plan { plan two_workers 1 0 ≡ Arrive 1 ∷ [] }
    ensures second_first { replay two_workers 0 (Arrive 1 ∷ Arrive 0 ∷ []) ≡ record {
      merged = [];
      waiting = (row_at 1 1 4 (9 ∷ 9 ∷ []) ∷ []) ∷ (row_at 0 1 4 (7 ∷ 7 ∷ []) ∷ []) ∷ [];
      frames = [];
    } }
    ensures answer { shown (answer two_workers.chunks two_workers.query 1)
        ≡ numbers (1 ∷ 4 ∷ []) ∷ numbers (3 ∷ 7 ∷ []) ∷ numbers (5 ∷ 9 ∷ []) ∷ [] }
{}

/// A chunk without rows is no pick, so the dump of the third turn is the first pick.
pub fn action_of_an_empty_chunk()
    ensures first { plan empty_between 0 0 ≡ Dump 0 ∷ [] }
    ensures second { plan empty_between 0 1 ≡ [] }
    ensures replay { replay empty_between 0 (Dump 0 ∷ [])
        ≡ record { merged = []; waiting = []; frames = [] } }
{}

/// A typed sink keeps all keys and makes no event.
pub fn typed_sink()
    ensures kept { kept typed_keys 0 ≡ numbers (1 ∷ []) ∷ numbers (2 ∷ []) ∷ [] }
    ensures count { overflow_count typed_keys ≡ 0 }
    ensures plan { plan typed_keys 0 0 ≡ [] }
{}
