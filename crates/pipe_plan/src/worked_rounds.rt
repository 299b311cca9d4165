//! Worked runs in rounds, as laws over the definitions: each holds by computation.

ghost use Rattle.std.specs.Prelude.{◌≡◌, ◌∷◌, []};
ghost use Rattle.pipe_model.specs.Answer.{answer};
ghost use Rattle.pipe_model.specs.Worked.{numbers, shown};
ghost use Rattle.pipe_plan.specs.declared.event.PartitionEvent.TheVariants.{Arrive, Dump};
ghost use Rattle.pipe_plan.specs.Payloads.{payloads};
ghost use Rattle.pipe_plan.specs.Plan.{plan};
ghost use Rattle.pipe_plan.specs.Replay.{replay};
ghost use Rattle.pipe_plan.specs.WorkedRuns.{both_rounds, first_round, in_rounds, left_open, row_at};

/// While more chunks may follow, rows that fill no piece stay back: the first dump finds nothing.
pub fn two_rounds()
    ensures first { plan (left_open (in_rounds 2 first_round)) 0 0 ≡ Dump 0 ∷ [] }
    ensures stays_back { payloads (left_open (in_rounds 2 first_round)) 0 0 ≡ [] }
    ensures nothing { replay (left_open (in_rounds 2 first_round)) 0 (Dump 0 ∷ [])
        ≡ record { merged = []; waiting = []; frames = [] } }
    ensures second { plan (left_open (in_rounds 2 both_rounds)) 0 0
        ≡ Dump 0 ∷ Arrive 0 ∷ Dump 0 ∷ [] }
    ensures closed { plan (in_rounds 2 both_rounds) 0 0 ≡ Dump 0 ∷ Arrive 0 ∷ Dump 0 ∷ [] }
    ensures replay { replay (in_rounds 2 both_rounds) 0 (Dump 0 ∷ Arrive 0 ∷ Dump 0 ∷ []) ≡ record {
      merged = [];
      waiting = [];
      frames = (row_at 0 1 2 (6 ∷ []) ∷ row_at 1 0 2 (7 ∷ []) ∷ []) ∷ [];
    } }
    ensures answer { shown (answer both_rounds (in_rounds 2 both_rounds).query 1)
        ≡ numbers (1 ∷ 2 ∷ []) ∷ numbers (5 ∷ 13 ∷ []) ∷ [] }
{}

/// Closed after the first round, the run sends what no piece took.
pub fn closed_after_the_first()
    ensures plan { plan (in_rounds 2 first_round) 0 0 ≡ Dump 0 ∷ Arrive 0 ∷ [] }
    ensures rest { payloads (in_rounds 2 first_round) 0 0
        ≡ (row_at 0 1 2 (6 ∷ []) ∷ []) ∷ [] }
{}

/// A round whose pieces are all full puts its frame, whatever the next round brings.
pub fn full_round()
    ensures plan { plan (left_open (in_rounds 1 first_round)) 0 0 ≡ Arrive 0 ∷ Dump 0 ∷ [] }
    ensures puts { (replay (left_open (in_rounds 1 first_round)) 0 (Arrive 0 ∷ Dump 0 ∷ [])).frames
        ≡ (row_at 0 1 2 (6 ∷ []) ∷ []) ∷ [] }
{}
