//! Worked runs at the edges of limits, as laws over the definitions: each holds by computation.

ghost use Rattle.std.specs.Prelude.{◌≡◌, ◌-◌, ◌^◌, ◌∷◌, [], codes, map, replicate};
ghost use Rattle.std.specs.List.{range_with_len};
ghost use Rattle.pipe_model.specs.Answer.{answer};
ghost use Rattle.pipe_model.specs.Worked.{numbers, shown, text};
ghost use Rattle.pipe_plan.specs.declared.event.PartitionEvent.TheVariants.{Arrive, Dump, Merge};
ghost use Rattle.pipe_plan.specs.Overflow.{overflow_count};
ghost use Rattle.pipe_plan.specs.Plan.{plan};
ghost use Rattle.pipe_plan.specs.Replay.{replay};
ghost use Rattle.pipe_plan.specs.WorkedRuns.{keys_alone, many_workers, merges_by_rule, merges_in_turn, numbers_chunk, row_at, text_keys, three_keys, two_rules};

/// Text keys of two partitions: the second key lies in partition 1, and is sent there.
pub fn overflow_of_text_keys()
    ensures first { plan text_keys 0 0 ≡ [] }
    ensures second { plan text_keys 0 1 ≡ Arrive 0 ∷ [] }
    ensures answer { shown (answer text_keys.chunks text_keys.query 2)
        ≡ (text (codes "Aa") ∷ text (codes "BB") ∷ []) ∷ numbers (5 ∷ 2 ∷ []) ∷ [] }
{}

/// The greatest spill size keeps all keys.
pub fn greatest_spill_size()
    ensures plan { plan (three_keys (2 ^ 64 - 1) 2048) 0 0 ≡ [] }
    ensures count { overflow_count (three_keys (2 ^ 64 - 1) 2048) ≡ 0 }
{}

/// The greatest buffer is never full, so its rows arrive at the end.
pub fn greatest_buffer()
    ensures plan { plan (three_keys 0 (2 ^ 64 - 1)) 0 0 ≡ Arrive 0 ∷ [] }
    ensures count { overflow_count (three_keys 0 (2 ^ 64 - 1)) ≡ 2 }
{}

/// Of 256 workers one has a chunk.
pub fn more_workers_than_chunks()
    ensures { map
        (λ w. plan (many_workers (numbers_chunk ((1, 1) ∷ (2, 1) ∷ []) ∷ [])) w 0)
        (range_with_len 0 256) ≡ (Arrive 0 ∷ []) ∷ replicate 255 [] }
{}

/// Without a chunk no worker makes an event, and the answer has no row.
pub fn no_chunk()
    ensures plans { map (λ w. plan (many_workers []) w 0) (range_with_len 0 256)
        ≡ replicate 256 [] }
    ensures answer { shown (answer [] (many_workers []).query 1) ≡ [] ∷ [] ∷ [] }
{}

/// Picks take the partitions in turn.
pub fn picks_in_turn()
    ensures first { plan merges_in_turn 0 0 ≡ Merge 0 ∷ Merge 0 ∷ [] }
    ensures second { plan merges_in_turn 0 1 ≡ Merge 0 ∷ Merge 0 ∷ [] }
    ensures third { plan merges_in_turn 0 2 ≡ Merge 0 ∷ [] }
{}

/// A rule does what a list of its action does that is as long as the run.
pub fn merges_of_a_rule()
    ensures { map (plan merges_by_rule 0) (range_with_len 0 3)
        ≡ map (plan merges_in_turn 0) (range_with_len 0 3) }
{}

/// Each worker has its own rule, which begins where its list ends.
pub fn rules_of_two_workers()
    ensures first { plan two_rules 0 0 ≡ Merge 0 ∷ Merge 0 ∷ Merge 0 ∷ [] }
    ensures second { plan two_rules 1 0 ≡ Dump 1 ∷ [] }
{}

/// Rows without an aggregate are spilled like others.
pub fn no_aggregate()
    ensures plan { plan keys_alone 0 0 ≡ Arrive 0 ∷ Dump 0 ∷ [] }
    ensures replay { replay keys_alone 0 (Arrive 0 ∷ Dump 0 ∷ []) ≡ record {
      merged = [];
      waiting = [];
      frames = (row_at 0 2 2 [] ∷ []) ∷ [];
    } }
    ensures answer { shown (answer keys_alone.chunks keys_alone.query 1)
        ≡ numbers (1 ∷ 2 ∷ []) ∷ [] }
{}
