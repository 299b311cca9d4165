//! Worked summaries, as laws over the definitions: each holds by computation.

ghost use Rattle.std.specs.Prelude.{◌≡◌, ◌∷◌, [], Some};
ghost use Rattle.pipe_model.specs.Worked.{numbers, shown};
ghost use Rattle.pipe_states.specs.Parts.{saved};
ghost use Rattle.pipe_states.specs.Worked.{by_two, part_a, part_b};
ghost use Rattle.pipe_summary.specs.InTurn.{FollowFrom};
ghost use Rattle.pipe_summary.specs.Summed.{summed};

/// The states of three rows and of one more, which joins the first group: in turn, and what they
/// come to, all of it and the second group alone.
pub fn two_states_of_a_summary()
    ensures in_turn { FollowFrom 0 (saved by_two part_a ∷ saved by_two part_b ∷ []) }
    ensures all { shown (summed by_two (saved by_two part_a ∷ saved by_two part_b ∷ []))
        ≡ numbers (1 ∷ 1 ∷ 2 ∷ []) ∷ numbers (1 ∷ 2 ∷ 1 ∷ []) ∷ numbers (14 ∷ 6 ∷ 7 ∷ [])
        ∷ numbers (5 ∷ 6 ∷ 7 ∷ []) ∷ [] }
    ensures sliced { shown (summed (record by_two { slice = Some (1, 1) })
        (saved by_two part_a ∷ saved by_two part_b ∷ []))
        ≡ numbers (1 ∷ []) ∷ numbers (2 ∷ []) ∷ numbers (6 ∷ []) ∷ numbers (6 ∷ []) ∷ [] }
{}
