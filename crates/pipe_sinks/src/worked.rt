//! Worked rows: each contract is an instance of a definition, which the check computes.

ghost use Rattle.std.specs.Prelude.{◌≡◌, ◌∷◌, [], None, Some};
ghost use Rattle.pipe_sinks.specs.Slices.{parts_of};

/// Slices over two partitions and over one.
pub fn slices_over_partitions()
    ensures across { parts_of (5 ∷ 6 ∷ []) (Some (3, 4)) ≡ Some (3, 2) ∷ Some (0, 2) ∷ [] }
    ensures past_the_end { parts_of (5 ∷ []) (Some (2, 10)) ≡ Some (2, 3) ∷ [] }
    ensures behind_the_first { parts_of (5 ∷ 6 ∷ []) (Some (5, 4)) ≡ None ∷ Some (0, 4) ∷ [] }
    ensures whole { parts_of (5 ∷ 0 ∷ []) None ≡ Some (0, 5) ∷ Some (0, 0) ∷ [] }
{}
