//! Worked rows, as laws over the definitions: each holds by computation.

ghost use Rattle.std.specs.Prelude.{◌≡◌, ◌∷◌, [], Some, ℕ};
ghost use Rattle.pipe_columns.specs.Slice.{sliced};
ghost use Rattle.pipe_groups.specs.Given.{slice_after};

/// What slices take of five groups.
pub fn what_slices_take()
    ensures front { sliced {X = ℕ} (Some (0, 2)) (4 ∷ 3 ∷ 2 ∷ 1 ∷ 0 ∷ []) ≡ 4 ∷ 3 ∷ [] }
    ensures end { sliced {X = ℕ} (Some (3, 4)) (4 ∷ 3 ∷ 2 ∷ 1 ∷ 0 ∷ []) ≡ 1 ∷ 0 ∷ [] }
    ensures none { sliced {X = ℕ} (Some (7, 4)) (4 ∷ 3 ∷ 2 ∷ 1 ∷ 0 ∷ []) ≡ [] }
    ensures most { sliced {X = ℕ} (Some (1, 9)) (4 ∷ 3 ∷ 2 ∷ 1 ∷ 0 ∷ []) ≡ 3 ∷ 2 ∷ 1 ∷ 0 ∷ [] }
{}

/// What is left of slices behind five groups.
pub fn what_slices_leave()
    ensures front { slice_after 5 (Some (0, 2)) ≡ Some (0, 0) }
    ensures end { slice_after 5 (Some (3, 4)) ≡ Some (0, 2) }
    ensures none { slice_after 5 (Some (7, 4)) ≡ Some (2, 4) }
    ensures most { slice_after 5 (Some (1, 9)) ≡ Some (0, 5) }
{}
