//! What groups give that hold the rows of one partition, and what the groups of all partitions give
//! together.

ghost use Rattle.std.specs.Prelude.{◌≡◌, ◌<◌, ◌%◌, ◌==◌, ◌++◌, if◌then◌else◌, List, map, None, Option, ℕ};
ghost use Rattle.std.specs.List.{flat_map, IsDistinct, range_with_len};
ghost use Rattle.std.specs.Ordering.{eq_by_cmp};
ghost use Rattle.std.specs.Str.{bytes_eq};
ghost use Rattle.pipe_columns.specs.declared.any_value.AnyValue.{AnyValue};
ghost use Rattle.pipe_columns.specs.declared.place.Place.{Place};
ghost use Rattle.pipe_columns.specs.Frame.{frame_of, FrameData, stacked};
ghost use Rattle.pipe_columns.specs.Groups.{HaveSameElements};
ghost use Rattle.pipe_columns.specs.Key.{fold_bytes};
ghost use Rattle.pipe_columns.specs.Row.{Row};
ghost use Rattle.pipe_columns.specs.Slice.{sliced};
ghost use Rattle.pipe_model.specs.Answer.{answer_row, tuple_cmp};
ghost use Rattle.pipe_model.specs.Output.{output_schema};
ghost use Rattle.pipe_model.specs.Partitions.{groups_in, rows_in};
ghost use Rattle.pipe_model.specs.Query.{QueryTree};
ghost use Rattle.pipe_model.specs.Rows.{HaveDistinctPlaces};
ghost use Rattle.pipe_groups.specs.Given.{in_order, IsFrameOfGroups};
ghost use Rattle.pipe_groups.specs.Groups.{Group, held_at, group_keys};
ghost use Rattle.pipe_groups.specs.QueryRows.{ArePlaced, ArePlacedRows, HoldRowsOf};
ghost use Rattle.pipe_groups.specs.Shape.{shape_of};

/// What the groups of a partition hold, where they are those of its keys: its rows. And what they
/// give: the rows of the answer for its keys.
pub fn what_a_partition_gives()
    ensures holds { (q : QueryTree) (partitions p : ℕ) (rs : List Row) (gs part : List Group)
        → HoldRowsOf q gs rs → IsDistinct bytes_eq (group_keys part)
        → ((k : List ℕ) → held_at k part
        ≡ (if fold_bytes k % partitions == p then held_at k gs else None))
        → HoldRowsOf q part (rows_in partitions q p rs) }
    ensures rows { (q : QueryTree) (partitions p : ℕ) (rs : List Row) (gs : List Group)
        → HoldRowsOf q gs (rows_in partitions q p rs) → HaveDistinctPlaces rs
        → (slice : Option (ℕ × ℕ)) (f : FrameData)
        → IsFrameOfGroups (shape_of q) (sliced slice (in_order gs)) f
        → f ≡ frame_of (output_schema q)
        (map (answer_row q rs) (sliced slice (groups_in partitions q p rs))) }
    ensures placed { (q : QueryTree) (partitions p : ℕ) (rs : List Row) (gs : List Group)
        → HoldRowsOf q gs (rows_in partitions q p rs) → HaveDistinctPlaces rs
        → (frame : FrameData) (firsts : List Place) → ArePlaced (shape_of q) gs frame firsts
        → ArePlacedRows q rs (groups_in partitions q p rs) frame firsts }
{}

/// How placed rows are joined, and that the keys of all partitions are those of the rows, each once.
pub fn how_placed_rows_join()
    ensures joined { (q : QueryTree) (rs : List Row) (keys others : List (List AnyValue))
        (f g : FrameData) (firsts more : List Place) → ArePlacedRows q rs keys f firsts
        → ArePlacedRows q rs others g more
        → ArePlacedRows q rs (keys ++ others) (stacked f g) (firsts ++ more) }
    ensures keys { (q : QueryTree) (rs : List Row) (partitions : ℕ) → 0 < partitions
        → HaveSameElements
        (flat_map (λ p. groups_in partitions q p rs) (range_with_len 0 partitions))
        (map (λ r. r.key) rs) }
    ensures once { (q : QueryTree) (rs : List Row) (partitions : ℕ) → 0 < partitions
        → IsDistinct (eq_by_cmp tuple_cmp)
        (flat_map (λ p. groups_in partitions q p rs) (range_with_len 0 partitions)) }
{}
