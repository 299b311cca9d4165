//! What the parts of a slice keep, and what chunks without rows change.

ghost use Rattle.std.specs.Prelude.{◌≡◌, ◌<◌, ◌^◌, ◌∷◌, ◌++◌, [], length, List, map, Option, ℕ};
ghost use Rattle.std.specs.List.{flat_map};
ghost use Rattle.pipe_columns.specs.declared.any_value.AnyValue.{AnyValue};
ghost use Rattle.pipe_columns.specs.Slice.{sliced};
ghost use Rattle.pipe_columns.specs.declared.data_chunk.DataChunk.{DataChunk};
ghost use Rattle.pipe_columns.specs.Frame.{FitsSchema};
ghost use Rattle.pipe_model.specs.Query.{QueryTree};
ghost use Rattle.pipe_model.specs.Rows.{total_height};
ghost use Rattle.pipe_sinks.specs.Runs.{placed_rows, Run, Takes};
ghost use Rattle.pipe_sinks.specs.Slices.{kept_of, parts_of};

/// The parts of a slice in lists of rows keep, one after another, what the slice keeps of all rows.
pub fn what_parts_keep()
    ensures { (slice : Option (ℕ × ℕ)) (lists : List (List (List AnyValue)))
        → kept_of (parts_of (map (λ rows. length rows) lists) slice) lists
        ≡ sliced slice (flat_map (λ rows. rows) lists) }
{}

/// A sink takes a chunk without rows whatever its index is, and its answer is then as before.
pub fn chunks_without_rows_change_nothing()
    ensures taken { (r : Run) (c : DataChunk) → FitsSchema r.query.schema c.frame
        → c.frame.height ≡ 0 → total_height r.taken < 2 ^ 32 → Takes r c }
    ensures rows { (q : QueryTree) (taken : List DataChunk) (c : DataChunk)
        → c.frame.height ≡ 0 → placed_rows q (taken ++ c ∷ []) ≡ placed_rows q taken }
{}
