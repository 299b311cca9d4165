//! Worked rows, as laws over the definitions: each holds by computation.

ghost use Rattle.std.specs.Prelude.{◌≡◌, ◌∷◌, [], drop, map};
ghost use Rattle.pipe_spill.specs.FrameBytes.{rows_bytes};
ghost use Rattle.pipe_spill.specs.SpillRow.{spilled};
ghost use Rattle.pipe_spill.specs.Worked.{int64, two_row_bytes, two_rows};
ghost use Rattle.pipe_waiting.specs.ReadRows.{read_rows, read_text};
ghost use Rattle.pipe_waiting.specs.Worked.{mixed_bytes, mixed_row, mixed_types};

/// Behind the number of a frame of two rows stand these rows.
pub fn rows_of_a_frame()
    ensures both { read_rows int64 2 (drop 8 two_row_bytes) ≡ map (spilled int64) two_rows }
    ensures none { read_rows int64 0 (drop 8 two_row_bytes) ≡ [] }
{}

/// A row with a text, a truth value, a number below 0 and a null.
pub fn row_of_several_types()
    ensures read { read_rows mixed_types 1 mixed_bytes ≡ mixed_row ∷ [] }
    ensures written { rows_bytes mixed_types (mixed_row ∷ []) ≡ mixed_bytes }
{}

/// A text ends at two zero bytes, and other bytes may follow.
pub fn text_in_front()
    ensures { read_text (97 ∷ 0 ∷ 1 ∷ 0 ∷ 0 ∷ 5 ∷ []) ≡ (97 ∷ 0 ∷ [], 5 ∷ []) }
{}
