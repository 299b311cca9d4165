//! Worked rows, as laws over the definitions: each holds by computation.

ghost use Rattle.std.specs.Prelude.{◌≡◌, ◌∷◌, ◌++◌, [], false, true, negsuc, codes};
ghost use Rattle.pipe_columns.specs.declared.any_value.AnyValue.TheVariants as av;
ghost use Rattle.pipe_columns.specs.Frame.{frame_of};
ghost use Rattle.pipe_writers.specs.JsonText.{json_line, json_string, json_text};
ghost use Rattle.pipe_writers.specs.Kept.{ordered_frame, slice_of_ordered};
ghost use Rattle.pipe_writers.specs.Worked.{chunk_of, int, one_text, text_row};
ghost use Rattle.pipe_writers.specs.WriteOrder.{write_order};

/// Lines of JSON.
pub fn lines_of_json()
    ensures row { json_line (codes "k" ∷ codes "s" ∷ codes "c" ∷ [])
        (int 1 ∷ int 12 ∷ int 2 ∷ []) ≡ codes "{\"k\":1,\"s\":12,\"c\":2}\n" }
    ensures values { json_line (codes "a" ∷ codes "b" ∷ codes "c" ∷ [])
        (av.Null ∷ av.Boolean true ∷ av.Int (negsuc 4) ∷ [])
        ≡ codes "{\"a\":null,\"b\":true,\"c\":-5}\n" }
    ensures escapes { json_string (codes "a\"b\\c\n") ≡ codes "\"a\\\"b\\\\c\\n\"" }
    ensures control { json_string (1 ∷ 31 ∷ 127 ∷ []) ≡ codes "\"\\u0001\\u001f" ++ (127 ∷ 34 ∷ []) }
    ensures no_column { json_line [] [] ≡ codes "{}\n" }
{}

/// Pieces of two chunks by their numbers, and as they came.
pub fn order_of_chunks()
    ensures maintained { write_order (chunk_of 3 (text_row (codes "c") ∷ [])
        ∷ chunk_of 1 (text_row (codes "a") ∷ []) ∷ chunk_of 0 (text_row (codes "b") ∷ []) ∷ [])
        2 true
        ≡ chunk_of 1 (text_row (codes "a") ∷ []) ∷ chunk_of 3 (text_row (codes "c") ∷ [])
        ∷ chunk_of 0 (text_row (codes "b") ∷ []) ∷ [] }
    ensures arrival { write_order (chunk_of 3 (text_row (codes "c") ∷ [])
        ∷ chunk_of 1 (text_row (codes "a") ∷ []) ∷ chunk_of 0 (text_row (codes "b") ∷ []) ∷ [])
        2 false
        ≡ chunk_of 3 (text_row (codes "c") ∷ []) ∷ chunk_of 1 (text_row (codes "a") ∷ [])
        ∷ chunk_of 0 (text_row (codes "b") ∷ []) ∷ [] }
    ensures ties { write_order (chunk_of 2 (text_row (codes "x") ∷ [])
        ∷ chunk_of 1 [] ∷ chunk_of 2 (text_row (codes "y") ∷ []) ∷ []) 2 true
        ≡ chunk_of 2 (text_row (codes "x") ∷ []) ∷ chunk_of 2 (text_row (codes "y") ∷ []) ∷ [] }
{}

/// Kept chunks by their numbers, and a slice of three chunks of two rows.
pub fn frames_of_kept_chunks()
    ensures ordered { ordered_frame one_text (chunk_of 2 (text_row (codes "c") ∷ [])
        ∷ chunk_of 0 (text_row (codes "a") ∷ []) ∷ chunk_of 1 [] ∷ [])
        ≡ frame_of one_text (text_row (codes "a") ∷ text_row (codes "c") ∷ []) }
    ensures none { ordered_frame one_text [] ≡ frame_of one_text [] }
    ensures sliced { slice_of_ordered 1 2 one_text
        (chunk_of 1 (text_row (codes "c") ∷ text_row (codes "d") ∷ [])
        ∷ chunk_of 0 (text_row (codes "a") ∷ text_row (codes "b") ∷ []) ∷ [])
        ≡ frame_of one_text (text_row (codes "b") ∷ text_row (codes "c") ∷ []) }
{}
