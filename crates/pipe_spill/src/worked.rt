//! Worked frames and calls, as laws over the definitions: each holds by computation.

ghost use Rattle.std.specs.Prelude.{◌≡◌, ◌∷◌, [], false, length, map, true};
ghost use Rattle.pipe_columns.specs.Calls.{after_call, is_listed, no_calls};
ghost use Rattle.pipe_spill.specs.FrameBytes.{frame_bytes};
ghost use Rattle.pipe_spill.specs.SpillRow.{joined_rows, payload_of, spilled};
ghost use Rattle.pipe_spill.specs.Worked.{int64, row_of, two_row_bytes, two_rows};

/// Two rows of the key 2, with the inputs 6 and 7, are spilled as a frame of 76 bytes.
pub fn frame_of_two_rows()
    ensures bytes { frame_bytes int64 (map (spilled int64) two_rows) ≡ two_row_bytes }
    ensures size { length two_row_bytes ≡ 76 }
{}

/// The frame of no rows is eight zero bytes.
pub fn frame_of_no_rows()
    ensures { frame_bytes int64 [] ≡ 0 ∷ 0 ∷ 0 ∷ 0 ∷ 0 ∷ 0 ∷ 0 ∷ 0 ∷ [] }
{}

/// Two payloads of one row each, between them one without rows, have the frame of the two rows.
pub fn frame_of_payloads()
    ensures { frame_bytes int64 (joined_rows
        (payload_of int64 (row_of 1 2 6 ∷ []) ∷ payload_of int64 []
        ∷ payload_of int64 (row_of 2 2 7 ∷ []) ∷ [])) ≡ two_row_bytes }
{}

/// Of calls numbered from 0 the one listed fails, and each call past the last number has it too.
pub fn calls_that_fail()
    ensures first { is_listed (no_calls (1 ∷ [])) ≡ false }
    ensures second { is_listed (after_call (no_calls (1 ∷ []))) ≡ true }
    ensures counted { after_call (after_call (no_calls (1 ∷ [])))
        ≡ record { failing = 1 ∷ []; next = 2; faults = 1 } }
    ensures last { after_call (record {
      failing = 18446744073709551615 ∷ [];
      next = 18446744073709551615;
      faults = 7;
    })
        ≡ record { failing = 18446744073709551615 ∷ []; next = 18446744073709551615; faults = 8 } }
{}
