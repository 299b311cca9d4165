//! Worked states, as laws over the definitions: each holds by computation.

ghost use Rattle.std.specs.Prelude.{◌≡◌, ◌∷◌, ◌++◌, [], false, true, length, map, pos, negsuc};
ghost use Rattle.pipe_columns.specs.declared.any_value.AnyValue.TheVariants as av;
ghost use Rattle.pipe_columns.specs.declared.data_type.DataType.TheVariants as dt;
ghost use Rattle.pipe_model.specs.Kind as kind;
ghost use Rattle.pipe_model.specs.Worked.{all_kinds, by_key, int, numbers, shown};
ghost use Rattle.pipe_states.specs.Fair.{can_give};
ghost use Rattle.pipe_states.specs.Parts.{saved};
ghost use Rattle.pipe_states.specs.Ranges.{share_number};
ghost use Rattle.pipe_states.specs.Regrouped.{merged_states, regrouped, regrouped_agg};
ghost use Rattle.pipe_states.specs.StateText.{state_text};
ghost use Rattle.pipe_states.specs.Worked.{by_two, front_of_mean, mean_by_key, part_a, part_b, state_a, state_of_both, state_of_mean, state_of_row, three_parts};

/// The state of three rows of three keys, and its 217 bytes.
pub fn state_of_three_rows()
    ensures rows { saved by_two part_a ≡ state_a }
    ensures size { length (state_text by_two state_a) ≡ 217 }
{}

/// Two states regrouped by the first key, in either order: the first value is the one at the least
/// place.
pub fn states_by_one_key()
    ensures in_order { shown (regrouped by_two
        (saved by_two part_a ∷ saved by_two part_b ∷ []) (0 ∷ []))
        ≡ numbers (1 ∷ 2 ∷ []) ∷ numbers (20 ∷ 7 ∷ []) ∷ numbers (5 ∷ 7 ∷ []) ∷ [] }
    ensures turned { shown (regrouped by_two
        (saved by_two part_b ∷ saved by_two part_a ∷ []) (0 ∷ []))
        ≡ numbers (1 ∷ 2 ∷ []) ∷ numbers (20 ∷ 7 ∷ []) ∷ numbers (5 ∷ 7 ∷ []) ∷ [] }
    ensures alone { shown (regrouped by_two (saved by_two part_a ∷ []) (0 ∷ []))
        ≡ numbers (1 ∷ 2 ∷ []) ∷ numbers (11 ∷ 7 ∷ []) ∷ numbers (5 ∷ 7 ∷ []) ∷ [] }
{}

/// Every aggregate of three states, which needn't come in the order of their places: of the values
/// null, 5, 3, null.
pub fn every_aggregate()
    ensures { shown (regrouped (by_key dt.Int64 dt.Int64 all_kinds)
        (map (saved (by_key dt.Int64 dt.Int64 all_kinds)) three_parts) (0 ∷ []))
        ≡ (int 1 ∷ []) ∷ (av.Null ∷ []) ∷ (av.Null ∷ []) ∷ (int 2 ∷ []) ∷ (int 4 ∷ [])
        ∷ (int 8 ∷ []) ∷ (int 3 ∷ []) ∷ (int 5 ∷ []) ∷ (int 8 ∷ []) ∷ (int 2 ∷ []) ∷ [] }
{}

/// A sum wraps again where states come together, and a sum of texts stays null.
pub fn sums_of_states()
    ensures wraps { regrouped_agg kind.sum dt.UInt32 0
        (state_of_row 1 1 0 0 0 0 1 4294967295 0 ∷ state_of_row 1 1 0 1 0 1 1 3 0 ∷ [])
        ≡ int 2 ∷ [] }
    ensures texts { regrouped_agg kind.sum dt.String 0
        (state_of_row 1 1 0 0 0 0 1 0 0 ∷ []) ≡ av.Null ∷ [] }
{}

/// The text of a mean: a sum of -1 is -1 times 2^64 and the greatest low half; a sum that is null
/// has halves that are.
pub fn text_of_mean()
    ensures below { state_text mean_by_key (state_of_mean (av.Int (negsuc 0)) (int 1))
        ≡ front_of_mean ++ (1 ∷ 127 ∷ 255 ∷ 255 ∷ 255 ∷ 255 ∷ 255 ∷ 255 ∷ 255
        ∷ 1 ∷ 255 ∷ 255 ∷ 255 ∷ 255 ∷ 255 ∷ 255 ∷ 255 ∷ 255 ∷ 1 ∷ 0 ∷ 0 ∷ 0 ∷ 1 ∷ []) }
    ensures none { state_text mean_by_key (state_of_mean av.Null (int 0))
        ≡ front_of_mean ++ (0 ∷ 0 ∷ 1 ∷ 0 ∷ 0 ∷ 0 ∷ 0 ∷ []) }
{}

/// What a state of a query may hold of an aggregate of two rows.
pub fn results_that_can_be()
    ensures length { can_give kind.len dt.UInt32 2 (int 1) av.Null ≡ false }
    ensures count { can_give kind.count dt.Int64 2 (int 3) av.Null ≡ false }
    ensures no_count { can_give kind.count dt.Int64 2 av.Null av.Null ≡ false }
    ensures no_sum { can_give kind.sum dt.Int64 2 av.Null av.Null ≡ false }
    ensures sum_of_texts { can_give kind.sum dt.String 2 av.Null av.Null ≡ true }
    ensures mean { can_give kind.mean dt.Int64 2 (av.Int (negsuc 6)) (int 2) ≡ true }
    ensures mean_of_none { can_give kind.mean dt.Int64 2 av.Null (int 0) ≡ true }
    ensures no_mean { can_give kind.mean dt.Int64 2 av.Null (int 1) ≡ false }
    ensures mean_without { can_give kind.mean dt.Int64 2 (int 7) (int 0) ≡ false }
    ensures wide_mean { can_give kind.mean dt.Int64 2
        (av.Int (pos 18446744073709551617)) (int 1) ≡ false }
{}

/// Two states as one.
pub fn two_states_merged()
    ensures { merged_states by_two (saved by_two part_a ∷ saved by_two part_b ∷ [])
        ≡ state_of_both }
{}

/// Ranges that touch share no number, nor does a range without a number.
pub fn ranges_that_share()
    ensures same { share_number 0 1 0 1 ≡ true }
    ensures touch { share_number 0 1 1 2 ≡ false }
    ensures cross { share_number 0 3 2 5 ≡ true }
    ensures within { share_number 2 3 0 9 ≡ true }
    ensures empty { share_number 2 2 0 9 ≡ false }
{}
