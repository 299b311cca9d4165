//! Worked rows, as laws over the definitions: each holds by computation.

ghost use Rattle.std.specs.Prelude.{◌≡◌, ◌+◌, ◌%◌, ◌∷◌, [], false, true, negsuc, map, codes};
ghost use Rattle.std.specs.List.{range_with_len};
ghost use Rattle.pipe_columns.specs.declared.data_type.DataType.TheVariants as dt;
ghost use Rattle.pipe_columns.specs.declared.any_value.AnyValue.TheVariants as av;
ghost use Rattle.pipe_columns.specs.Key.{partition};
ghost use Rattle.pipe_model.specs.Answer.{answer};
ghost use Rattle.pipe_model.specs.Worked.{all_kinds, both_sums, by_key, chunk_of, chunks_of, first_and_last, int, numbers, row, shown, sum_alone, sum_and_count, sum_and_mean, sum_min_mean, text};

/// Keys 1, 2, 1 with values 5, 6, 7.
pub fn sums_and_counts()
    ensures { shown (answer (chunk_of dt.Int64 dt.Int64
        (row 1 5 ∷ row 2 6 ∷ row 1 7 ∷ []))
        (by_key dt.Int64 dt.Int64 sum_and_count) 1)
        ≡ numbers (1 ∷ 2 ∷ []) ∷ numbers (12 ∷ 6 ∷ []) ∷ numbers (2 ∷ 1 ∷ []) ∷ [] }
{}

/// No chunk: the columns without a value.
pub fn no_rows()
    ensures { answer [] (by_key dt.Int64 dt.Int64 sum_and_count) 1
        ≡ record {
          height = 0;
          columns =
              record { name = codes "k"; dtype = dt.Int64; sorted = false; values = [] } ∷
              record { name = codes "s"; dtype = dt.Int64; sorted = false; values = [] } ∷
              record { name = codes "c"; dtype = dt.UInt32; sorted = false; values = [] } ∷ [];
        } }
{}

/// Over two partitions the keys 1 and 3 lie in the first.
pub fn two_partitions()
    ensures { shown (answer (chunk_of dt.Int64 dt.Int64
        (row 1 10 ∷ row 2 20 ∷ row 3 30 ∷ row 4 40 ∷ []))
        (by_key dt.Int64 dt.Int64 sum_alone) 2)
        ≡ numbers (1 ∷ 3 ∷ 2 ∷ 4 ∷ []) ∷ numbers (10 ∷ 30 ∷ 20 ∷ 40 ∷ []) ∷ [] }
{}

/// Of two partitions a number from 0 to 255 lies in the one of its successor's parity.
pub fn partitions_of_numbers()
    ensures { map (λ k. partition 2 (dt.Int64 ∷ []) (int k ∷ [])) (range_with_len 0 256)
        ≡ map (λ k. (k + 1) % 2) (range_with_len 0 256) }
{}

/// Null is a key like others, and the least.
pub fn null_keys()
    ensures { shown (answer (chunk_of dt.Int64 dt.Int64
        ((av.Null ∷ int 1 ∷ []) ∷ row 2 2 ∷ (av.Null ∷ int 3 ∷ []) ∷ []))
        (by_key dt.Int64 dt.Int64 sum_and_count) 2)
        ≡ (av.Null ∷ int 2 ∷ []) ∷ numbers (4 ∷ 2 ∷ []) ∷ numbers (2 ∷ 1 ∷ []) ∷ [] }
{}

/// The text `a` lies in partition 0, and `b` in partition 1.
pub fn text_keys()
    ensures { shown (answer (chunk_of dt.String dt.Int64
        ((text (codes "b") ∷ int 1 ∷ []) ∷ (text (codes "a") ∷ int 2 ∷ []) ∷ []))
        (by_key dt.String dt.Int64 sum_alone) 2)
        ≡ (text (codes "a") ∷ text (codes "b") ∷ []) ∷ numbers (2 ∷ 1 ∷ []) ∷ [] }
{}

/// The values null, 5 under every aggregate.
pub fn every_aggregate()
    ensures { shown (answer (chunk_of dt.Int64 dt.Int64
        ((int 1 ∷ av.Null ∷ []) ∷ row 1 5 ∷ []))
        (by_key dt.Int64 dt.Int64 all_kinds) 1)
        ≡ (int 1 ∷ []) ∷ (av.Null ∷ []) ∷ (int 5 ∷ []) ∷ (int 1 ∷ []) ∷ (int 2 ∷ []) ∷ (int 5 ∷ [])
        ∷ (int 5 ∷ []) ∷ (int 5 ∷ []) ∷ (int 5 ∷ []) ∷ (int 1 ∷ []) ∷ [] }
{}

/// Each aggregate is fed by its own input.
pub fn inputs_of_their_own()
    ensures { shown (answer (chunk_of dt.Int64 dt.Int64
        (row 2 5 ∷ row 2 6 ∷ []))
        (by_key dt.Int64 dt.Int64 both_sums) 1)
        ≡ numbers (2 ∷ []) ∷ numbers (4 ∷ []) ∷ numbers (11 ∷ []) ∷ [] }
{}

/// A null alone: a sum of 0, no least value, and a mean of none.
pub fn only_null()
    ensures { shown (answer (chunk_of dt.Int64 dt.Int64 ((int 1 ∷ av.Null ∷ []) ∷ []))
        (by_key dt.Int64 dt.Int64 sum_min_mean) 1)
        ≡ (int 1 ∷ []) ∷ (int 0 ∷ []) ∷ (av.Null ∷ []) ∷ (av.Null ∷ []) ∷ (int 0 ∷ []) ∷ [] }
{}

/// A sum of UInt32 wraps at 2^32.
pub fn unsigned_sum_wraps()
    ensures { shown (answer (chunk_of dt.Int64 dt.UInt32
        (row 1 4294967295 ∷ row 1 1 ∷ []))
        (by_key dt.Int64 dt.UInt32 sum_alone) 1)
        ≡ (int 1 ∷ []) ∷ (int 0 ∷ []) ∷ [] }
{}

/// A sum of Int8 is one of Int64.
pub fn small_sum_is_wide()
    ensures { shown (answer (chunk_of dt.Int64 dt.Int8
        (row 1 127 ∷ row 1 1 ∷ []))
        (by_key dt.Int64 dt.Int8 sum_alone) 1)
        ≡ (int 1 ∷ []) ∷ (int 128 ∷ []) ∷ [] }
{}

/// A sum of Int64 wraps at its greatest number.
pub fn signed_sum_wraps()
    ensures { shown (answer (chunk_of dt.Int64 dt.Int64
        (row 1 9223372036854775807 ∷ row 1 1 ∷ []))
        (by_key dt.Int64 dt.Int64 sum_alone) 1)
        ≡ (int 1 ∷ []) ∷ (av.Int (negsuc 9223372036854775807) ∷ []) ∷ [] }
{}

/// A sum of Booleans counts those that are true.
pub fn boolean_sum_counts()
    ensures { shown (answer (chunk_of dt.Int64 dt.Boolean
        ((int 1 ∷ av.Boolean true ∷ []) ∷ (int 1 ∷ av.Boolean true ∷ []) ∷ []))
        (by_key dt.Int64 dt.Boolean sum_alone) 1)
        ≡ (int 1 ∷ []) ∷ (int 2 ∷ []) ∷ [] }
{}

/// A text has no sum and no mean.
pub fn text_has_no_sum()
    ensures { shown (answer (chunk_of dt.Int64 dt.String ((int 1 ∷ text (codes "x") ∷ []) ∷ []))
        (by_key dt.Int64 dt.String sum_and_mean) 1)
        ≡ (int 1 ∷ []) ∷ (av.Null ∷ []) ∷ (av.Null ∷ []) ∷ [] }
{}

/// First and last go by places, over the chunks.
pub fn first_and_last_of_chunks()
    ensures { shown (answer (chunks_of dt.Int64 dt.Int64
        ((row 1 3 ∷ row 4 7 ∷ [])
        ∷ (row 1 5 ∷ row 4 9 ∷ []) ∷ []))
        (by_key dt.Int64 dt.Int64 first_and_last) 1)
        ≡ numbers (1 ∷ 4 ∷ []) ∷ numbers (3 ∷ 7 ∷ []) ∷ numbers (5 ∷ 9 ∷ []) ∷ [] }
{}

/// A chunk without rows changes nothing.
pub fn chunk_without_rows()
    ensures { shown (answer (chunks_of dt.Int64 dt.Int64
        ((row 1 5 ∷ []) ∷ [] ∷ (row 1 6 ∷ []) ∷ []))
        (by_key dt.Int64 dt.Int64 sum_and_count) 2)
        ≡ numbers (1 ∷ []) ∷ numbers (11 ∷ []) ∷ numbers (2 ∷ []) ∷ [] }
{}

/// Keys may come in any order, nulls among them.
pub fn keys_in_any_order()
    ensures { shown (answer (chunk_of dt.Int64 dt.Int64
        (row 2 1 ∷ row 2 2 ∷ (av.Null ∷ int 3 ∷ []) ∷ row 1 4 ∷ []))
        (by_key dt.Int64 dt.Int64 sum_alone) 1)
        ≡ (av.Null ∷ int 1 ∷ int 2 ∷ []) ∷ numbers (3 ∷ 4 ∷ 3 ∷ []) ∷ [] }
{}
