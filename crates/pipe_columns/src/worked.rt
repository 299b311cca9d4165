//! Worked values, as laws over the definitions: each holds by computation.

ghost use Rattle.std.specs.Prelude.{◌≡◌, ◌∷◌, ℕ, [], false, pos, negsuc, true, codes, Some, None};
ghost use Rattle.std.specs.declared.cmp.Ordering.TheVariants.{Less, Greater};
ghost use Rattle.pipe_columns.specs.declared.data_type.DataType.TheVariants as dt;
ghost use Rattle.pipe_columns.specs.declared.any_value.AnyValue.TheVariants as av;
ghost use Rattle.pipe_columns.specs.AnyValue.{fits, value_cmp};
ghost use Rattle.pipe_columns.specs.Frame.{frame_of, row_at};
ghost use Rattle.pipe_columns.specs.Groups.{sorted_keys, values_of};
ghost use Rattle.pipe_columns.specs.Key.{code, fold_bytes, partition};
ghost use Rattle.pipe_columns.specs.Place.{first_entry, last_entry};
ghost use Rattle.pipe_columns.specs.Pieces.{pieces};
ghost use Rattle.pipe_columns.specs.Slice.{sliced};
ghost use Rattle.std.specs.Ordering.{nat_cmp};

/// The bytes of keys: -1 of Int8, true, the text `a`, a text with a zero byte, and a tuple.
pub fn key_codes()
    ensures small { code (dt.Int8 ∷ []) (av.Int (negsuc 0) ∷ []) ≡ 0x01 ∷ 0x7f ∷ [] }
    ensures truth { code (dt.Boolean ∷ []) (av.Boolean true ∷ []) ≡ 0x01 ∷ 0x01 ∷ [] }
    ensures letter { code (dt.String ∷ []) (av.Text (codes "a") ∷ [])
        ≡ 0x01 ∷ 0x61 ∷ 0x00 ∷ 0x00 ∷ [] }
    ensures zero_byte { code (dt.String ∷ []) (av.Text (0x61 ∷ 0x00 ∷ 0x62 ∷ []) ∷ [])
        ≡ 0x01 ∷ 0x61 ∷ 0x00 ∷ 0x01 ∷ 0x62 ∷ 0x00 ∷ 0x00 ∷ [] }
    ensures tuple { code (dt.Int64 ∷ dt.Int16 ∷ []) (av.Null ∷ av.Int (pos 258) ∷ [])
        ≡ 0x00 ∷ 0x01 ∷ 0x81 ∷ 0x02 ∷ [] }
{}

/// The numbers of the texts `a` and `b` as keys, and the partitions in which they lie.
pub fn key_numbers()
    ensures first { fold_bytes (code (dt.String ∷ []) (av.Text (codes "a") ∷ [])) ≡ 123008 }
    ensures second { fold_bytes (code (dt.String ∷ []) (av.Text (codes "b") ∷ [])) ≡ 123969 }
    ensures first_of_16 { partition 16 (dt.String ∷ []) (av.Text (codes "a") ∷ []) ≡ 0 }
    ensures second_of_16 { partition 16 (dt.String ∷ []) (av.Text (codes "b") ∷ []) ≡ 1 }
{}

/// Null is least, false comes before true, numbers go by value and texts by their bytes.
pub fn order_of_values()
    ensures null { value_cmp av.Null (av.Boolean false) ≡ Less }
    ensures null_and_number { value_cmp (av.Int (negsuc 0)) av.Null ≡ Greater }
    ensures truth { value_cmp (av.Boolean false) (av.Boolean true) ≡ Less }
    ensures numbers { value_cmp (av.Int (negsuc 9)) (av.Int (pos 2)) ≡ Less }
    ensures texts { value_cmp (av.Text (codes "b")) (av.Text (codes "ab")) ≡ Greater }
{}

/// The edges of types.
pub fn edges_of_types()
    ensures least { fits (av.Int (negsuc 127)) dt.Int8 ≡ true }
    ensures below { fits (av.Int (negsuc 128)) dt.Int8 ≡ false }
    ensures above { fits (av.Int (pos 128)) dt.Int8 ≡ false }
    ensures unsigned { fits (av.Int (negsuc 0)) dt.UInt64 ≡ false }
    ensures day { fits (av.Int (pos 2147483648)) dt.Date ≡ false }
    ensures null { fits av.Null dt.Boolean ≡ true }
{}

/// The first entry and the last are those at the least and the greatest place.
pub fn entries_by_place()
    ensures first { first_entry {V = ℕ}
        ((record { chunk = 1; row = 0 }, 7) ∷ (record { chunk = 0; row = 9 }, 8) ∷ [])
        ≡ Some (record { chunk = 0; row = 9 }, 8) }
    ensures last { last_entry {V = ℕ}
        ((record { chunk = 1; row = 0 }, 7) ∷ (record { chunk = 0; row = 9 }, 8) ∷ [])
        ≡ Some (record { chunk = 1; row = 0 }, 7) }
{}

/// Distinct keys ascend, and each has the values that stand at it.
pub fn keys_and_values()
    ensures keys { sorted_keys nat_cmp (3 ∷ 1 ∷ 3 ∷ 2 ∷ []) ≡ 1 ∷ 2 ∷ 3 ∷ [] }
    ensures values { values_of {V = ℕ} nat_cmp 3 ((3, 5) ∷ (1, 6) ∷ (3, 7) ∷ []) ≡ 5 ∷ 7 ∷ [] }
{}

/// A list is cut into pieces, the last perhaps shorter, and an empty one into none.
pub fn pieces_of_two()
    ensures some { pieces {A = ℕ} 2 (5 ∷ 6 ∷ 7 ∷ []) ≡ (5 ∷ 6 ∷ []) ∷ (7 ∷ []) ∷ [] }
    ensures none { pieces {A = ℕ} 2 [] ≡ [] }
{}

/// A slice drops before it keeps.
pub fn slices()
    ensures inside { sliced {X = ℕ} (Some (1, 2)) (5 ∷ 6 ∷ 7 ∷ 8 ∷ []) ≡ 6 ∷ 7 ∷ [] }
    ensures past_the_end { sliced {X = ℕ} (Some (3, 10)) (5 ∷ 6 ∷ 7 ∷ 8 ∷ []) ≡ 8 ∷ [] }
    ensures whole { sliced {X = ℕ} None (5 ∷ 6 ∷ []) ≡ 5 ∷ 6 ∷ [] }
{}

/// A frame of rows has them back.
pub fn rows_of_a_frame()
    ensures { row_at (frame_of
        (record { name = codes "k"; dtype = dt.Int64 }
        ∷ record { name = codes "v"; dtype = dt.String } ∷ [])
        ((av.Int (pos 1) ∷ av.Null ∷ [])
        ∷ (av.Int (pos 2) ∷ av.Text (codes "x") ∷ []) ∷ [])).columns 1
        ≡ av.Int (pos 2) ∷ av.Text (codes "x") ∷ [] }
{}
