//! Worked rows of slices and kept order, as laws over the definitions: each holds by computation.

ghost use Rattle.std.specs.Prelude.{◌≡◌, ◌∷◌, []};
ghost use Rattle.std.specs.List.{range_with_len};
ghost use Rattle.pipe_columns.specs.declared.data_type.DataType.TheVariants as dt;
ghost use Rattle.pipe_model.specs.Answer.{answer};
ghost use Rattle.pipe_model.specs.Worked.{by_key, chunk_of, chunks_of, each_with_one, in_order, numbers, row, shown, sum_alone, with_slice};

/// Of two partitions with the keys 0 to 10, the groups 3 to 6.
pub fn slice_across_partitions()
    ensures { shown (answer (chunk_of dt.Int64 dt.Int64 (each_with_one (range_with_len 0 11)))
        (with_slice 3 4 (by_key dt.Int64 dt.Int64 [])) 2)
        ≡ numbers (7 ∷ 9 ∷ 0 ∷ 2 ∷ []) ∷ [] }
{}

/// A slice may reach past the last group.
pub fn slice_past_the_end()
    ensures { shown (answer (chunk_of dt.Int64 dt.Int64 (each_with_one (range_with_len 1 5)))
        (with_slice 2 10 (by_key dt.Int64 dt.Int64 [])) 1)
        ≡ numbers (3 ∷ 4 ∷ 5 ∷ []) ∷ [] }
{}

/// A slice behind the last group is empty.
pub fn slice_of_nothing()
    ensures { shown (answer (chunk_of dt.Int64 dt.Int64 (each_with_one (range_with_len 0 11)))
        (with_slice 11 1 (by_key dt.Int64 dt.Int64 [])) 2)
        ≡ [] ∷ [] }
{}

/// Kept order is that of the first rows, whatever the partitions.
pub fn order_of_first_rows()
    ensures { shown (answer (chunk_of dt.Int64 dt.Int64
        (row 4 1 ∷ row 1 2 ∷ row 2 3 ∷ row 1 4 ∷ []))
        (in_order (by_key dt.Int64 dt.Int64 sum_alone)) 2)
        ≡ numbers (4 ∷ 1 ∷ 2 ∷ []) ∷ numbers (1 ∷ 6 ∷ 3 ∷ []) ∷ [] }
{}

/// A slice of kept order.
pub fn slice_of_kept_order()
    ensures { shown (answer (chunk_of dt.Int64 dt.Int64
        (row 4 1 ∷ row 1 2 ∷ row 2 3 ∷ row 1 4 ∷ []))
        (with_slice 1 1 (in_order (by_key dt.Int64 dt.Int64 sum_alone))) 2)
        ≡ numbers (1 ∷ []) ∷ numbers (6 ∷ []) ∷ [] }
{}

/// An empty slice of kept order, over two partitions.
pub fn no_slice_of_kept_order()
    ensures { shown (answer (chunk_of dt.Int64 dt.Int64
        (row 4 1 ∷ row 1 2 ∷ row 2 3 ∷ row 1 4 ∷ []))
        (with_slice 0 0 (in_order (by_key dt.Int64 dt.Int64 sum_alone))) 2)
        ≡ [] ∷ [] ∷ [] }
{}

/// Kept order goes over the chunks.
pub fn order_of_chunks()
    ensures { shown (answer (chunks_of dt.Int64 dt.Int64
        ((row 5 1 ∷ row 2 2 ∷ [])
        ∷ (row 3 3 ∷ row 5 4 ∷ []) ∷ []))
        (in_order (by_key dt.Int64 dt.Int64 sum_alone)) 2)
        ≡ numbers (5 ∷ 2 ∷ 3 ∷ []) ∷ numbers (5 ∷ 2 ∷ 3 ∷ []) ∷ [] }
{}
