//! Laws of the local table: what it holds, what waits and what has left after the rows of a worker.

ghost use Rattle.std.specs.Prelude.{◌≡◌, ◌+◌, ◌<◌, ◌^◌, ◌∷◌, ◌++◌, [], All, List, Some, false, length, map, true, ℕ};
ghost use Rattle.std.specs.List.{filter};
ghost use Rattle.pipe_columns.specs.Row.{Row};
ghost use Rattle.pipe_columns.specs.Frame.{FrameData};
ghost use Rattle.pipe_model.specs.Output.{key_types};
ghost use Rattle.pipe_model.specs.Query.{QueryTree};
ghost use Rattle.pipe_model.specs.Rows.{chunk_rows};
ghost use Rattle.pipe_aggs.specs.CheckedQuery.{input_types};
ghost use Rattle.pipe_inputs.specs.RowTypes.{IsRowOf};
ghost use Rattle.pipe_plan.specs.declared.limits.Limits.{Limits};
ghost use Rattle.pipe_plan.specs.Kept.{is_kept};
ghost use Rattle.pipe_plan.specs.Progress.{sent_of};
ghost use Rattle.pipe_plan.specs.Run.{AreLimits, is_generic, of_worker, Run};
ghost use Rattle.pipe_spill.specs.SpillRow.{HasValues, spilled};
ghost use Rattle.pipe_groups.specs.Shape.{IsShape, Shape};
ghost use Rattle.pipe_tables.specs.After.{IsAfter, kept_of, left_of, piece_for, pieces_for, spilled_to, with_all};
ghost use Rattle.pipe_tables.specs.Buffers.{no_rows};
ghost use Rattle.pipe_tables.specs.LocalTable.{let_go, Local, local_with_row};
ghost use Rattle.pipe_keyed.specs.Tables.{TakesOne};

/// A local table that is new is one after no row, and one after few rows has room for another. With
/// one row more it is one after that row too, and what leaves is the next piece of the row's
/// partition. So it is with all rows of a worker.
pub fn rows_come_to_a_local_table()
    ensures none { (l : Limits) (s : Shape) (t : Local) → is_generic l.sink ≡ true
        → 0 < l.buffer_size → t.table.shape ≡ s → t.table.limit ≡ Some l.spill_size
        → t.table.groups ≡ [] → t.buffers.size ≡ l.buffer_size
        → t.buffers.rows ≡ no_rows l.partitions → t.overflowed ≡ false → IsAfter l s [] t }
    ensures room { (l : Limits) (s : Shape) (taken : List Row) (t : Local)
        → All (HasValues s.key_types s.input_types) taken → length taken + 1 < 2 ^ 32
        → IsAfter l s taken t → TakesOne t.table }
    ensures row { (l : Limits) (s : Shape) (taken : List Row) (x : Row) (t : Local)
        → is_generic l.sink ≡ true → AreLimits l → IsShape s
        → All (HasValues s.key_types s.input_types) taken
        → HasValues s.key_types s.input_types x → IsAfter l s taken t
        → IsAfter l s (taken ++ x ∷ []) (local_with_row (spilled s.key_types x) t) }
    ensures piece { (l : Limits) (s : Shape) (taken : List Row) (x : Row) (t : Local) (p : ℕ)
        → is_generic l.sink ≡ true → AreLimits l
        → All (HasValues s.key_types s.input_types) taken
        → HasValues s.key_types s.input_types x → IsAfter l s taken t
        → left_of l s.key_types (taken ++ x ∷ []) p
        ≡ left_of l s.key_types taken p ++ piece_for p (let_go (spilled s.key_types x) t) }
    ensures rows { (l : Limits) (s : Shape) (rows : List Row) (t : Local)
        → is_generic l.sink ≡ true → AreLimits l → IsShape s
        → All (HasValues s.key_types s.input_types) rows → IsAfter l s [] t
        → IsAfter l s rows (with_all (map (spilled s.key_types) rows) t) }
    ensures pieces { (l : Limits) (s : Shape) (rows : List Row) (t : Local) (p : ℕ)
        → is_generic l.sink ≡ true → AreLimits l → IsShape s
        → All (HasValues s.key_types s.input_types) rows → IsAfter l s [] t
        → pieces_for p (map (spilled s.key_types) rows) t ≡ left_of l s.key_types rows p }
{}

/// Which of the rows taken are kept, and which are sent, is what it is for all rows of the worker.
pub fn rows_taken_are_kept_for_good()
    ensures kept { (r : Run) (w : ℕ) (taken rest : List Row) → of_worker r w ≡ taken ++ rest
        → kept_of r.limits taken ≡ filter (is_kept r w) taken }
    ensures sent { (r : Run) (w p : ℕ) (taken rest : List Row) → of_worker r w ≡ taken ++ rest
        → spilled_to r.limits (key_types r.query) p taken
        ≡ map (spilled (key_types r.query)) (sent_of r w p taken) }
{}

/// The rows of a chunk of a query have values of its types.
pub fn rows_of_a_chunk()
    ensures { (q : QueryTree) (i : ℕ) (frame : FrameData) → All (IsRowOf q) (chunk_rows q i frame)
        → i < 2 ^ 32 → frame.height < 2 ^ 32
        → All (HasValues (key_types q) (input_types q)) (chunk_rows q i frame) }
{}
