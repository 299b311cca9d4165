//! Laws of rows that are read from their bytes, each proved as the contract of an empty function.

ghost use Rattle.std.specs.Prelude.{◌≡◌, ◌<◌, ◌^◌, ◌+◌, ◌++◌, [], All, List, ℕ, length};
ghost use Rattle.pipe_columns.specs.declared.data_type.DataType.{DataType};
ghost use Rattle.pipe_spill.specs.FrameBytes.{rows_bytes};
ghost use Rattle.pipe_spill.specs.SpillRow.{AreRows};
ghost use Rattle.pipe_spill.specs.declared.spill_row.SpillRow.{SpillRow};
ghost use Rattle.pipe_waiting.specs.ReadRows.{read_rows};
ghost use Rattle.pipe_waiting.specs.Waiting.{CanWait, HoldRows, Left, Waiting, left_rows, waiting_rows};

/// The rows that are read from the bytes of rows are these rows. Rows of given types can wait where
/// their bytes stand in a memory.
pub fn rows_are_read_back()
    ensures read_back { (keys inputs : List DataType) (rows : List SpillRow)
        → AreRows keys inputs rows → length (rows_bytes inputs rows) < 2 ^ 64
        → read_rows inputs (length rows) (rows_bytes inputs rows) ≡ rows }
    ensures can_wait { (keys inputs : List DataType) (rows : List SpillRow)
        → AreRows keys inputs rows → length (rows_bytes inputs rows) < 2 ^ 64
        → All (CanWait inputs) rows }
    ensures held { (inputs : List DataType) (rows : List SpillRow)
        → All (CanWait inputs) rows
        → HoldRows inputs (length rows) (rows_bytes inputs rows) }
    ensures rows { (inputs : List DataType) (rows : List SpillRow)
        → All (CanWait inputs) rows
        → read_rows inputs (length rows) (rows_bytes inputs rows) ≡ rows }
{}

/// As many rows are read as were asked for. The bytes of rows, and others behind them, are read as
/// the rows, and the others behind them.
pub fn rows_are_joined()
    ensures count { (inputs : List DataType) (count : ℕ) (bytes : List ℕ)
        → length (read_rows inputs count bytes) ≡ count }
    ensures held { (inputs : List DataType) (m n : ℕ) (a b : List ℕ)
        → HoldRows inputs m a → HoldRows inputs n b → HoldRows inputs (m + n) (a ++ b) }
    ensures rows { (inputs : List DataType) (m n : ℕ) (a b : List ℕ)
        → HoldRows inputs m a → HoldRows inputs n b
        → read_rows inputs (m + n) (a ++ b) ≡ read_rows inputs m a ++ read_rows inputs n b }
{}

/// No rows are read where there are to be none.
pub fn no_rows_are_read()
    ensures waiting { (inputs : List DataType) (w : Waiting) → w.count ≡ 0
        → waiting_rows inputs w ≡ [] }
    ensures left { (inputs : List DataType) (a : Left) → a.count ≡ 0 → left_rows inputs a ≡ [] }
{}
