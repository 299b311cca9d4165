//! Laws of frames and of the rows that are spilled, each proved as the contract of an empty function.

ghost use Rattle.std.specs.Prelude.{◌≡◌, ◌<◌, ◌^◌, ◌++◌, [], List, ℕ, All, length, map};
ghost use Rattle.std.specs.List.{flat_map};
ghost use Rattle.pipe_columns.specs.declared.data_type.DataType.{DataType};
ghost use Rattle.pipe_columns.specs.Row.{Row};
ghost use Rattle.pipe_spill.specs.FrameBytes.{frame_bytes};
ghost use Rattle.pipe_spill.specs.SpillRow.{AreRows, HasValues, HaveInputs, IsRow, joined_rows, payload_of, spilled};
ghost use Rattle.pipe_spill.specs.declared.spill_row.SpillRow.{SpillRow};

/// The frames of rows of one choice of types differ where the rows do, and none is a proper front
/// of another.
pub fn frames_of_rows()
    ensures injective { (keys inputs : List DataType) (a b : List SpillRow)
        → AreRows keys inputs a → AreRows keys inputs b → length a < 2 ^ 64 → length b < 2 ^ 64
        → frame_bytes inputs a ≡ frame_bytes inputs b → a ≡ b }
    ensures no_front { (keys inputs : List DataType) (a b : List SpillRow) (rest : List ℕ)
        → AreRows keys inputs a → AreRows keys inputs b → length a < 2 ^ 64 → length b < 2 ^ 64
        → frame_bytes inputs a ++ rest ≡ frame_bytes inputs b → rest ≡ [] }
{}

/// Rows that have values of some types are spilled as rows of these types, and different rows as
/// different ones. The payloads of pieces hold the rows of the joined pieces.
pub fn rows_that_are_spilled()
    ensures row { (keys inputs : List DataType) (r : Row)
        → HasValues keys inputs r → IsRow keys inputs (spilled keys r) }
    ensures rows { (keys inputs : List DataType) (rows : List Row)
        → All (HasValues keys inputs) rows → AreRows keys inputs (map (spilled keys) rows) }
    ensures inputs { (keys inputs : List DataType) (rows : List SpillRow)
        → AreRows keys inputs rows → HaveInputs inputs rows }
    ensures injective { (keys inputs : List DataType) (a b : Row)
        → HasValues keys inputs a → HasValues keys inputs b
        → spilled keys a ≡ spilled keys b → a ≡ b }
    ensures joined { (keys : List DataType) (pieces : List (List Row))
        → joined_rows (map (payload_of keys) pieces)
        ≡ map (spilled keys) (flat_map (λ piece. piece) pieces) }
{}
