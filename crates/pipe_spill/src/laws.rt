//! Laws of codes, each proved as the contract of an empty function.

ghost use Rattle.std.specs.Prelude.{◌≡◌, ◌++◌, List, ℕ};
ghost use Rattle.std.specs.Cmp.Lexicographic.{slice_cmp};
ghost use Rattle.std.specs.Ordering.{nat_cmp};
ghost use Rattle.pipe_columns.specs.AnyValue.{value_cmp};
ghost use Rattle.pipe_columns.specs.Key.{code};
ghost use Rattle.pipe_columns.specs.declared.any_value.AnyValue.{AnyValue};
ghost use Rattle.pipe_columns.specs.declared.data_type.DataType.{DataType};
ghost use Rattle.pipe_spill.specs.KeyTypes.{AreOfTypes};

/// The codes of tuples of one list of types differ where the tuples do, none is the front of
/// another, and their bytes are ordered as the tuples are.
pub fn codes_of_tuples()
    ensures injective { (types : List DataType) (a b : List AnyValue)
        → AreOfTypes types a → AreOfTypes types b → code types a ≡ code types b → a ≡ b }
    ensures no_front { (types : List DataType) (a b : List AnyValue) (rest : List ℕ)
        → AreOfTypes types a → AreOfTypes types b → code types a ++ rest ≡ code types b → a ≡ b }
    ensures ordered { (types : List DataType) (a b : List AnyValue)
        → AreOfTypes types a → AreOfTypes types b
        → slice_cmp nat_cmp (code types a) (code types b) ≡ slice_cmp value_cmp a b }
{}
