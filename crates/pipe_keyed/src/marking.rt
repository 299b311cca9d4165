//! Ways in which keys are marked.

ghost use Rattle.std.specs.Prelude.{◌≡◌, List, ℕ, true};
ghost use Rattle.pipe_columns.specs.declared.data_type.DataType.{DataType};

use pipe_columns::DataType;

/// A way in which the codes of keys of some types are marked.
pub trait Marking {
    /// A mark is that of a code.
    ghost marks: { List DataType → List ℕ → ℕ → Type 0 };

    /// A code has one mark.
    ghost once: { (types : List DataType) (code : List ℕ) (a b : ℕ) → marks types code a
        → marks types code b → a ≡ b };

    /// Keys of types can be chosen so that many have one mark, and are led by secret hashes then.
    ghost can_hide: { List DataType → Type 0 };

    /// Whether keys of types can.
    fn can_hide(types: &[DataType]) -> bool
        ensures { result ≡ true → can_hide types.now };
}
