//! Keys that are looked for.

ghost use Rattle.std.specs.Prelude.{◌≡◌, List, ℕ};
ghost use Rattle.std.specs.Str.{bytes_eq};
ghost use Rattle.pipe_chains.specs.Hash.{secret_hash_of};
ghost use Rattle.pipe_columns.specs.declared.data_type.DataType.{DataType};

use crate::marking::Marking;
use crate::same_keys::are_same;
use pipe_chains::secret_hash;
use std::hash::RandomState;

/// A key that is looked for, whether or not its code is at hand.
pub trait Sought<M: Marking> {
    /// Its code, as a key of types.
    ghost code_of: { Self → List DataType → List ℕ };

    /// It may be looked for by a mark.
    ghost has_mark: { Self → List DataType → ℕ → Type 0 };

    /// Whether a code that has the mark is its own.
    fn is_code(&self, code: &[u8]) -> bool
        ensures { (types : List DataType) (mark : ℕ) → M.marks types code.now mark
            → has_mark self.now types mark → result ≡ bytes_eq code.now (Self.code_of self.now types) };

    /// The secret hash of its code, where it is of types whose keys can hide.
    fn secret_lead(&self, hash_keys: Option<RandomState>) -> u64
        ensures { (types : List DataType) (mark : ℕ) → M.can_hide types
            → has_mark self.now types mark
            → result ≡ secret_hash_of hash_keys (Self.code_of self.now types) };

    /// The mark is that of its code.
    ghost marked: { (s : Self) (types : List DataType) (mark : ℕ) → has_mark s types mark
        → M.marks types (Self.code_of s types) mark };
}

/// A key whose code is at hand.
#[derive(Clone, Copy)]
pub struct KeyCode<'a> {
    pub bytes: &'a [u8],
}

impl<'a, M: Marking> Sought<M> for KeyCode<'a> {
    ghost code_of = { λ s types. s.bytes.now };

    ghost has_mark = { λ s types mark. M.marks types s.bytes.now mark };

    #[inline(always)]
    fn is_code(&self, code: &[u8]) -> bool {
        are_same(code, self.bytes)
    }

    fn secret_lead(&self, hash_keys: Option<RandomState>) -> u64 {
        secret_hash(hash_keys, self.bytes)
    }

    ghost marked = { λ s types mark h. h };
}
