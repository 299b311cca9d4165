//! What definitions of this crate mean.

ghost use Rattle.std.specs.Prelude.{◌≡◌, ◌<◌, ◌≤◌, ℕ, Bool, List, length, true};
ghost use Rattle.std.specs.List.{All, AllPass, flat_map};
ghost use Rattle.std.specs.declared.cmp.Ordering.{Ordering};
ghost use Rattle.pipe_columns.specs.declared.any_value.AnyValue.{AnyValue};
ghost use Rattle.pipe_columns.specs.declared.place.Place.{Place};
ghost use Rattle.pipe_columns.specs.AnyValue.{value_cmp};
ghost use Rattle.pipe_columns.specs.Groups.{AreSortedKeys, IsExactOn, sorted_keys};
ghost use Rattle.pipe_columns.specs.Pieces.{pieces};
ghost use Rattle.pipe_columns.specs.Place.{place_cmp};

use crate::{AnyValue, Place};

/// Values and places are compared in a program as the definitions order them.
pub fn orders()
    ensures values { (a b : AnyValue) → ⟦<AnyValue as Ord>⟧.cmp a b ≡ value_cmp a b }
    ensures places { (p q : Place) → ⟦<Place as Ord>⟧.cmp p q ≡ place_cmp p q }
{}

/// Pieces of a size are the list again when they are joined. None is empty, and none is longer.
pub fn pieces_of_a_list<A>()
    ensures joined { (n : ℕ) (xs : List A) → 0 < n → flat_map (λ piece. piece) (pieces n xs) ≡ xs }
    ensures some { (n : ℕ) (xs : List A) → 0 < n
        → All (λ piece. (0 < length piece) × (length piece ≤ n)) (pieces n xs) }
{}

/// Keys that are sorted by an order ascend, and are the keys of the list. No other list is so. The
/// order is one of the keys that pass a test, and there sets different keys apart.
pub fn keys_in_order<K>()
    ensures are { (p : K → Bool) (order : K → K → Ordering) (keys : List K)
        → IsExactOn (λ k. p k ≡ true) order → AllPass p keys
        → AreSortedKeys order keys (sorted_keys order keys) }
    ensures sole { (p : K → Bool) (order : K → K → Ordering) (keys xs ys : List K)
        → IsExactOn (λ k. p k ≡ true) order → AllPass p keys
        → AreSortedKeys order keys xs → AreSortedKeys order keys ys → xs ≡ ys }
{}
