//! Laws of kept keys: which are held as rows come, and that this decides which are kept.

ghost use Rattle.std.specs.Prelude.{◌≡◌, ◌↔◌, ◌+◌, ◌<◌, ◌≤◌, ◌||◌, nat_le, ℕ, List, [], ◌∷◌, ◌++◌, length, true, false};
ghost use Rattle.std.specs.Set.{is_member};
ghost use Rattle.pipe_columns.specs.declared.any_value.AnyValue.{AnyValue};
ghost use Rattle.pipe_columns.specs.Row.{Row};
ghost use Rattle.pipe_plan.specs.declared.limits.Limits.{Limits};
ghost use Rattle.pipe_plan.specs.Kept.{is_kept, kept_keys, same_key};
ghost use Rattle.pipe_plan.specs.Overflow.{overflow};
ghost use Rattle.pipe_plan.specs.Progress.{IsAtRow};
ghost use Rattle.pipe_plan.specs.Run.{is_generic, Run, Spills};

/// Rows that come one by one: a key that is held changes nothing, another one is held where at most
/// `spill_size` are, and else changes nothing.
pub fn keys_held_as_rows_come()
    ensures known { (l : Limits) (taken : List Row) (x : Row) → is_generic l.sink ≡ true
        → is_member same_key (kept_keys l taken) x.key ≡ true
        → kept_keys l (taken ++ x ∷ []) ≡ kept_keys l taken }
    ensures new { (l : Limits) (taken : List Row) (x : Row) → is_generic l.sink ≡ true
        → is_member same_key (kept_keys l taken) x.key ≡ false
        → length (kept_keys l taken) ≤ l.spill_size
        → kept_keys l (taken ++ x ∷ []) ≡ kept_keys l taken ++ x.key ∷ [] }
    ensures full { (l : Limits) (taken : List Row) (x : Row) → is_generic l.sink ≡ true
        → l.spill_size < length (kept_keys l taken)
        → kept_keys l (taken ++ x ∷ []) ≡ kept_keys l taken }
    ensures most { (l : Limits) (taken : List Row) → is_generic l.sink ≡ true
        → length (kept_keys l taken) ≤ l.spill_size + 1 }
{}

/// Whether the key of a row is kept shows as the row comes: it is held, or there is room for it.
/// Keys are one exactly where they are equal, and a typed sink keeps them all.
pub fn keys_are_kept_at_once()
    ensures decided { (r : Run) (w i : ℕ) (taken : List Row) (x : Row)
        → Spills r → IsAtRow r w i taken x
        → is_kept r w x ≡ (is_member same_key (kept_keys r.limits taken) x.key
        || nat_le (length (kept_keys r.limits taken)) r.limits.spill_size) }
    ensures equal { (a b : List AnyValue) → (same_key a b ≡ true) ↔ (a ≡ b) }
    ensures typed { (r : Run) (w p : ℕ) → is_generic r.limits.sink ≡ false → overflow r w p ≡ [] }
{}
