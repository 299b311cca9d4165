//! What groups hold, whatever comes, and what they give.

ghost use Rattle.std.specs.Prelude.{◌≡◌, ◌-◌, ◌^◌, All, List, [], ◌∷◌, ◌++◌, ℕ, Bool, None, filter, if◌then◌else◌, length, map};
ghost use Rattle.std.specs.List.{IsDistinct, list_any};
ghost use Rattle.std.specs.List.Sorted.{IsPermutation};
ghost use Rattle.std.specs.Str.{bytes_eq};
ghost use Rattle.pipe_columns.specs.Groups.{sorted_keys};
ghost use Rattle.pipe_running.specs.declared.function.AggregateFunction.{AggregateFunction};
ghost use Rattle.pipe_running.specs.GroupStates.{StatesHold, TakesFrom};
ghost use Rattle.pipe_spill.specs.SpillRow.{IsRow};
ghost use Rattle.pipe_spill.specs.declared.spill_row.SpillRow.{SpillRow};
ghost use Rattle.pipe_groups.specs.Given.{CanGive, key_cmp};
ghost use Rattle.pipe_groups.specs.Groups.{AreJoined, count_held, cover, Group, held_at, held_groups, is_held, group_keys, put, RowlessAreFresh};
ghost use Rattle.pipe_groups.specs.Holds.{HoldFewer, Holds};
ghost use Rattle.pipe_groups.specs.Shape.{IsShape, Shape};

/// Which rows groups hold: none, one more, the same with room for a key, those of two joined, the
/// same in another order, those of some keys.
pub fn what_groups_hold()
    ensures none { (prototypes : List AggregateFunction) → Holds prototypes [] [] }
    ensures row { (s : Shape) (gs : List Group) (rows : List SpillRow) (r : SpillRow) → IsShape s
        → IsRow s.key_types s.input_types r → RowlessAreFresh s.prototypes gs
        → Holds s.prototypes gs rows
        → Holds s.prototypes (put s.prototypes r.key r.place r.values gs) (rows ++ r ∷ []) }
    ensures covered { (prototypes : List AggregateFunction) (gs : List Group)
        (rows : List SpillRow) (k : List ℕ) → Holds prototypes gs rows
        → Holds prototypes (cover prototypes k gs) rows }
    ensures joined { (prototypes : List AggregateFunction) (gs others joined : List Group)
        (xs ys : List SpillRow) → AreJoined prototypes gs others joined → Holds prototypes gs xs
        → Holds prototypes others ys
        → Holds prototypes joined (xs ++ ys) × Holds prototypes joined (ys ++ xs) }
    ensures order { (prototypes : List AggregateFunction) (gs : List Group)
        (rows others : List SpillRow) → IsPermutation rows others → Holds prototypes gs rows
        → Holds prototypes gs others }
    ensures part { (prototypes : List AggregateFunction) (test : List ℕ → Bool)
        (gs part : List Group) (rows : List SpillRow)
        → ((k : List ℕ) → held_at k part ≡ (if test k then held_at k gs else None))
        → Holds prototypes gs rows → Holds prototypes part (filter (λ r. test r.key) rows) }
    ensures filtered { (test : List ℕ → Bool) (k : List ℕ) (gs : List Group)
        → held_at k (filter (λ g. test g.key) gs) ≡ (if test k then held_at k gs else None) }
{}

/// What groups that hold few rows allow: their running aggregates have counted no more values than
/// there are rows, and take the inputs of one more; and each that holds a row can give its own.
pub fn what_few_rows_allow()
    ensures counted { (prototypes : List AggregateFunction) (gs : List Group)
        (rows : List SpillRow) → IsDistinct bytes_eq (group_keys gs) → RowlessAreFresh prototypes gs
        → Holds prototypes gs rows
        → All (λ g. StatesHold (length rows) prototypes g.states) gs }
    ensures few { (s : Shape) (gs : List Group) (more : ℕ) → IsDistinct bytes_eq (group_keys gs)
        → RowlessAreFresh s.prototypes gs → HoldFewer s gs more
        → All (λ g. StatesHold (2 ^ 32 - 1 - more) s.prototypes g.states) gs }
    ensures taken { (s : Shape) (n : ℕ) (states : List AggregateFunction) (r : SpillRow)
        → IsShape s → IsRow s.key_types s.input_types r → StatesHold n s.prototypes states
        → TakesFrom 0 states r.values }
    ensures given { (s : Shape) (gs : List Group) → IsShape s → IsDistinct bytes_eq (group_keys gs)
        → HoldFewer s gs 0 → All (CanGive s) (held_groups gs) }
{}

/// Which keys are held: those of the rows. Where no key has two groups, so many are counted.
pub fn which_keys_are_held()
    ensures held { (prototypes : List AggregateFunction) (gs : List Group)
        (rows : List SpillRow) (k : List ℕ) → Holds prototypes gs rows
        → is_held k gs ≡ list_any (λ r. bytes_eq k r.key) rows }
    ensures counted { (prototypes : List AggregateFunction) (gs : List Group)
        (rows : List SpillRow) → IsDistinct bytes_eq (group_keys gs) → Holds prototypes gs rows
        → count_held gs ≡ length (sorted_keys key_cmp (map (λ r. r.key) rows)) }
{}
