//! Laws of fair states: those of rows are fair, and so are fair ones that are merged.

ghost use Rattle.std.specs.Prelude.{◌≡◌, ◌≤◌, ◌<◌, ◌^◌, ℕ, List, All, length, map, sum_by};
ghost use Rattle.pipe_columns.specs.declared.any_value.AnyValue.{AnyValue};
ghost use Rattle.pipe_model.specs.Groupable.{IsGroupable};
ghost use Rattle.pipe_model.specs.Output.{input_type, key_types};
ghost use Rattle.pipe_model.specs.Query.{QueryTree};
ghost use Rattle.pipe_spill.specs.SpillRow.{HasValues};
ghost use Rattle.pipe_states.specs.Fair.{CanSave, IsFair, IsFairRow, IsRowOf, IsStateOf};
ghost use Rattle.pipe_states.specs.Parts.{IsInRange, LieApart, Part, saved};
ghost use Rattle.pipe_states.specs.Regrouped.{kept, merged_states, regrouped_rows, rows_of_states, with_keys};
ghost use Rattle.pipe_states.specs.States.{StateSeen};
ghost use Rattle.pipe_states.specs.StateText.{state_text};
ghost use Rattle.pipe_states.specs.Together.{FollowOn, NoneOverlap, total_rows};
ghost use Rattle.pipe_states.specs.declared.state_row.StateRow.{StateRow};

/// The state of a part that can be saved is fair, and is one of the query where its rows have
/// values of the types of the keys and of what the aggregates are fed.
pub fn saved_states_are_fair()
    ensures of_query { (q : QueryTree) (p : Part) → IsGroupable q
        → All (HasValues (key_types q) (map (λ a. input_type q.schema a.input) q.aggs)) p.rows
        → length p.rows < 2 ^ 32 → IsStateOf q (saved q p) }
    ensures fair { (q : QueryTree) (p : Part) → CanSave p → IsFair (saved q p) }
{}

/// Fair states of which each begins where the one before ends share no number, and of fewer than
/// 2^32 rows they are a fair state merged; states of a query are one of it.
pub fn merged_states_are_fair()
    ensures of_query { (q : QueryTree) (states : List StateSeen) → All (IsStateOf q) states
        → total_rows states < 2 ^ 32 → IsStateOf q (merged_states q states) }
    ensures apart { (states : List StateSeen) → All IsFair states → FollowOn states
        → NoneOverlap states }
    ensures fair { (q : QueryTree) (states : List StateSeen) → All IsFair states → FollowOn states
        → total_rows states < 2 ^ 32 → IsFair (merged_states q states) }
{}

/// Fair rows that are regrouped by any part of their keys are fair, and are of no more rows; those
/// of states of a query are state rows of the query with the kept keys alone.
pub fn regrouped_rows_are_fair()
    ensures of_query { (q : QueryTree) (states : List StateSeen) (keep : List ℕ)
        → All (λ i. i < length q.keys) keep → All (IsStateOf q) states → total_rows states < 2 ^ 32
        → All (IsRowOf (with_keys q keep)) (regrouped_rows q (kept keep) (rows_of_states states)) }
    ensures fair { (q : QueryTree) (part : List AnyValue → List AnyValue) (rows : List StateRow)
        (first end : ℕ) → All (IsFairRow first end) rows
        → All (IsFairRow first end) (regrouped_rows q part rows) }
    ensures few { (q : QueryTree) (part : List AnyValue → List AnyValue) (rows : List StateRow)
        → sum_by (λ r. r.rows) (regrouped_rows q part rows) ≤ sum_by (λ r. r.rows) rows }
{}

/// Parts in their ranges lie apart where their states share no number.
pub fn parts_of_states()
    ensures { (q : QueryTree) (parts : List Part) → All IsInRange parts
        → NoneOverlap (map (saved q) parts) → LieApart parts }
{}

/// Fair states of a query that have one text are one state.
pub fn states_have_their_own_texts()
    ensures { (q : QueryTree) (s t : StateSeen) → IsFair s → IsFair t
        → IsStateOf q s → IsStateOf q t → state_text q s ≡ state_text q t → s ≡ t }
{}
