//! Laws of turns: where a worker's chunks stand, and which rows it takes in them.

ghost use Rattle.std.specs.Prelude.{◌≡◌, ◌+◌, ◌*◌, ◌/◌, ◌<◌, ◌≤◌, ℕ, List, [], ◌∷◌, ◌++◌, length, true, if◌then◌else◌, slice_get, Some};
ghost use Rattle.std.specs.List.{filter, flat_map, slice_index_or};
ghost use Rattle.pipe_columns.specs.declared.data_chunk.DataChunk.{DataChunk};
ghost use Rattle.pipe_columns.specs.Row.{Row};
ghost use Rattle.pipe_model.specs.Rows.{chunk_rows};
ghost use Rattle.pipe_plan.specs.Rounds.{IsFront, run_until};
ghost use Rattle.pipe_plan.specs.Kept.{is_kept};
ghost use Rattle.pipe_plan.specs.Overflow.{overflow};
ghost use Rattle.pipe_plan.specs.declared.event.SpillAction.{SpillAction};
ghost use Rattle.pipe_plan.specs.declared.event.SpillAction.TheVariants as action;
ghost use Rattle.pipe_plan.specs.Plan.{is_pick, picks_before, sent_before, turn_action, turns_before};
ghost use Rattle.pipe_plan.specs.Progress.{IsAtRow, rows_before, sent_of, turn_rows};
ghost use Rattle.pipe_plan.specs.Run.{is_turn_of, of_worker, Run};
ghost use Rattle.pipe_plan.specs.Whole.{kept_rows};

/// Turn j of worker w is the chunk at position w + j * workers. Before the first there is none, and
/// none between two that follow each other.
pub fn positions_of_turns()
    ensures turn { (r : Run) (w j : ℕ) → w < r.limits.workers
        → is_turn_of r w (w + j * r.limits.workers) ≡ true }
    ensures number { (r : Run) (w j : ℕ) → w < r.limits.workers
        → (w + j * r.limits.workers) / r.limits.workers ≡ j }
    ensures next { (r : Run) (w i : ℕ) → 0 < r.limits.workers
        → is_turn_of r w i ≡ true → is_turn_of r w (i + r.limits.workers) ≡ true }
    ensures first { (r : Run) (w n : ℕ) → w < r.limits.workers → n ≤ w → turns_before r w n ≡ [] }
    ensures after { (r : Run) (w i n : ℕ) → 0 < r.limits.workers
        → is_turn_of r w i ≡ true → i < n → n ≤ i + r.limits.workers
        → turns_before r w n ≡ turns_before r w i ++ i ∷ [] }
    ensures picks { (r : Run) (w i : ℕ) → is_turn_of r w i ≡ true
        → picks_before r w (i + 1) ≡ picks_before r w i + (if is_pick r i then 1 else 0) }
{}

/// A worker's rows are those of its turns, in order; what it took before a position, and then the
/// next row, is the front of them.
pub fn rows_of_turns()
    ensures turns { (r : Run) (w n : ℕ) → n ≤ length r.chunks
        → rows_before r w n ≡ flat_map (turn_rows r) (turns_before r w n) }
    ensures turn { (r : Run) (w i : ℕ) (c : DataChunk) → slice_get r.chunks i ≡ Some c
        → is_turn_of r w i ≡ true
        → rows_before r w (i + 1) ≡ rows_before r w i ++ chunk_rows r.query i c.frame }
    ensures all { (r : Run) (w n : ℕ) → length r.chunks ≤ n → rows_before r w n ≡ of_worker r w }
    ensures next { (r : Run) (w i : ℕ) (taken : List Row) (x : Row) → IsAtRow r w i taken x
        → IsFront (taken ++ x ∷ []) (of_worker r w) }
{}

/// Of the rows that a worker took before a position it keeps and sends the same in the whole run.
/// Those sent are counted by the chunks' positions.
pub fn rows_kept_and_sent_by_turn()
    ensures kept { (r : Run) (w n : ℕ)
        → kept_rows (run_until r n) w ≡ filter (is_kept r w) (rows_before r w n) }
    ensures sent { (r : Run) (w p n : ℕ)
        → overflow (run_until r n) w p ≡ sent_of r w p (rows_before r w n) }
    ensures count { (r : Run) (w p n : ℕ) → n ≤ length r.chunks
        → sent_before r w p n ≡ length (overflow (run_until r n) w p) }
    ensures all { (r : Run) (w p : ℕ)
        → sent_before r w p (length r.chunks) ≡ length (overflow r w p) }
{}

/// The actions of a worker's list come first, and past them for ever the one that its rule says; none
/// where it has no rule.
pub fn rules_follow_lists()
    ensures listed { (actions : List (List SpillAction)) (rules : List SpillAction) (w turn : ℕ)
        → turn < length (slice_index_or actions w [])
        → turn_action actions rules w turn
        ≡ slice_index_or (slice_index_or actions w []) turn action.None }
    ensures past { (actions : List (List SpillAction)) (rules : List SpillAction) (w turn : ℕ)
        → length (slice_index_or actions w []) ≤ turn
        → turn_action actions rules w turn ≡ slice_index_or rules w action.None }
{}
