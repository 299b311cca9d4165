//! Laws of journals: event by event, their frames, and what is held where the plans are whole.

ghost use Rattle.std.specs.Prelude.{◌≡◌, ◌<◌, ◌≤◌, ℕ, All, List, [], ◌∷◌, ◌++◌, length, map, false, slice_get, Some};
ghost use Rattle.std.specs.List.{flat_map, range_with_len};
ghost use Rattle.pipe_columns.specs.Groups.{sorted_keys};
ghost use Rattle.pipe_columns.specs.Row.{Row};
ghost use Rattle.pipe_model.specs.Answer.{answer, answer_of, answer_row, groups, tuple_cmp};
ghost use Rattle.pipe_model.specs.Counts.{CountAlike};
ghost use Rattle.pipe_model.specs.Partitions.{rows_in};
ghost use Rattle.pipe_model.specs.Rows.{keys_of};
ghost use Rattle.pipe_plan.specs.Journals.{AreWhole, AreWithin, IsWhole, IsWithin, journal_count, planned_count};
ghost use Rattle.pipe_plan.specs.Whole.{partition_rows, replayed_rows, rows_held, rows_of, sent_to};
ghost use Rattle.pipe_plan.specs.declared.event.PartitionEvent.{PartitionEvent};
ghost use Rattle.pipe_plan.specs.Frames.{AreOfPieces};
ghost use Rattle.pipe_plan.specs.Overflow.{overflow_count};
ghost use Rattle.pipe_plan.specs.Plan.{plan};
ghost use Rattle.pipe_plan.specs.Replay.{after_event, events_by, replay, worker_of};
ghost use Rattle.pipe_plan.specs.Run.{all_rows, AreLimits, Run};

/// A replay goes on event by event, and the next event of its worker's plan keeps a journal within
/// the plans.
pub fn one_event_more()
    ensures nothing { (r : Run) (p : ℕ) → IsWithin r p [] }
    ensures within { (r : Run) (p : ℕ) (journal : List PartitionEvent) (e : PartitionEvent)
        → IsWithin r p journal → worker_of e < r.limits.workers
        → slice_get (plan r (worker_of e) p) (length (events_by (worker_of e) journal)) ≡ Some e
        → IsWithin r p (journal ++ e ∷ []) }
    ensures replay { (r : Run) (p : ℕ) (journal : List PartitionEvent) (e : PartitionEvent)
        → replay r p (journal ++ e ∷ []) ≡ after_event r p journal (replay r p journal) e }
{}

/// The frames of a journal within the plans are pieces joined, and no piece stands in two frames.
pub fn frames_share_no_piece()
    ensures { (r : Run) (p : ℕ) (journal : List PartitionEvent) → 0 < r.limits.buffer_size
        → IsWithin r p journal → AreOfPieces r p (replay r p journal).frames }
{}

/// A frame that is pieces joined has rows.
pub fn frames_have_rows()
    ensures { (r : Run) (p : ℕ) (frames : List (List Row)) → 0 < r.limits.buffer_size
        → AreOfPieces r p frames → All (λ rows. 0 < length rows) frames }
{}

/// Journals within the plans that hold as many events as the plans hold the plans whole.
pub fn counts_make_plans_whole()
    ensures { (r : Run) (journals : List (List PartitionEvent)) → AreWithin r journals
        → planned_count r ≤ journal_count r journals → AreWhole r journals }
{}

/// Where the plans are whole, a partition holds the rows that were sent to it, each once, and
/// workers and partitions together hold all rows: their answer is that of the chunks.
pub fn partition_law()
    ensures partition { (r : Run) (p : ℕ) (journal : List PartitionEvent) → AreLimits r.limits
        → r.is_open ≡ false → IsWhole r p journal
        → CountAlike (rows_of (replay r p journal)) (sent_to r p) }
    ensures rows { (r : Run) (journals : List (List PartitionEvent)) → AreLimits r.limits
        → r.is_open ≡ false → AreWhole r journals → CountAlike (rows_held r journals) (all_rows r) }
    ensures count { (r : Run) (journals : List (List PartitionEvent)) → AreLimits r.limits
        → r.is_open ≡ false → AreWhole r journals
        → length (replayed_rows r journals) ≡ overflow_count r }
    ensures answer { (r : Run) (journals : List (List PartitionEvent)) (partitions : ℕ)
        → AreLimits r.limits → r.is_open ≡ false → AreWhole r journals
        → answer r.chunks r.query partitions ≡ answer_of (rows_held r journals) r.query partitions }
{}

/// Where the plans are whole and order isn't kept, the groups are the sorted keys of the rows of
/// each partition, joined, each with the aggregates of these rows.
pub fn groups_by_partition()
    ensures rows { (r : Run) (journals : List (List PartitionEvent)) (p : ℕ) → AreLimits r.limits
        → r.is_open ≡ false → p < r.limits.partitions → AreWhole r journals
        → CountAlike (partition_rows r journals p)
        (rows_in r.limits.partitions r.query p (all_rows r)) }
    ensures groups { (r : Run) (journals : List (List PartitionEvent)) → AreLimits r.limits
        → r.is_open ≡ false → r.query.keeps_order ≡ false → AreWhole r journals
        → groups (all_rows r) r.query r.limits.partitions
        ≡ flat_map (λ p. sorted_keys tuple_cmp (keys_of (partition_rows r journals p)))
        (range_with_len 0 r.limits.partitions) }
    ensures answers { (r : Run) (journals : List (List PartitionEvent)) → AreLimits r.limits
        → r.is_open ≡ false → r.query.keeps_order ≡ false → AreWhole r journals
        → map (answer_row r.query (all_rows r)) (groups (all_rows r) r.query r.limits.partitions)
        ≡ flat_map (λ p. map (answer_row r.query (partition_rows r journals p))
        (sorted_keys tuple_cmp (keys_of (partition_rows r journals p))))
        (range_with_len 0 r.limits.partitions) }
{}
