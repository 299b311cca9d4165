//! Laws of plans: the next event at a count of events, and what it brings.

ghost use Rattle.std.specs.Prelude.{◌≡◌, ◌≢◌, ◌+◌, ◌<◌, ◌≤◌, ◌==◌, ◌&&◌, ℕ, List, [], ◌∷◌, ◌++◌, length, take, true, false, Some, slice_get, if◌then◌else◌};
ghost use Rattle.pipe_columns.specs.Row.{Row};
ghost use Rattle.pipe_plan.specs.declared.event.PartitionEvent.{PartitionEvent};
ghost use Rattle.pipe_plan.specs.declared.event.PartitionEvent.TheVariants.{Arrive};
ghost use Rattle.pipe_plan.specs.Overflow.{overflow, overflows};
ghost use Rattle.pipe_plan.specs.Payloads.{payloads, rest_of};
ghost use Rattle.pipe_plan.specs.Plan.{action_at, events_before, events_of, is_pick, picked_partition, plan};
ghost use Rattle.pipe_plan.specs.Progress.{events_made, FillsPiece, IsAtRow, rows_before, sent_of};
ghost use Rattle.pipe_plan.specs.Replay.{arrivals, next_piece};
ghost use Rattle.pipe_plan.specs.Rounds.{run_until};
ghost use Rattle.pipe_plan.specs.Run.{is_turn_of, Run, Spills};

/// Where a row fills a piece, its arrival is the next event, and brings the rest with the row; then
/// one event more is made. Another row makes none.
pub fn next_event_at_a_row()
    ensures event { (r : Run) (w p i : ℕ) (taken : List Row) (x : Row)
        → Spills r → FillsPiece r w p i taken x
        → slice_get (plan r w p) (events_made r w p i taken) ≡ Some (Arrive w) }
    ensures piece { (r : Run) (w p i : ℕ) (taken : List Row) (x : Row)
        → Spills r → FillsPiece r w p i taken x
        → next_piece r w p (take (events_made r w p i taken) (plan r w p))
        ≡ rest_of r.limits.buffer_size (sent_of r w p taken) ++ x ∷ [] }
    ensures made { (r : Run) (w p i : ℕ) (taken : List Row) (x : Row)
        → Spills r → FillsPiece r w p i taken x
        → events_made r w p i (taken ++ x ∷ []) ≡ events_made r w p i taken + 1 }
    ensures none { (r : Run) (w p i : ℕ) (taken : List Row) (x : Row)
        → Spills r → IsAtRow r w i taken x
        → (overflows r w p x ≡ true
        → length (rest_of r.limits.buffer_size (sent_of r w p taken)) + 1 ≢ r.limits.buffer_size)
        → events_made r w p i (taken ++ x ∷ []) ≡ events_made r w p i taken }
{}

/// A turn begins with the events of the turns before. Behind its arrivals its pick is the next
/// event, in the partition that it takes, and then the events of the turns so far are made.
pub fn next_event_at_a_pick()
    ensures begun { (r : Run) (w p i : ℕ) → i ≤ length r.chunks
        → events_made r w p i (rows_before r w i) ≡ length (events_before r w p i) }
    ensures event { (r : Run) (w p i : ℕ) (e : PartitionEvent) → Spills r
        → i < length r.chunks → is_turn_of r w i ≡ true → is_pick r i ≡ true
        → picked_partition r w i ≡ p → events_of w (action_at r i) ≡ e ∷ []
        → slice_get (plan r w p) (events_made r w p i (rows_before r w (i + 1))) ≡ Some e }
    ensures made { (r : Run) (w p i : ℕ) → i < length r.chunks → is_turn_of r w i ≡ true
        → length (events_before r w p (i + 1)) ≡ events_made r w p i (rows_before r w (i + 1))
        + (if is_pick r i && (picked_partition r w i == p) then 1 else 0) }
{}

/// At the end, where no chunk may follow and a rest is left, its arrival is the next event and the
/// last, and brings the rest.
pub fn next_event_at_the_end()
    ensures event { (r : Run) (w p : ℕ) → Spills r → r.is_open ≡ false
        → 0 < length (rest_of r.limits.buffer_size (overflow r w p))
        → slice_get (plan r w p) (length (events_before r w p (length r.chunks)))
        ≡ Some (Arrive w) }
    ensures piece { (r : Run) (w p : ℕ) → Spills r → r.is_open ≡ false
        → 0 < length (rest_of r.limits.buffer_size (overflow r w p))
        → next_piece r w p (take (length (events_before r w p (length r.chunks))) (plan r w p))
        ≡ rest_of r.limits.buffer_size (overflow r w p) }
    ensures last { (r : Run) (w p : ℕ) → Spills r → r.is_open ≡ false
        → 0 < length (rest_of r.limits.buffer_size (overflow r w p))
        → plan r w p ≡ events_before r w p (length r.chunks) ++ Arrive w ∷ [] }
    ensures none { (r : Run) (w p : ℕ) → Spills r
        → rest_of r.limits.buffer_size (overflow r w p) ≡ []
        → plan r w p ≡ events_before r w p (length r.chunks) }
    ensures open_run { (r : Run) (w p : ℕ) → Spills r → r.is_open ≡ true
        → plan r w p ≡ events_before r w p (length r.chunks) }
{}

/// The plans of a run so far hold the events of the turns so far, and plans let all pieces arrive.
pub fn events_and_pieces()
    ensures so_far { (r : Run) (w p n : ℕ) → Spills r → n ≤ length r.chunks
        → plan (run_until r n) w p ≡ events_before r w p n }
    ensures pieces { (r : Run) (w p : ℕ) → 0 < r.limits.buffer_size
        → arrivals (plan r w p) ≡ length (payloads r w p) }
{}
