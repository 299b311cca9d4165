//! Laws of rounds: what stays where a run goes on from another, over more chunks or closed.

ghost use Rattle.std.specs.Prelude.{◌≡◌, ◌<◌, ◌≤◌, ℕ, List, length, true};
ghost use Rattle.pipe_plan.specs.declared.event.PartitionEvent.{PartitionEvent};
ghost use Rattle.pipe_plan.specs.Journals.{IsWithin};
ghost use Rattle.pipe_plan.specs.Overflow.{overflow};
ghost use Rattle.pipe_plan.specs.Payloads.{full_pieces, payloads};
ghost use Rattle.pipe_plan.specs.Plan.{events_before, picks_before, plan};
ghost use Rattle.pipe_plan.specs.Replay.{replay};
ghost use Rattle.pipe_plan.specs.Rounds.{GoesOn, IsFront, run_until};
ghost use Rattle.pipe_plan.specs.Run.{of_worker, Run};
ghost use Rattle.pipe_plan.specs.Whole.{kept_rows};

/// Where a run goes on, the rows of each worker begin with those before, and so do those that it
/// keeps, those that it sends, and their full pieces.
pub fn rows_of_longer_runs()
    ensures rows { (r s : Run) (w : ℕ) → GoesOn r s → IsFront (of_worker r w) (of_worker s w) }
    ensures kept { (r s : Run) (w : ℕ) → GoesOn r s → IsFront (kept_rows r w) (kept_rows s w) }
    ensures overflow { (r s : Run) (w p : ℕ) → GoesOn r s
        → IsFront (overflow r w p) (overflow s w p) }
    ensures full_pieces { (r s : Run) (w p : ℕ) → GoesOn r s → 0 < r.limits.buffer_size
        → IsFront (full_pieces r.limits.buffer_size (overflow r w p))
        (full_pieces r.limits.buffer_size (overflow s w p)) }
    ensures taken { (r s : Run) (w : ℕ) → GoesOn r s
        → of_worker (run_until s (length r.chunks)) w ≡ of_worker r w }
{}

/// Where a run goes on from an open one, pieces and plans begin with those before. The events of
/// the turns before stay, and so do their picks.
pub fn plans_of_longer_runs()
    ensures payloads { (r s : Run) (w p : ℕ) → GoesOn r s → 0 < r.limits.buffer_size
        → r.is_open ≡ true → IsFront (payloads r w p) (payloads s w p) }
    ensures plans { (r s : Run) (w p : ℕ) → GoesOn r s → r.is_open ≡ true
        → IsFront (plan r w p) (plan s w p) }
    ensures events { (r s : Run) (w p n : ℕ) → GoesOn r s → n ≤ length r.chunks
        → events_before s w p n ≡ events_before r w p n }
    ensures picks { (r s : Run) (w n : ℕ) → GoesOn r s → n ≤ length r.chunks
        → picks_before s w n ≡ picks_before r w n }
{}

/// A journal within the plans of an open run lies within those of a run that goes on from it, and
/// replays alike.
pub fn journals_of_longer_runs()
    ensures within { (r s : Run) (p : ℕ) (journal : List PartitionEvent) → GoesOn r s
        → r.is_open ≡ true → IsWithin r p journal → IsWithin s p journal }
    ensures replay { (r s : Run) (p : ℕ) (journal : List PartitionEvent) → GoesOn r s
        → 0 < r.limits.buffer_size → r.is_open ≡ true → IsWithin r p journal
        → replay s p journal ≡ replay r p journal }
{}
