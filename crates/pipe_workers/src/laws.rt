//! Laws of workers: in which runs they take turns, which chunk is the next turn, what stays in longer
//! runs, and how much a local table holds.

ghost use Rattle.std.specs.Prelude.{◌≡◌, ◌+◌, ◌<◌, ◌≤◌, ◌^◌, ℕ, false, length, true, All};
ghost use Rattle.pipe_aggs.specs.CheckedQuery.{IsSound};
ghost use Rattle.pipe_aggs.specs.QueryTrees.{query_tree};
ghost use Rattle.pipe_aggs.specs.declared.query.Query.{Query};
ghost use Rattle.pipe_model.specs.Groupable.{IsGroupable};
ghost use Rattle.pipe_model.specs.Rows.{AreChunksOf};
ghost use Rattle.pipe_plan.specs.Rounds.{GoesOn};
ghost use Rattle.pipe_plan.specs.Run.{AreLimits, is_generic, is_turn_of, Run};
ghost use Rattle.pipe_groups.specs.Groups.{count_held};
ghost use Rattle.pipe_tables.specs.LocalTable.{Local};
ghost use Rattle.pipe_global.specs.Shares.{SharesSeen};
ghost use Rattle.pipe_workers.specs.Turns.{IsAfterTurns, IsReady};
ghost use Rattle.pipe_workers.specs.Workers.{next_position, TakesTurns, WorkerSeen};

/// The workers of a run take turns where its query has no fault and may be asked of its chunks, its
/// limits are limits, and each partition has a store with numbers left.
pub fn runs_that_take_turns()
    ensures { (q : Query) (r : Run) → IsSound q → IsGroupable (query_tree q)
        → r.query ≡ query_tree q → AreLimits r.limits → is_generic r.limits.sink ≡ true
        → AreChunksOf r.query r.chunks → length r.stores ≡ r.limits.partitions
        → All (λ s. s.held < 2 ^ 63) r.stores → TakesTurns r }
{}

/// A worker that comes to a turn of its own has it as its next; another worker's chunk it passes.
pub fn turns_of_a_worker()
    ensures own { (r : Run) (w n : ℕ) (s : WorkerSeen) → TakesTurns r
        → is_turn_of r w n ≡ true → IsReady r w n s → next_position r s ≡ n }
    ensures others { (r : Run) (w n : ℕ) (s : WorkerSeen) → n < length r.chunks
        → is_turn_of r w n ≡ false → IsReady r w n s → IsReady r w (n + 1) s }
{}

/// Where a run goes on, a worker that has taken its turns before a position has taken the same turns
/// of the longer run.
pub fn turns_of_longer_runs()
    ensures { (r s : Run) (w n : ℕ) (x : WorkerSeen) → GoesOn r s → n ≤ length r.chunks
        → IsReady r w n x → IsReady s w n x }
{}

/// Between turns a local table holds at most one key more than `spill_size`, and each of its buffers
/// is shorter than a payload.
pub fn bounds_between_turns()
    ensures keys { (r : Run) (w n : ℕ) (t : Local) (s : SharesSeen) → TakesTurns r
        → IsAfterTurns r w n t s → count_held t.table.groups ≤ r.limits.spill_size + 1 }
    ensures rows { (r : Run) (w n : ℕ) (t : Local) (s : SharesSeen) → TakesTurns r
        → IsAfterTurns r w n t s
        → All (λ rows. length rows < r.limits.buffer_size) t.buffers.rows }
{}
