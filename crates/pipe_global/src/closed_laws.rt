//! What closed partitions stand for.

ghost use Rattle.std.specs.Prelude.{◌≡◌, ◌+◌, ◌<◌, ◌^◌, is_some, length, List, true, ℕ};
ghost use Rattle.pipe_plan.specs.Replay.{replay};
ghost use Rattle.pipe_plan.specs.Run.{Run};
ghost use Rattle.pipe_plan.specs.Whole.{rows_of};
ghost use Rattle.pipe_spill.specs.SpillRow.{AreRows};
ghost use Rattle.pipe_spill.specs.Store.{HasHeld};
ghost use Rattle.pipe_spill.specs.declared.spill_row.SpillRow.{SpillRow};
ghost use Rattle.pipe_groups.specs.Holds.{Holds};
ghost use Rattle.pipe_keyed.specs.Tables.{Table};
ghost use Rattle.pipe_global.specs.Finishing.{AreOwn, CanFinish, StandsForRows};
ghost use Rattle.pipe_global.specs.Partition.{IsReplayed, IsRunnable, PartitionSeen, spilled_all};

/// What a closed partition stands for, until it is first asked for its groups: the rows of the replay
/// of its journal, all of which are its own. It can be asked, with each local table of its shape whose
/// rows and these number fewer than 2^32.
pub fn what_a_closed_partition_stands_for()
    ensures rows { (r : Run) (p : ℕ) (s : PartitionSeen) → IsRunnable r → IsReplayed r p s
        → HasHeld s.store.told s.store.held → is_some s.store.told ≡ true
        → StandsForRows s (spilled_all r.query (rows_of (replay r p s.journal))) }
    ensures own { (r : Run) (p : ℕ) (s : PartitionSeen) → IsRunnable r → IsReplayed r p s
        → AreOwn s (spilled_all r.query (rows_of (replay r p s.journal))) }
    ensures finish { (r : Run) (p : ℕ) (s : PartitionSeen) → IsRunnable r → IsReplayed r p s
        → HasHeld s.store.told s.store.held → (local : Table) (locals : List SpillRow)
        → local.shape ≡ s.table.shape → Holds s.table.shape.prototypes local.groups locals
        → AreRows s.table.shape.key_types s.table.shape.input_types locals
        → length (rows_of (replay r p s.journal)) + length locals < 2 ^ 32
        → CanFinish s local }
{}
