//! What a run that has ended can be asked.

ghost use Rattle.std.specs.Prelude.{◌≡◌, ◌<◌, ℕ};
ghost use Rattle.pipe_run.specs.EndedRun.{CanBeAsked, StandForAllRows};

/// The closed partitions of a run that has ended, with a table of what its workers kept, make a source
/// that can be asked under any slice, and over stores that tell it stands for all rows of the run.
pub fn an_ended_run_can_be_asked()
    ensures asked { CanBeAsked }
    ensures rows { StandForAllRows }
{}
