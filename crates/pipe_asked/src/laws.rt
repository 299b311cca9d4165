//! What a group source gives in all.

ghost use Rattle.std.specs.Prelude.{◌≡◌, ◌<◌, ℕ, List};
ghost use Rattle.pipe_columns.specs.Row.{Row};
ghost use Rattle.pipe_model.specs.Answer.{answer_of};
ghost use Rattle.pipe_model.specs.Query.{QueryTree};
ghost use Rattle.pipe_asked.specs.Given.{joined_frames};
ghost use Rattle.pipe_asked.specs.Sources.{chunks_in_all};

/// The chunks that a source gives under the query's slice, joined, are the answer over the rows that
/// it stands for, in whichever order the query wants its groups.
pub fn what_a_group_source_gives()
    ensures { (q : QueryTree) (rs : List Row) (partitions : ℕ) → 0 < partitions
        → joined_frames q (chunks_in_all q rs partitions) ≡ answer_of rs q partitions }
{}
