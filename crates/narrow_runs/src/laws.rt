//! What a run does over the columns that its query names alone, as laws over the definitions.

ghost use Rattle.std.specs.Prelude.{◌≡◌, All, Bool, ℕ, List, true};
ghost use Rattle.pipe_columns.specs.declared.data_chunk.DataChunk.{DataChunk};
ghost use Rattle.pipe_columns.specs.declared.schema.Field.{Field};
ghost use Rattle.pipe_columns.specs.Frame.{FitsSchema};
ghost use Rattle.narrow_query.specs.Names.{covers};
ghost use Rattle.pipe_plan.specs.Payloads.{payloads};
ghost use Rattle.pipe_plan.specs.Plan.{plan};
ghost use Rattle.pipe_plan.specs.Run.{Run, StoreSeen};
ghost use Rattle.pipe_run.specs.Answered.{HaveWholeFrames, IsAnswered};
ghost use Rattle.pipe_run.specs.declared.output.GroupByOutput.{GroupByOutput};
ghost use Rattle.narrow_columns.specs.Wanted.{chosen, narrowed_chunks};
ghost use Rattle.narrow_runs.specs.FewerColumns.{narrowed_run};
ghost use Rattle.narrow_runs.specs.Widened.{widened_chunks};

/// A run has the same plans and sends the same pieces over fewer columns, where all that its query
/// names are among them. So what it answers there, and what it leaves of its stores, is what it
/// answers and leaves over all.
pub fn runs_over_fewer_columns()
    ensures plans { (wanted : List Bool) (r : Run) (worker p : ℕ)
        → All (λ c. FitsSchema r.query.schema c.frame) r.chunks → covers wanted r.query ≡ true
        → plan (narrowed_run wanted r) worker p ≡ plan r worker p }
    ensures pieces { (wanted : List Bool) (r : Run) (worker p : ℕ)
        → All (λ c. FitsSchema r.query.schema c.frame) r.chunks → covers wanted r.query ≡ true
        → payloads (narrowed_run wanted r) worker p ≡ payloads r worker p }
    ensures answered { (wanted : List Bool) (r : Run) (out : GroupByOutput)
        (stores : List StoreSeen) → All (λ c. FitsSchema r.query.schema c.frame) r.chunks
        → covers wanted r.query ≡ true → IsAnswered (narrowed_run wanted r) out stores
        → IsAnswered r out stores }
    ensures left { (wanted : List Bool) (r : Run) (stores : List StoreSeen)
        → All (λ c. FitsSchema r.query.schema c.frame) r.chunks → covers wanted r.query ≡ true
        → HaveWholeFrames (narrowed_run wanted r) stores → HaveWholeFrames r stores }
{}

/// Chunks of the wanted columns are what is wanted of chunks of all.
pub fn chunks_are_wanted_columns()
    ensures wanted { (wanted : List Bool) (fields : List Field) (chunks : List DataChunk)
        → All (λ c. FitsSchema (chosen wanted fields) c.frame) chunks
        → narrowed_chunks wanted (widened_chunks wanted fields chunks) ≡ chunks }
    ensures fit { (wanted : List Bool) (fields : List Field) (chunks : List DataChunk)
        → All (λ c. FitsSchema (chosen wanted fields) c.frame) chunks
        → All (λ c. FitsSchema fields c.frame) (widened_chunks wanted fields chunks) }
{}
