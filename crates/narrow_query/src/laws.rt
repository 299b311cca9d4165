//! What a query gives over its wanted columns alone, as laws over the definitions.

ghost use Rattle.std.specs.Prelude.{◌≡◌, All, Bool, ℕ, List, true};
ghost use Rattle.pipe_columns.specs.declared.data_chunk.DataChunk.{DataChunk};
ghost use Rattle.pipe_columns.specs.declared.schema.Field.{Field};
ghost use Rattle.pipe_columns.specs.Frame.{FitsSchema, FrameData, fields_of};
ghost use Rattle.pipe_model.specs.Answer.{answer};
ghost use Rattle.pipe_model.specs.Expr.{Expr};
ghost use Rattle.pipe_model.specs.Output.{output_schema};
ghost use Rattle.pipe_model.specs.Query.{QueryTree};
ghost use Rattle.pipe_model.specs.Rows.{rows};
ghost use Rattle.pipe_model.specs.Typing.{type_of};
ghost use Rattle.pipe_model.specs.Value.{value};
ghost use Rattle.narrow_query.specs.Names.{covers, has_named};
ghost use Rattle.narrow_query.specs.Narrowed.{narrowed_tree};
ghost use Rattle.narrow_columns.specs.Wanted.{chosen, narrowed_chunks, narrowed_frame};

/// An expression has the same type over fields among which are all that it names, and the same
/// value in each row of a frame of these.
pub fn expressions_over_fewer_columns()
    ensures types { (wanted : List Bool) (schema : List Field) (e : Expr)
        → has_named wanted schema e ≡ true
        → type_of e (chosen wanted schema) ≡ type_of e schema }
    ensures values { (wanted : List Bool) (frame : FrameData) (row : ℕ) (e : Expr)
        → has_named wanted (fields_of frame.columns) e ≡ true
        → value e (narrowed_frame wanted frame) row ≡ value e frame row }
{}

/// A query has the same rows, columns and answer over fewer columns, where all that it names are
/// among them.
pub fn answers_over_fewer_columns()
    ensures rows { (wanted : List Bool) (q : QueryTree) (chunks : List DataChunk)
        → All (λ c. FitsSchema q.schema c.frame) chunks → covers wanted q ≡ true
        → rows (narrowed_chunks wanted chunks) (narrowed_tree wanted q) ≡ rows chunks q }
    ensures columns { (wanted : List Bool) (q : QueryTree) → covers wanted q ≡ true
        → output_schema (narrowed_tree wanted q) ≡ output_schema q }
    ensures answer { (wanted : List Bool) (q : QueryTree) (chunks : List DataChunk)
        (partitions : ℕ) → All (λ c. FitsSchema q.schema c.frame) chunks
        → covers wanted q ≡ true
        → answer (narrowed_chunks wanted chunks) (narrowed_tree wanted q) partitions
        ≡ answer chunks q partitions }
{}
