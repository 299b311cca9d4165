//! What holds of the rows of chunks that a query is asked of, as laws.

ghost use Rattle.std.specs.Prelude.{All, List};
ghost use Rattle.pipe_columns.specs.Row.{Row};
ghost use Rattle.pipe_columns.specs.declared.data_chunk.DataChunk.{DataChunk};
ghost use Rattle.pipe_model.specs.Query.{QueryTree};
ghost use Rattle.pipe_model.specs.Rows.{AreChunksOf, rows};
ghost use Rattle.pipe_aggs.specs.CheckedQuery.{IsSound};
ghost use Rattle.pipe_aggs.specs.HashAggs.{prototypes};
ghost use Rattle.pipe_aggs.specs.QueryTrees.{query_tree};
ghost use Rattle.pipe_aggs.specs.declared.query.Query.{Query};
ghost use Rattle.pipe_inputs.specs.RowTypes.{AreTaken, IsRowOf};

/// The rows of chunks have keys and inputs of the query's types, in UTF-8. Its running aggregates
/// take the inputs of each such row.
pub fn rows_of_a_query()
    ensures typed { (q : Query) (chunks : List DataChunk) → IsSound q
        → AreChunksOf (query_tree q) chunks
        → All (IsRowOf (query_tree q)) (rows chunks (query_tree q)) }
    ensures taken { (q : QueryTree) (r : Row) → IsRowOf q r → AreTaken (prototypes q) r.inputs }
{}
