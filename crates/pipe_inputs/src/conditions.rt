//! Which chunks a query may be asked of.

ghost use Rattle.std.specs.Prelude.{◌↔◌, IsTrue};
ghost use Rattle.pipe_model.specs.Rows.{AreChunksOf};
ghost use Rattle.pipe_aggs.specs.QueryTrees.{query_tree};

use pipe_aggs::CheckedQuery;
use pipe_columns::DataChunk;

/// A number of rows, and of chunks, that has no places.
const MOST: usize = 4294967296;

/// Whether a query may be asked of chunks: they have the columns of its schema, and fewer than 2^32
/// rows in all.
pub fn are_chunks(chunks: &[DataChunk], query: &CheckedQuery<'_>) -> bool
    ensures { IsTrue result ↔ AreChunksOf (query_tree query.now) chunks.now }
{
    if chunks.len() >= MOST {
        return false;
    }
    let schema = &query.query().schema;
    let mut rows: usize = 0;
    for chunk in chunks {
        if !chunk.frame.fits(schema) {
            return false;
        }
        if chunk.frame.height() >= MOST - rows {
            return false;
        }
        rows += chunk.frame.height();
    }
    true
}
