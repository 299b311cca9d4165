//! How many rows there are with those before.

ghost use Rattle.std.specs.Prelude.{◌≡◌, ◌+◌, ◌<◌, ◌≤◌, ◌^◌, IfNone, IfSome, sum_by};
ghost use Rattle.pipe_model.specs.Rows.{total_height};

use pipe_columns::DataChunk;
use pipe_states::StateRow;

/// How many rows chunks have with those before, where they are fewer than 2^32.
pub(crate) fn rows_behind(before: u64, chunks: &[DataChunk]) -> Option<u64>
    requires { before < 2 ^ 32 }
    ensures some { IfSome result (λ n. n ≡ before + total_height chunks.now) }
    ensures few { IfSome result (λ n. n < 2 ^ 32) }
    ensures none { IfNone result (2 ^ 32 ≤ before + total_height chunks.now) }
{
    let mut rows = before;
    for chunk in chunks {
        let height = chunk.frame.height() as u64;
        if height >= (1 << 32) - rows {
            return None;
        }
        rows += height;
    }
    Some(rows)
}

/// Of how many rows state rows are.
pub(crate) fn counted(rows: &[StateRow]) -> u32
    requires { sum_by (λ r. r.rows) rows.now < 2 ^ 32 }
    ensures { result ≡ sum_by (λ r. r.rows) rows.now }
{
    let mut sum = 0;
    for row in rows {
        sum += row.rows;
    }
    sum
}
