//! Whether chunks can be saved.

ghost use Rattle.std.specs.Prelude.{◌≡◌, ◌≢◌, ◌≤◌, ◌<◌, ◌^◌, ℕ, Err, IfNone, IfSome, IsErrOf, OnOk};
ghost use Rattle.pipe_model.specs.Rows.{total_height};
ghost use Rattle.pipe_saving.specs.Refusals.{AllFit, AreTooLarge, CanBeSaved, IsFirstMisfit};
ghost use Rattle.pipe_saving.specs.declared.save_error.SaveError.TheVariants as fault;

use crate::save_error::SaveError;
use pipe_columns::{DataChunk, Schema};

/// The position of the first of some chunks that has other columns than a schema.
fn first_misfit(chunks: &[DataChunk], schema: &Schema) -> Option<usize>
    ensures some { IfSome result (λ i. IsFirstMisfit schema.now chunks.now i) }
    ensures none { IfNone result (AllFit schema.now chunks.now) }
{
    for position in 0..chunks.len() {
        if !chunks[position].frame.fits(schema) {
            return Some(position);
        }
    }
    None
}

/// How many rows chunks have, where they are fewer than 2^32.
pub(crate) fn total_rows(chunks: &[DataChunk]) -> Option<u64>
    ensures some { IfSome result (λ n. n ≡ total_height chunks.now) }
    ensures few { IfSome result (λ n. n < 2 ^ 32) }
    ensures none { IfNone result (2 ^ 32 ≤ total_height chunks.now) }
{
    let mut rows: u64 = 0;
    for chunk in chunks {
        let height = chunk.frame.height() as u64;
        if height >= (1 << 32) - rows {
            return None;
        }
        rows += height;
    }
    Some(rows)
}

/// Whether chunks of a schema, of which the first has a position, can be saved.
pub(crate) fn check_chunks(
    schema: &Schema,
    first: u32,
    chunks: &[DataChunk],
) -> Result<(), SaveError>
    ensures ok { OnOk result (CanBeSaved schema.now first chunks.now) }
    ensures misfit { (i : ℕ) → result ≡ Err (fault.Schema i)
        → IsFirstMisfit schema.now chunks.now i }
    ensures large { IsErrOf result fault.TooLarge → AreTooLarge schema.now first chunks.now }
    ensures memory { result ≢ Err fault.Memory }
{
    if let Some(chunk) = first_misfit(chunks, schema) {
        return Err(SaveError::Schema { chunk });
    }
    if total_rows(chunks).is_none() {
        return Err(SaveError::TooLarge);
    }
    if chunks.len() >= (1 << 32) - first as usize {
        return Err(SaveError::TooLarge);
    }
    Ok(())
}
