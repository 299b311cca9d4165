//! A saved state out of its bytes.

ghost use Rattle.std.specs.Prelude.{◌≡◌, IfOk, IsErrOf};
ghost use Rattle.pipe_aggs.specs.QueryTrees.{query_tree};
ghost use Rattle.pipe_states.specs.Files.{IsFairStateOf, IsTextOfNone};
ghost use Rattle.pipe_states.specs.States.{StateSeen};
ghost use Rattle.pipe_states.specs.StateText.{state_text};
ghost use Rattle.pipe_states.specs.declared.state_error.StateError.TheVariants as fault;

use crate::fairness::is_fair;
use crate::numbers::take_range;
use crate::row_read::read_rows;
use crate::saved_types::saved_types;
use crate::state_error::StateError;
use crate::state_file::StateFile;
use pipe_aggs::CheckedQuery;
use std::alloc::Global;

/// The state of a query whose bytes these are. It takes no more room than the bytes call for.
pub fn read_state(
    alloc: Global,
    query: &CheckedQuery<'_>,
    bytes: &[u8],
) -> Result<StateFile, StateError>
    ensures fair { IfOk result (IsFairStateOf (query_tree query.now)) }
    ensures text { IfOk result (λ s. state_text (query_tree query.now) s ≡ bytes.now) }
    ensures read_back { IfOk result (λ s. (t : StateSeen)
        → IsFairStateOf (query_tree query.now) t
        → state_text (query_tree query.now) t ≡ bytes.now → t ≡ s) }
    ensures not_a_state { IsErrOf result fault.NotAState
        → IsTextOfNone (query_tree query.now) bytes.now }
{
    let Some((first, end, frame)) = take_range(bytes) else {
        return Err(StateError::NotAState);
    };
    let types = saved_types(alloc, query)?;
    let known = types.as_slice();
    let rows = read_rows(alloc, query, known, frame)?;
    let shown = rows.as_slice();
    let fair = is_fair(alloc, first, end, shown)?;
    if !fair {
        return Err(StateError::NotAState);
    }
    Ok(StateFile { first, end, rows })
}
