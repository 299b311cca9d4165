//! States regrouped by the first of two keys.

ghost use Rattle.std.specs.Prelude.{All};
ghost use Rattle.pipe_aggs.specs.QueryTrees.{query_tree};
ghost use Rattle.pipe_states.specs.Fair.{IsStateOf};

use crate::asked::are;
use pipe_aggs::CheckedQuery;
use pipe_columns::DataFrame;
use pipe_regroup::{RegroupError, regroup};
use pipe_states::StateFile;
use std::alloc::Global;

/// The frame of states by the first key, or why there is none.
pub(crate) fn by_first_key<'a>(
    alloc: Global,
    query: &'a CheckedQuery<'a>,
    files: &[StateFile],
) -> Result<DataFrame, RegroupError>
    requires { All (IsStateOf (query_tree query.now)) files.now }
{
    if query.key_types().is_empty() {
        return Err(RegroupError::TooLarge);
    }
    regroup(alloc, query, files, &[0])
}

/// Whether a frame is that of both chunks, with a row for each of two keys: the sum, the first, the
/// sum and the count of the mean, and the last. The first value is the one at the least place, and
/// the last the one at the greatest.
pub(crate) fn is_worked(frame: &DataFrame) -> bool {
    let all = frame.columns();
    all.len() == 6
        && are(all[0].values(), &[1, 2])
        && are(all[1].values(), &[20, 7])
        && are(all[2].values(), &[5, 7])
        && are(all[3].values(), &[20, 7])
        && are(all[4].values(), &[3, 1])
        && are(all[5].values(), &[9, 7])
}
