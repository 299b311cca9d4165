//! States that are at hand, regrouped by some of the keys.

ghost use Rattle.std.specs.Prelude.{◌≡◌, ◌↔◌, ℕ, All, Err, IfOk, IsErrOf, OnOk};
ghost use Rattle.pipe_aggs.specs.QueryTrees.{query_tree};
ghost use Rattle.pipe_regroup.specs.Added.{AreTooLarge, CanRegroup};
ghost use Rattle.pipe_regroup.specs.declared.regroup_error.RegroupError.TheVariants as fault;
ghost use Rattle.pipe_states.specs.Fair.{IsStateOf};
ghost use Rattle.pipe_states.specs.Regrouped.{regrouped};
ghost use Rattle.pipe_states.specs.Together.{AreKept, IsFirstOverlap};

use crate::refusal::refusal;
use crate::regroup_error::RegroupError;
use crate::regrouping::Regrouping;
use pipe_aggs::CheckedQuery;
use pipe_columns::DataFrame;
use pipe_states::StateFile;
use std::alloc::Global;

/// The frame of states that are added one by one.
fn regroup_all<'a>(
    alloc: Global,
    query: &'a CheckedQuery<'a>,
    files: &[StateFile],
    keep: &[usize],
) -> Result<DataFrame, RegroupError>
    requires kept { AreKept (query_tree query.now) keep.now }
    requires of_query { All (IsStateOf (query_tree query.now)) files.now }
    ensures frame { IfOk result (λ f. f ≡ regrouped (query_tree query.now) files.now keep.now) }
    ensures ok { OnOk result (CanRegroup files.now) }
{
    let mut regrouping = Regrouping::begin(alloc, query, keep)?;
    for file in files {
        regrouping = regrouping.add(alloc, file)?;
    }
    regrouping.finish(alloc)
}

/// States of a query, regrouped by the keys at some positions: for each distinct kept tuple, in
/// order of tuple, that tuple and what the rows with it come to. The query's slice and its order
/// aren't read. What forbids to regroup the states is told before want of memory.
pub fn regroup<'a>(
    alloc: Global,
    query: &'a CheckedQuery<'a>,
    files: &[StateFile],
    keep: &[usize],
) -> Result<DataFrame, RegroupError>
    requires kept { AreKept (query_tree query.now) keep.now }
    requires of_query { All (IsStateOf (query_tree query.now)) files.now }
    ensures frame { IfOk result (λ f. f ≡ regrouped (query_tree query.now) files.now keep.now) }
    ensures ok { OnOk result (CanRegroup files.now) }
    ensures overlap { (i : ℕ) → (result ≡ Err (fault.Overlap i)) ↔ IsFirstOverlap files.now i }
    ensures large { IsErrOf result fault.TooLarge ↔ AreTooLarge files.now }
    ensures memory { IsErrOf result fault.Memory → CanRegroup files.now }
{
    match regroup_all(alloc, query, files, keep) {
        Ok(frame) => Ok(frame),
        Err(_) => Err(refusal(files)),
    }
}
