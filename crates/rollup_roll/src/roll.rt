//! Files whose states are rolled up.

ghost use Rattle.std.specs.Prelude.{◌≡◌, ◌++◌, [], IfErr, IfOk, IsErrOf, OnOk};
ghost use Rattle.pipe_aggs.specs.QueryTrees.{query_tree};
ghost use Rattle.pipe_columns.specs.Causes.{HasCause};
ghost use Rattle.pipe_io.specs.Tried.{TriedFront};
ghost use Rattle.pipe_states.specs.Together.{AreKept};
ghost use Rattle.rollup_roll.specs.declared.roll_error.RollError.TheVariants as fault;
ghost use Rattle.rollup_roll.specs.Reading.{AreUnread};
ghost use Rattle.rollup_roll.specs.Rolled.{AreRolled, IsRefusal};
ghost use Rattle.rollup_roll.specs.Told.{TellStates};

use crate::read_told::read_told;
use crate::roll_error::RollError;
use pipe_aggs::CheckedQuery;
use pipe_columns::{DataFrame, Text};
use pipe_io::InputFiles;
use pipe_regroup::{RegroupError, Regrouping};
use std::alloc::Global;

/// Adds the states that the files of some names tell, one after another.
fn add_files<'a, I: InputFiles>(
    alloc: Global,
    query: &CheckedQuery<'_>,
    regrouping: Regrouping<'a>,
    input: &mut I,
    names: &[Text],
) -> Result<Regrouping<'a>, RollError>
    requires query { regrouping.query ≡ query.now }
    requires none { regrouping.files ≡ [] }
    ensures told { I.told input.new ≡ I.told input.old }
    ensures query { IfOk result (λ r. r.query ≡ query.now) }
    ensures keep { IfOk result (λ r. r.keep ≡ regrouping.entry.keep) }
    ensures tell { IfOk result (λ r. TellStates (query_tree query.now) (I.told input.old) names.now
        r.files) }
    ensures unread { IfErr result
        (λ e. AreUnread e (query_tree query.now) (I.told input.old) names.now) }
    ensures tried { TriedFront (I.tried input.old) (I.tried input.new) names.now }
    ensures all { OnOk result (I.tried input.new ≡ I.tried input.old ++ names.now) }
    ensures cause { HasCause (I.faults input.old) (I.faults input.new)
        (IsErrOf result fault.Input) }
{
    let mut regrouping = regrouping;
    for i in 0..names.len() {
        match read_told(alloc, query, input, &names[i], i + 1) {
            Ok(state) => regrouping = regrouping.add(alloc, &state)?,
            Err(error) => return Err(error),
        }
    }
    Ok(regrouping)
}

/// The states that the files of some names tell, regrouped by the keys at some positions. One file
/// is read at a time, and each is begun once at most, in order.
pub fn roll_files<'a, I: InputFiles>(
    alloc: Global,
    query: &'a CheckedQuery<'a>,
    keep: &[usize],
    input: &mut I,
    names: &[Text],
) -> Result<DataFrame, RollError>
    requires { AreKept (query_tree query.now) keep.now }
    ensures told { I.told input.new ≡ I.told input.old }
    ensures rolled { IfOk result
        (AreRolled (query_tree query.now) keep.now (I.told input.old) names.now) }
    ensures refused { IfErr result
        (λ e. IsRefusal e (query_tree query.now) (I.told input.old) names.now) }
    ensures tried { TriedFront (I.tried input.old) (I.tried input.new) names.now }
    ensures all { OnOk result (I.tried input.new ≡ I.tried input.old ++ names.now) }
    ensures cause { HasCause (I.faults input.old) (I.faults input.new)
        (IsErrOf result fault.Input) }
{
    let begun = Regrouping::begin(alloc, query, keep)?;
    let regrouping = add_files(alloc, query, begun, input, names)?;
    match regrouping.finish(alloc) {
        Ok(frame) => Ok(frame),
        Err(RegroupError::Overlap { file }) => Err(RollError::Overlap { file: file + 1 }),
        Err(RegroupError::TooLarge) => Err(RollError::TooLarge),
        Err(RegroupError::Memory) => Err(RollError::Memory),
    }
}
