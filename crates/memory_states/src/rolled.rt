//! States in one text, rolled up.

ghost use Rattle.std.specs.Prelude.{◌≡◌, IfErr, IfOk, IsErrOf, length, None, Some};
ghost use Rattle.memory_states.specs.Calls.{number_names, state_files};
ghost use Rattle.pipe_aggs.specs.Faults.{first_fault};
ghost use Rattle.pipe_aggs.specs.QueryTrees.{query_tree};
ghost use Rattle.pipe_states.specs.Together.{AreKept};
ghost use Rattle.rollup_roll.specs.Rolled.{AreRolled, IsRefusal};
ghost use Rattle.rollup_roll.specs.declared.roll_error.RollError.TheVariants as roll_error;

use crate::names::names_of;
use memory_input::PiecesInput;
use memory_runs::checked_of;
use pipe_aggs::Query;
use pipe_columns::DataFrame;
use rollup_roll::{RollError, roll_files};
use std::alloc::Global;

/// What states come to by the keys at some positions. They have some lengths, and stand in one text, one
/// behind another.
pub(crate) fn rolled_frame(
    alloc: Global,
    query: &Query,
    keep: &[usize],
    lengths: &[usize],
    states: &[u8],
) -> Result<DataFrame, RollError>
    requires faultless { first_fault query.now ≡ None }
    requires kept { AreKept (query_tree query.now) keep.now }
    ensures rolled { IfOk result (AreRolled (query_tree query.now) keep.now
        (Some (state_files lengths.now states.now)) (number_names (length lengths.now))) }
    ensures refused { IfErr result (λ e. IsRefusal e (query_tree query.now)
        (Some (state_files lengths.now states.now)) (number_names (length lengths.now))) }
    ensures read { ¬ IsErrOf result roll_error.Input }
{
    let names = names_of(alloc, lengths.len())?;
    let checked = checked_of(alloc, query)?;
    let mut input = PiecesInput::new(&names, lengths, states);
    roll_files(alloc, &checked, keep, &mut input, &names)
}
