//! The states of a store, which are read one by one.

ghost use Rattle.std.specs.Prelude.{◌≡◌, ◌<◌, ◌++◌, ◌∷◌, [], ℕ, Err, IfOk, IfSome, IsErrOf, length, OnOk};
ghost use Rattle.pipe_aggs.specs.QueryTrees.{query_tree};
ghost use Rattle.pipe_columns.specs.Causes.{HasCause};
ghost use Rattle.pipe_spill.specs.Store.{IsFrameAt};
ghost use Rattle.pipe_states.specs.Files.{IsFairStateOf};
ghost use Rattle.pipe_states.specs.StateText.{state_text};
ghost use Rattle.pipe_summary.specs.Held.{IsDamagedAt, IsDamagedNext};
ghost use Rattle.pipe_summary.specs.InTurn.{AreInTurn, HoldsStates, IsFirstDamaged};
ghost use Rattle.pipe_summary.specs.declared.read_error.ReadError.TheVariants as read_error;

use crate::reached::Reached;
use crate::read_error::ReadError;
use pipe_aggs::CheckedQuery;
use pipe_spill::{SpillStore, StoreError};
use pipe_states::{StateError, StateFile, read_state};
use std::alloc::Global;

/// The state that the frame of a number tells, whose bytes are left in `bytes`.
fn frame_state<S: SpillStore>(
    alloc: Global,
    query: &CheckedQuery<'_>,
    store: &mut S,
    number: u64,
    bytes: &mut Vec<u8>,
) -> Result<StateFile, ReadError>
    requires { number < S.held store.old }
    ensures fair { IfOk result (IsFairStateOf (query_tree query.now)) }
    ensures frame { IfOk result
        (λ s. IsFrameAt (S.told store.old) number (state_text (query_tree query.now) s)) }
    ensures damaged { (n : ℕ) → result ≡ Err (read_error.Damaged n)
        → IsDamagedAt (query_tree query.now) (S.told store.old) number n }
    ensures told { S.told store.new ≡ S.told store.old }
    ensures held { S.held store.new ≡ S.held store.old }
    ensures sure { S.sure store.new ≡ S.sure store.old }
    ensures path { S.path store.new ≡ S.path store.old }
    ensures cause { HasCause (S.faults store.old) (S.faults store.new)
        (IsErrOf result read_error.Store) }
    ensures calm { (IsErrOf result read_error.Store → ⊥) → S.faults store.new ≡ S.faults store.old }
{
    match store.get(number, bytes) {
        Ok(()) => {}
        Err(StoreError::Failed) => return Err(ReadError::Store),
        Err(StoreError::Memory) => return Err(ReadError::Memory),
    }
    match read_state(alloc, query, bytes) {
        Ok(file) => Ok(file),
        Err(StateError::NotAState) => Err(ReadError::Damaged { number }),
        Err(StateError::Memory) => Err(ReadError::Memory),
    }
}

/// The state that the next frame tells, behind those that were reached and so many frames.
pub(crate) fn read_next<S: SpillStore>(
    alloc: Global,
    reached: &mut Reached<'_>,
    store: &mut S,
    number: u64,
    bytes: &mut Vec<u8>,
) -> Result<StateFile, ReadError>
    requires number { number ≡ length reached.old.states }
    requires held { number < S.held store.old }
    ensures query { reached.new.query ≡ reached.old.query }
    ensures states { IfOk result (λ s. reached.new.states ≡ reached.old.states ++ s ∷ []) }
    ensures in_turn { OnOk result (AreInTurn (query_tree reached.old.query) reached.new.states) }
    ensures frame { IfOk result (λ s. IsFrameAt (S.told store.old) number
        (state_text (query_tree reached.old.query) s)) }
    ensures damaged { (n : ℕ) → result ≡ Err (read_error.Damaged n) → IsDamagedNext
        (query_tree reached.old.query) (S.told store.old) reached.old.states n }
    ensures told { S.told store.new ≡ S.told store.old }
    ensures held { S.held store.new ≡ S.held store.old }
    ensures sure { S.sure store.new ≡ S.sure store.old }
    ensures path { S.path store.new ≡ S.path store.old }
    ensures cause { HasCause (S.faults store.old) (S.faults store.new)
        (IsErrOf result read_error.Store) }
    ensures calm { (IsErrOf result read_error.Store → ⊥) → S.faults store.new ≡ S.faults store.old }
{
    let query = reached.query();
    let file = frame_state(alloc, query, store, number, bytes)?;
    let Some(rows) = reached.rows_with(&file) else {
        drop(file);
        return Err(ReadError::Damaged { number });
    };
    reached.push(&file, rows);
    Ok(file)
}

/// Reads the states of all frames of a store, and lets each go.
pub(crate) fn read_all<S: SpillStore>(
    alloc: Global,
    reached: &mut Reached<'_>,
    store: &mut S,
) -> Result<(), ReadError>
    requires { reached.old.states ≡ [] }
    ensures query { reached.new.query ≡ reached.old.query }
    ensures holds { OnOk result (HoldsStates (query_tree reached.old.query) (S.told store.new)
        (S.held store.new) reached.new.states) }
    ensures damaged { (n : ℕ) → result ≡ Err (read_error.Damaged n) → IfSome (S.told store.old)
        (λ frames. IsFirstDamaged (query_tree reached.old.query) frames n) }
    ensures within { (n : ℕ) → result ≡ Err (read_error.Damaged n) → n < S.held store.old }
    ensures told { S.told store.new ≡ S.told store.old }
    ensures held { S.held store.new ≡ S.held store.old }
    ensures sure { S.sure store.new ≡ S.sure store.old }
    ensures path { S.path store.new ≡ S.path store.old }
    ensures cause { HasCause (S.faults store.old) (S.faults store.new)
        (IsErrOf result read_error.Store) }
    ensures calm { (IsErrOf result read_error.Store → ⊥) → S.faults store.new ≡ S.faults store.old }
{
    let mut bytes = Vec::new(alloc);
    for number in 0..store.held() {
        drop(read_next(alloc, reached, store, number, &mut bytes)?);
    }
    Ok(())
}
