//! The answer of a summary.

ghost use Rattle.std.specs.Prelude.{◌≡◌, ◌<◌, ℕ, [], Err, IfOk, IfSome, IsErrOf, List, None, OnOk};
ghost use Rattle.pipe_aggs.specs.QueryTrees.{query_tree};
ghost use Rattle.pipe_columns.specs.Causes.{HasCause};
ghost use Rattle.pipe_columns.specs.declared.data_chunk.DataChunk.{DataChunk};
ghost use Rattle.pipe_model.specs.Answer.{answer};
ghost use Rattle.pipe_states.specs.Regrouped.{regrouped};
ghost use Rattle.pipe_states.specs.Together.{AreKept};
ghost use Rattle.pipe_summary.specs.Held.{IsRegrouped};
ghost use Rattle.pipe_summary.specs.InTurn.{HoldsStates, IsFirstDamaged};
ghost use Rattle.pipe_summary.specs.Summed.{all_keys, IsSummed, sliced_rows, summed};
ghost use Rattle.pipe_summary.specs.Sums.{StandsFor};
ghost use Rattle.pipe_summary.specs.declared.read_error.ReadError.TheVariants as read_error;

use crate::reached::Reached;
use crate::read_error::{AnswerError, ReadError};
use crate::reading::read_next;
use crate::summary::Summary;
use pipe_aggs::CheckedQuery;
use pipe_columns::DataFrame;
use pipe_regroup::Regrouping;
use pipe_spill::SpillStore;
use std::alloc::{AllocError, Global};

/// The positions of all keys of a query.
fn all_keys(alloc: Global, query: &CheckedQuery<'_>) -> Result<Vec<usize>, AllocError>
    ensures keys { IfOk result (λ v. v.items ≡ all_keys (query_tree query.now)) }
    ensures kept { IfOk result (λ v. AreKept (query_tree query.now) v.items) }
{
    let count = query.query().keys.len();
    let mut keep = Vec::with_capacity(alloc, count)?;
    for index in 0..count {
        keep.push(index)?;
    }
    Ok(keep)
}

/// The rows of a frame that a slice keeps.
fn sliced(frame: DataFrame, slice: Option<(usize, usize)>) -> DataFrame
    ensures { result ≡ sliced_rows slice frame }
{
    match slice {
        Some((offset, count)) => frame.slice(offset, count),
        None => frame,
    }
}

/// Adds the states of all frames of a store, one at a time.
fn add_all<'a, S: SpillStore>(
    alloc: Global,
    regrouping: Regrouping<'a>,
    reached: &mut Reached<'a>,
    store: &mut S,
) -> Result<Regrouping<'a>, ReadError>
    requires none { reached.old.states ≡ [] }
    requires files { regrouping.files ≡ [] }
    requires same { regrouping.query ≡ reached.old.query }
    ensures query { reached.new.query ≡ reached.old.query }
    ensures of_query { IfOk result (λ r. r.query ≡ regrouping.entry.query) }
    ensures keep { IfOk result (λ r. r.keep ≡ regrouping.entry.keep) }
    ensures files { IfOk result (λ r. r.files ≡ reached.new.states) }
    ensures holds { OnOk result (HoldsStates (query_tree reached.old.query) (S.told store.new)
        (S.held store.new) reached.new.states) }
    ensures damaged { (n : ℕ) → result ≡ Err (read_error.Damaged n) → IfSome (S.told store.old)
        (λ frames. IsFirstDamaged (query_tree reached.old.query) frames n) }
    ensures within { (n : ℕ) → result ≡ Err (read_error.Damaged n) → n < S.held store.old }
    ensures told { S.told store.new ≡ S.told store.old }
    ensures held { S.held store.new ≡ S.held store.old }
    ensures sure { S.sure store.new ≡ S.sure store.old }
    ensures path { S.path store.new ≡ S.path store.old }
    ensures cause { HasCause (S.faults store.old) (S.faults store.new)
        (IsErrOf result read_error.Store) }
    ensures calm { (IsErrOf result read_error.Store → ⊥) → S.faults store.new ≡ S.faults store.old }
{
    let mut regrouping = regrouping;
    let mut bytes = Vec::new(alloc);
    for number in 0..store.held() {
        let file = read_next(alloc, reached, store, number, &mut bytes)?;
        regrouping = regrouping.add(alloc, &file)?;
    }
    Ok(regrouping)
}

impl<'a, S: SpillStore + Drop> Summary<'a, S> {
    /// What the states come to by all keys.
    fn regroup(&mut self) -> Result<DataFrame, ReadError>
        ensures regrouped { IfOk result (λ f. IfSome (S.told self.old.store) (λ frames.
            f ≡ regrouped (query_tree self.old.query) self.old.states
            (all_keys (query_tree self.old.query)))) }
        ensures read { IfOk result (IsRegrouped (query_tree self.old.query)
            (S.told self.old.store) (S.held self.old.store)) }
        ensures query { self.new.query ≡ self.old.query }
        ensures states { self.new.states ≡ self.old.states }
        ensures told { S.told self.new.store ≡ S.told self.old.store }
        ensures held { S.held self.new.store ≡ S.held self.old.store }
        ensures sure { S.sure self.new.store ≡ S.sure self.old.store }
        ensures path { S.path self.new.store ≡ S.path self.old.store }
        ensures holds { HoldsStates (query_tree self.old.query) (S.told self.new.store)
            (S.held self.new.store) self.new.states }
        ensures cause { HasCause (S.faults self.old.store) (S.faults self.new.store)
            (IsErrOf result read_error.Store) }
        ensures calm { (IsErrOf result read_error.Store → ⊥)
            → S.faults self.new.store ≡ S.faults self.old.store }
        ensures damaged { (n : ℕ) → result ≡ Err (read_error.Damaged n)
            → S.told self.old.store ≡ None }
        ensures within { (n : ℕ) → result ≡ Err (read_error.Damaged n)
            → n < S.held self.old.store }
    {
        let query = self.reached.query();
        let keep = all_keys(self.alloc, query)?;
        let regrouping = Regrouping::begin(self.alloc, query, &keep)?;
        let mut reached = Reached::none(query);
        let regrouping = add_all(self.alloc, regrouping, &mut reached, &mut self.store)?;
        match regrouping.finish(self.alloc) {
            Ok(frame) => Ok(frame),
            // states in turn can be regrouped, so memory was wanting
            Err(_) => Err(ReadError::Memory),
        }
    }

    /// The answer of the query over all that was added. It holds one frame at a time beside the
    /// groups.
    pub fn answer(&mut self) -> Result<DataFrame, AnswerError>
        // It is what states in turn come to, as many as there are frames. Where the store tells
        // these, the states are theirs: so it is the answer over all chunks that the summary stands
        // for.
        ensures read { IfOk result (IsSummed (query_tree self.old.query) (S.told self.old.store)
            (S.held self.old.store)) }
        ensures summed { IfOk result (λ f. IfSome (S.told self.old.store)
            (λ frames. f ≡ summed (query_tree self.old.query) self.old.states)) }
        ensures answer { IfOk result (λ f. (chunks : List DataChunk)
            → StandsFor (query_tree self.old.query) (S.told self.old.store) chunks
            → f ≡ answer chunks (query_tree self.old.query) 1) }

        // Nothing changes but the count of a store that failed.
        ensures query { self.new.query ≡ self.old.query }
        ensures states { self.new.states ≡ self.old.states }
        ensures told { S.told self.new.store ≡ S.told self.old.store }
        ensures held { S.held self.new.store ≡ S.held self.old.store }
        ensures sure { S.sure self.new.store ≡ S.sure self.old.store }
        ensures path { S.path self.new.store ≡ S.path self.old.store }
        ensures holds { HoldsStates (query_tree self.old.query) (S.told self.new.store)
            (S.held self.new.store) self.new.states }
        ensures cause { HasCause (S.faults self.old.store) (S.faults self.new.store)
            (IsErrOf result read_error.Store) }
        ensures calm { (IsErrOf result read_error.Store → ⊥)
            → S.faults self.new.store ≡ S.faults self.old.store }

        // A store that tells its frames gives back none that is damaged; one that is told is held.
        ensures damaged { (n : ℕ) → result ≡ Err (read_error.Damaged n)
            → S.told self.old.store ≡ None }
        ensures within { (n : ℕ) → result ≡ Err (read_error.Damaged n)
            → n < S.held self.old.store }
    {
        self.recall();
        let frame = self.regroup()?;
        Ok(sliced(frame, self.reached.query().slice()))
    }
}
