//! A summary as one frame.

ghost use Rattle.std.specs.Prelude.{◌≡◌, ◌≢◌, ◌<◌, ◌≤◌, ℕ, [], Err, IfOk, IfSome, IsErrOf, List, None, OnErr, OnOk, length};
ghost use Rattle.pipe_aggs.specs.QueryTrees.{query_tree};
ghost use Rattle.pipe_columns.specs.Causes.{HasCause};
ghost use Rattle.pipe_columns.specs.declared.data_chunk.DataChunk.{DataChunk};
ghost use Rattle.pipe_spill.specs.Store.{with_frame};
ghost use Rattle.pipe_states.specs.Regrouped.{merged_states};
ghost use Rattle.pipe_states.specs.StateText.{state_text};
ghost use Rattle.pipe_summary.specs.InTurn.{AreInTurn, HoldsStates, IsFirstDamaged};
ghost use Rattle.pipe_summary.specs.Summed.{compacted, IsMerged, told_merged};
ghost use Rattle.pipe_summary.specs.Sums.{StandsFor};
ghost use Rattle.pipe_summary.specs.declared.compact_error.CompactError.TheVariants as fault;
ghost use Rattle.pipe_summary.specs.declared.read_error.ReadError.TheVariants as read_error;

use crate::compact_error::{CompactError, of_read};
use crate::reached::Reached;
use crate::read_error::ReadError;
use crate::reading::read_next;
use crate::summary::Summary;
use pipe_aggs::CheckedQuery;
use pipe_regroup::{MergeError, merge_files};
use pipe_spill::{SpillStore, StoreError};
use pipe_states::{StateFile, write_state};
use std::alloc::{AllocError, Global};

/// The states of all frames of a store.
fn read_files<S: SpillStore>(
    alloc: Global,
    reached: &mut Reached<'_>,
    store: &mut S,
) -> Result<Vec<StateFile>, ReadError>
    requires { reached.old.states ≡ [] }
    ensures query { reached.new.query ≡ reached.old.query }
    ensures files { IfOk result (λ v. v.items ≡ reached.new.states) }
    ensures holds { OnOk result (HoldsStates (query_tree reached.old.query) (S.told store.new)
        (S.held store.new) reached.new.states) }
    ensures damaged { (n : ℕ) → result ≡ Err (read_error.Damaged n) → IfSome (S.told store.old)
        (λ frames. IsFirstDamaged (query_tree reached.old.query) frames n) }
    ensures within { (n : ℕ) → result ≡ Err (read_error.Damaged n) → n < S.held store.old }
    ensures told { S.told store.new ≡ S.told store.old }
    ensures held { S.held store.new ≡ S.held store.old }
    ensures sure { S.sure store.new ≡ S.sure store.old }
    ensures path { S.path store.new ≡ S.path store.old }
    ensures cause { HasCause (S.faults store.old) (S.faults store.new)
        (IsErrOf result read_error.Store) }
    ensures calm { (IsErrOf result read_error.Store → ⊥) → S.faults store.new ≡ S.faults store.old }
{
    let mut files = Vec::new(alloc);
    let mut bytes = Vec::new(alloc);
    for number in 0..store.held() {
        let file = read_next(alloc, reached, store, number, &mut bytes)?;
        files.push(file)?;
    }
    Ok(files)
}

/// The text of states in turn, merged.
fn merged_text(
    alloc: Global,
    query: &CheckedQuery<'_>,
    files: &[StateFile],
) -> Result<Vec<u8>, AllocError>
    requires some { 1 ≤ length files.now }
    requires in_turn { AreInTurn (query_tree query.now) files.now }
    ensures { IfOk result (λ text. text.items ≡ state_text (query_tree query.now)
        (merged_states (query_tree query.now) files.now)) }
{
    match merge_files(alloc, query, files) {
        Ok(merged) => write_state(alloc, query, &merged),
        Err(MergeError::Memory) => Err(AllocError),
        Err(MergeError::TooLarge) => unreachable!(),
    }
}

/// Puts a frame into a store.
fn put_into<T: SpillStore>(frame: &[u8], into: &mut T) -> Result<(), CompactError>
    requires { T.held into.old ≡ 0 }
    ensures told { OnOk result (T.told into.new ≡ with_frame (T.told into.old) frame.now) }
    ensures held { OnOk result (T.held into.new ≡ 1) }
    ensures refused { OnErr result (T.told into.new ≡ T.told into.old) }
    ensures refused_held { OnErr result (T.held into.new ≡ 0) }
    ensures sure { T.sure into.new ≡ T.sure into.old }
    ensures path { T.path into.new ≡ T.path into.old }
    ensures cause { HasCause (T.faults into.old) (T.faults into.new) (IsErrOf result fault.Into) }
    ensures calm { (IsErrOf result fault.Into → ⊥) → T.faults into.new ≡ T.faults into.old }
    ensures store { result ≢ Err fault.Store }
    ensures damaged { (n : ℕ) → result ≢ Err (fault.Damaged n) }
{
    match into.put(frame) {
        Ok(_) => Ok(()),
        Err(StoreError::Failed) => Err(CompactError::Into),
        Err(StoreError::Memory) => Err(CompactError::Memory),
    }
}

impl<'a, S: SpillStore + Drop> Summary<'a, S> {
    /// The states that the frames tell.
    fn read_again(&mut self) -> Result<Vec<StateFile>, ReadError>
        ensures files { IfOk result (λ v. IfSome (S.told self.old.store)
            (λ frames. v.items ≡ self.old.states)) }
        ensures read { IfOk result (λ v. HoldsStates (query_tree self.old.query)
            (S.told self.old.store) (S.held self.old.store) v.items) }
        ensures in_turn { IfOk result (λ v. AreInTurn (query_tree self.old.query) v.items) }
        ensures count { IfOk result (λ v. length v.items ≡ length self.old.states) }
        ensures query { self.new.query ≡ self.old.query }
        ensures states { self.new.states ≡ self.old.states }
        ensures told { S.told self.new.store ≡ S.told self.old.store }
        ensures held { S.held self.new.store ≡ S.held self.old.store }
        ensures sure { S.sure self.new.store ≡ S.sure self.old.store }
        ensures path { S.path self.new.store ≡ S.path self.old.store }
        ensures holds { HoldsStates (query_tree self.old.query) (S.told self.new.store)
            (S.held self.new.store) self.new.states }
        ensures cause { HasCause (S.faults self.old.store) (S.faults self.new.store)
            (IsErrOf result read_error.Store) }
        ensures calm { (IsErrOf result read_error.Store → ⊥)
            → S.faults self.new.store ≡ S.faults self.old.store }
        ensures damaged { (n : ℕ) → result ≡ Err (read_error.Damaged n)
            → S.told self.old.store ≡ None }
        ensures within { (n : ℕ) → result ≡ Err (read_error.Damaged n)
            → n < S.held self.old.store }
    {
        let mut reached = Reached::none(self.reached.query());
        match read_files(self.alloc, &mut reached, &mut self.store) {
            Ok(files) => Ok(files),
            Err(error) => Err(error),
        }
    }

    /// Puts the summary as one frame into another store, which holds none. Of an empty summary
    /// there is none.
    pub fn compact<T: SpillStore>(&mut self, into: &mut T) -> Result<(), CompactError>
        requires { T.held into.old ≡ 0 }

        // The frame is the text of states in turn merged, as many as there are frames. Where the
        // summary's store tells these, the states are theirs: so the other store stands for all
        // chunks that the summary stands for.
        ensures read { OnOk result (IsMerged (query_tree self.old.query) (S.told self.old.store)
            (S.held self.old.store) (T.told into.old) (T.told into.new)) }
        ensures merged { OnOk result (IfSome (S.told self.old.store) (λ frames. T.told into.new
            ≡ told_merged (query_tree self.old.query) (T.told into.old) self.old.states)) }
        ensures count { OnOk result (T.held into.new
            ≡ length (compacted (query_tree self.old.query) self.old.states)) }
        ensures stands { OnOk result ((chunks : List DataChunk)
            → StandsFor (query_tree self.old.query) (S.told self.old.store) chunks
            → IfSome (T.told into.new)
            (λ frames. StandsFor (query_tree self.old.query) (T.told into.new) chunks)) }

        // A refusal leaves the other store empty.
        ensures refused { OnErr result (T.told into.new ≡ T.told into.old) }
        ensures refused_held { OnErr result (T.held into.new ≡ 0) }
        ensures into_sure { T.sure into.new ≡ T.sure into.old }
        ensures into_path { T.path into.new ≡ T.path into.old }
        ensures into_cause { HasCause (T.faults into.old) (T.faults into.new)
            (IsErrOf result fault.Into) }
        ensures into_calm { (IsErrOf result fault.Into → ⊥)
            → T.faults into.new ≡ T.faults into.old }

        // Nothing of the summary changes but the count of a store that failed.
        ensures query { self.new.query ≡ self.old.query }
        ensures states { self.new.states ≡ self.old.states }
        ensures told { S.told self.new.store ≡ S.told self.old.store }
        ensures held { S.held self.new.store ≡ S.held self.old.store }
        ensures sure { S.sure self.new.store ≡ S.sure self.old.store }
        ensures path { S.path self.new.store ≡ S.path self.old.store }
        ensures holds { HoldsStates (query_tree self.old.query) (S.told self.new.store)
            (S.held self.new.store) self.new.states }
        ensures cause { HasCause (S.faults self.old.store) (S.faults self.new.store)
            (IsErrOf result fault.Store) }
        ensures calm { (IsErrOf result fault.Store → ⊥)
            → S.faults self.new.store ≡ S.faults self.old.store }

        // A store that tells its frames gives back none that is damaged; one that is told is held.
        ensures damaged { (n : ℕ) → result ≡ Err (fault.Damaged n) → S.told self.old.store ≡ None }
        ensures within { (n : ℕ) → result ≡ Err (fault.Damaged n) → n < S.held self.old.store }
    {
        self.recall();
        let files = match self.read_again() {
            Ok(files) => files,
            Err(error) => return Err(of_read(error)),
        };
        if files.is_empty() {
            return Ok(());
        }
        let Ok(text) = merged_text(self.alloc, self.reached.query(), &files) else {
            return Err(CompactError::Memory);
        };
        drop(files);
        match put_into(&text, into) {
            Ok(()) => Ok(()),
            Err(error) => Err(error),
        }
    }
}
