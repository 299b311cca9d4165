//! What adds to a summary.

ghost use Rattle.std.specs.Prelude.{◌≡◌, ◌≢◌, ◌++◌, ◌∷◌, ◌≤◌, [], ℕ, Err, IfOk, IsErrOf, length, List, OnErr, OnOk, Ok, false};
ghost use Rattle.pipe_aggs.specs.QueryTrees.{query_tree};
ghost use Rattle.pipe_columns.specs.Causes.{HasCause};
ghost use Rattle.pipe_columns.specs.declared.data_chunk.DataChunk.{DataChunk};
ghost use Rattle.pipe_saving.specs.Refusals.{IsFirstMisfit};
ghost use Rattle.pipe_spill.specs.Store.{with_frame};
ghost use Rattle.pipe_spill.specs.declared.store.StoreError.TheVariants as store_error;
ghost use Rattle.pipe_states.specs.Regrouped.{end_of};
ghost use Rattle.pipe_states.specs.StateText.{state_text};
ghost use Rattle.pipe_states.specs.Together.{total_rows};
ghost use Rattle.pipe_summary.specs.Additions.{AreTooMany, CanBeAdded, state_behind, states_with, told_with};
ghost use Rattle.pipe_summary.specs.InTurn.{AreInTurn, HoldsStates};
ghost use Rattle.pipe_summary.specs.Sums.{StandsFor};
ghost use Rattle.pipe_summary.specs.declared.add_error.AddError.TheVariants as add_error;

use crate::add_error::{AddError, of_put};
use crate::adding::Adding;
use crate::rows::rows_behind;
use crate::summary::Summary;
use pipe_columns::DataChunk;
use pipe_saving::{SaveError, save};
use pipe_spill::{SpillStore, StoreError};
use pipe_states::{StateFile, write_state};
use std::alloc::AllocError;

impl<'a, S: SpillStore + Drop> Summary<'a, S> {
    /// Recalls what a summary keeps.
    pub(crate) fn recall(&self)
        ensures holds { HoldsStates (query_tree self.now.query) (S.told self.now.store)
            (S.held self.now.store) self.now.states }
        ensures unordered { (query_tree self.now.query).keeps_order ≡ false }
    {
        let _known = self.alloc;
    }

    /// The state of chunks behind those held.
    fn save_behind(&self, chunks: &[DataChunk]) -> Result<StateFile, AddError>
        requires { 1 ≤ length chunks.now }
        ensures state { IfOk result (λ f. f
            ≡ state_behind (query_tree self.now.query) self.now.states chunks.now) }
        ensures in_turn { IfOk result (λ f. AreInTurn (query_tree self.now.query)
            (self.now.states ++ f ∷ [])) }
        ensures ok { OnOk result (CanBeAdded self.now.query.schema self.now.states chunks.now) }
        ensures misfit { (i : ℕ) → result ≡ Err (add_error.Schema i)
            → IsFirstMisfit self.now.query.schema chunks.now i }
        ensures large { IsErrOf result add_error.TooLarge
            → AreTooMany self.now.query.schema self.now.states chunks.now }
        ensures memory { IsErrOf result add_error.Memory
            → CanBeAdded self.now.query.schema self.now.states chunks.now }
        ensures store { result ≢ Err add_error.Store }
    {
        let query = self.reached.query();
        let few = rows_behind(u64::from(self.reached.rows()), chunks).is_some();
        match save(self.alloc, query, self.reached.end(), chunks) {
            Ok(file) => {
                let _known = file.end();
                if few {
                    Ok(file)
                } else {
                    Err(AddError::TooLarge)
                }
            }
            Err(SaveError::Schema { chunk }) => Err(AddError::Schema { chunk }),
            Err(SaveError::TooLarge) => Err(AddError::TooLarge),
            Err(SaveError::Memory) => if few {
                Err(AddError::Memory)
            } else {
                Err(AddError::TooLarge)
            },
        }
    }

    /// Puts a state that stands in turn behind those held.
    fn put_state(&mut self, file: &StateFile) -> Result<(), StoreError>
        requires { AreInTurn (query_tree self.old.query) (self.old.states ++ file.now ∷ []) }
        ensures query { self.new.query ≡ self.old.query }
        ensures states { OnOk result (self.new.states ≡ self.old.states ++ file.now ∷ []) }
        ensures told { OnOk result (S.told self.new.store ≡ with_frame (S.told self.old.store)
            (state_text (query_tree self.old.query) file.now)) }
        ensures refused { OnErr result (self.new.states ≡ self.old.states) }
        ensures refused_told { OnErr result (S.told self.new.store ≡ S.told self.old.store) }
        ensures holds { HoldsStates (query_tree self.old.query) (S.told self.new.store)
            (S.held self.new.store) self.new.states }
        ensures sure { S.sure self.new.store ≡ S.sure self.old.store }
        ensures path { S.path self.new.store ≡ S.path self.old.store }
        ensures cause { HasCause (S.faults self.old.store) (S.faults self.new.store)
            (IsErrOf result store_error.Failed) }
        ensures calm { (IsErrOf result store_error.Failed → ⊥)
            → S.faults self.new.store ≡ S.faults self.old.store }
    {
        let Some(rows) = self.reached.rows_with(file) else {
            unreachable!()
        };
        let Ok(text) = write_state(self.alloc, self.reached.query(), file) else {
            return Err(StoreError::Memory);
        };
        match self.store.put(&text) {
            Ok(_) => {
                self.reached.push(file, rows);
                Ok(())
            }
            Err(error) => Err(error),
        }
    }

    /// Adds chunks: their state is one frame more. It reads none of the others. Without a chunk it
    /// changes nothing.
    pub fn add(&mut self, chunks: &[DataChunk]) -> Result<(), AddError>
        // The state begins where those held end, and its text is the frame.
        ensures query { self.new.query ≡ self.old.query }
        ensures states { OnOk result (self.new.states
            ≡ states_with (query_tree self.old.query) self.old.states chunks.now) }
        ensures told { OnOk result (S.told self.new.store
            ≡ told_with (query_tree self.old.query) (S.told self.old.store) self.old.states
            chunks.now) }

        // What stood for chunks stands for these followed by those added.
        ensures stands { OnOk result ((before : List DataChunk)
            → StandsFor (query_tree self.old.query) (S.told self.old.store) before
            → StandsFor (query_tree self.old.query) (S.told self.new.store)
            (before ++ chunks.now)) }
        ensures none { chunks.now ≡ [] → result ≡ Ok tt }
        ensures none_same { chunks.now ≡ [] → self.new ≡ self.old }

        // A refusal leaves summary and frames as before.
        ensures refused { OnErr result (self.new.states ≡ self.old.states) }
        ensures refused_told { OnErr result (S.told self.new.store ≡ S.told self.old.store) }
        ensures holds { HoldsStates (query_tree self.old.query) (S.told self.new.store)
            (S.held self.new.store) self.new.states }
        ensures sure { S.sure self.new.store ≡ S.sure self.old.store }
        ensures path { S.path self.new.store ≡ S.path self.old.store }

        // The first chunk with other columns is told, then that rows or chunks are too many with
        // those held; a failed store raised its count.
        ensures ok { OnOk result (CanBeAdded self.old.query.schema self.old.states chunks.now) }
        ensures misfit { (i : ℕ) → result ≡ Err (add_error.Schema i)
            → IsFirstMisfit self.old.query.schema chunks.now i }
        ensures large { IsErrOf result add_error.TooLarge
            → AreTooMany self.old.query.schema self.old.states chunks.now }
        ensures store { IsErrOf result add_error.Store
            → CanBeAdded self.old.query.schema self.old.states chunks.now }
        ensures memory { IsErrOf result add_error.Memory
            → CanBeAdded self.old.query.schema self.old.states chunks.now }
        ensures cause { HasCause (S.faults self.old.store) (S.faults self.new.store)
            (IsErrOf result add_error.Store) }
        ensures calm { (IsErrOf result add_error.Store → ⊥)
            → S.faults self.new.store ≡ S.faults self.old.store }
    {
        self.recall();
        if chunks.is_empty() {
            return Ok(());
        }
        let file = self.save_behind(chunks)?;
        match self.put_state(&file) {
            Ok(()) => Ok(()),
            Err(error) => Err(of_put(error)),
        }
    }

    /// Begins an addition whose chunks come one by one. The error is want of memory.
    pub fn begin(&self) -> Result<Adding<'a>, AllocError>
        ensures query { IfOk result (λ a. a.query ≡ self.now.query) }
        ensures rows { IfOk result (λ a. a.rows ≡ total_rows self.now.states) }
        ensures first { IfOk result (λ a. a.first ≡ end_of self.now.states) }
        ensures taken { IfOk result (λ a. a.taken ≡ []) }
    {
        Adding::begin(
            self.alloc,
            self.reached.query(),
            self.reached.rows(),
            self.reached.end(),
        )
    }

    /// Ends an addition that was begun where the summary stands: the state of its chunks is one
    /// frame more. Without a chunk it changes nothing.
    pub fn finish(&mut self, adding: Adding<'a>) -> Result<(), StoreError>
        requires query { adding.query ≡ self.old.query }
        requires rows { adding.rows ≡ total_rows self.old.states }
        requires first { adding.first ≡ end_of self.old.states }

        // The state begins where those held end, and its text is the frame.
        ensures query { self.new.query ≡ self.old.query }
        ensures states { OnOk result (self.new.states
            ≡ states_with (query_tree self.old.query) self.old.states adding.entry.taken) }
        ensures told { OnOk result (S.told self.new.store ≡ told_with (query_tree self.old.query)
            (S.told self.old.store) self.old.states adding.entry.taken) }

        // What stood for chunks stands for these followed by those added.
        ensures stands { OnOk result ((before : List DataChunk)
            → StandsFor (query_tree self.old.query) (S.told self.old.store) before
            → StandsFor (query_tree self.old.query) (S.told self.new.store)
            (before ++ adding.entry.taken)) }
        ensures can { CanBeAdded self.old.query.schema self.old.states adding.entry.taken }

        // A refusal leaves summary and frames as before; a failed store raised its count.
        ensures refused { OnErr result (self.new.states ≡ self.old.states) }
        ensures refused_told { OnErr result (S.told self.new.store ≡ S.told self.old.store) }
        ensures holds { HoldsStates (query_tree self.old.query) (S.told self.new.store)
            (S.held self.new.store) self.new.states }
        ensures sure { S.sure self.new.store ≡ S.sure self.old.store }
        ensures path { S.path self.new.store ≡ S.path self.old.store }
        ensures cause { HasCause (S.faults self.old.store) (S.faults self.new.store)
            (IsErrOf result store_error.Failed) }
        ensures calm { (IsErrOf result store_error.Failed → ⊥)
            → S.faults self.new.store ≡ S.faults self.old.store }
    {
        self.recall();
        let Ok(file) = adding.into_state() else {
            return Err(StoreError::Memory);
        };
        if file.first() == file.end() {
            return Ok(());
        }
        match self.put_state(&file) {
            Ok(()) => Ok(()),
            Err(error) => Err(error),
        }
    }
}
