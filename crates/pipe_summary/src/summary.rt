//! A summary over a store of frames.

ghost use Rattle.std.specs.Prelude.{◌≡◌, ◌<◌, ℕ, IfErr, IfOk, IfSome, List, false};
ghost use Rattle.pipe_aggs.specs.QueryTrees.{query_tree};
ghost use Rattle.pipe_columns.specs.Causes.{HasCause};
ghost use Rattle.pipe_columns.specs.declared.data_chunk.DataChunk.{DataChunk};
ghost use Rattle.pipe_summary.specs.InTurn.{HoldsStates, IsFirstDamaged};
ghost use Rattle.pipe_summary.specs.Sums.{StandsFor};
ghost use Rattle.pipe_summary.specs.declared.read_error.ReadError.TheVariants as read_error;

use crate::reached::Reached;
use crate::read_error::OpenError;
use crate::reading::read_all;
use pipe_aggs::CheckedQuery;
use pipe_spill::SpillStore;
use std::alloc::Global;
use std::marker::Model;

/// What chunks come to, an addition one frame of a store. Contracts see the query, the store, and
/// the states that its frames are, though of these the code holds nothing but where they end and of
/// how many rows they are.
#[derive(Drop)]
pub struct Summary<'a, S: SpillStore + Drop> {
    pub(crate) alloc: Global,
    pub(crate) store: S,
    pub(crate) reached: Reached<'a>,
}

impl<'a, S: SpillStore + Drop> Model for Summary<'a, S> {
    ghost use Rattle.pipe_aggs.specs.QueryTrees.{query_tree};
    ghost use Rattle.pipe_summary.specs.Held.{IsSummary};
    ghost use Rattle.pipe_summary.specs.Seen.{SummarySeen};

    ghost Value = { SummarySeen S };

    ghost view = { λ s. record {
      query = s.reached.query;
      store = s.store;
      states = s.reached.states;
    } };

    ghost invariant = { λ s. IsSummary (query_tree s.reached.query) (S.told s.store)
        (S.held s.store) s.reached.states };
}

impl<'a, S: SpillStore + Drop> Summary<'a, S> {
    /// Opens the summary that a store holds, whose frames are read one at a time. A refusal gives
    /// the store back.
    pub fn open(
        alloc: Global,
        query: &'a CheckedQuery<'a>,
        store: S,
    ) -> Result<Summary<'a, S>, (OpenError, S)>
        requires { (query_tree query.now).keeps_order ≡ false }

        // The frames are the texts of states in turn, and stay as they were.
        ensures query { IfOk result (λ s. s.query ≡ query.now) }
        ensures holds { IfOk result (λ s. HoldsStates (query_tree query.now) (S.told s.store)
            (S.held s.store) s.states) }
        ensures told { IfOk result (λ s. S.told s.store ≡ S.told store) }
        ensures held { IfOk result (λ s. S.held s.store ≡ S.held store) }
        ensures sure { IfOk result (λ s. S.sure s.store ≡ S.sure store) }
        ensures path { IfOk result (λ s. S.path s.store ≡ S.path store) }
        ensures calm { IfOk result (λ s. S.faults s.store ≡ S.faults store) }

        // It stands for all chunks that the frames sum up.
        ensures stands { IfOk result (λ s. (chunks : List DataChunk)
            → StandsFor (query_tree query.now) (S.told store) chunks
            → StandsFor (query_tree query.now) (S.told s.store) chunks) }

        // A damaged frame is the first; a failed store raised its count. So is it where the store
        // is given back, with its frames.
        ensures damaged { IfErr result (λ e. (n : ℕ) → e.0 ≡ read_error.Damaged n
            → IfSome (S.told store) (λ frames. IsFirstDamaged (query_tree query.now) frames n)) }
        ensures within { IfErr result (λ e. (n : ℕ) → e.0 ≡ read_error.Damaged n
            → n < S.held store) }
        ensures cause { IfErr result (λ e. HasCause (S.faults store) (S.faults e.1)
            (e.0 ≡ read_error.Store)) }
        ensures calm_refusal { IfErr result (λ e. (e.0 ≡ read_error.Store → ⊥)
            → S.faults e.1 ≡ S.faults store) }
        ensures told_back { IfErr result (λ e. S.told e.1 ≡ S.told store) }
        ensures held_back { IfErr result (λ e. S.held e.1 ≡ S.held store) }
        ensures sure_back { IfErr result (λ e. S.sure e.1 ≡ S.sure store) }
        ensures path_back { IfErr result (λ e. S.path e.1 ≡ S.path store) }
    {
        let mut reached = Reached::none(query);
        let mut store = store;
        match read_all(alloc, &mut reached, &mut store) {
            Ok(()) => Ok(Summary {
                alloc,
                store,
                reached,
            }),
            Err(error) => {
                drop(reached);
                Err((error, store))
            }
        }
    }

    /// The store, with its frames.
    pub fn into_store(self) -> S
        ensures store { result ≡ self.entry.store }
        ensures holds { HoldsStates (query_tree self.entry.query) (S.told result) (S.held result)
            self.entry.states }
    {
        let Summary {
            alloc: _,
            store,
            reached,
        } = self;
        drop(reached);
        store
    }
}
