//! A run of typed sinks before its first chunk.

ghost use Rattle.std.specs.Prelude.{◌≡◌, ◌<◌, ◌≤◌, ◌^◌, [], All, IfErr, IfOk, None, OnOk, false, map, true, vec_len};
ghost use Rattle.pipe_aggs.specs.Faults.{first_fault};
ghost use Rattle.pipe_aggs.specs.QueryTrees.{query_tree};
ghost use Rattle.pipe_model.specs.Output.{key_types};
ghost use Rattle.pipe_plan.specs.Run.{is_generic};
ghost use Rattle.pipe_plan.specs.Stores.{stores_seen};
ghost use Rattle.pipe_run.specs.Failing.{NoneFailed};
ghost use Rattle.pipe_run.specs.Refusals.{IsBeginCause, limits_fit, suits_keys};
ghost use Rattle.pipe_sinks.specs.Marks.{IsSole};

use crate::typed_run::TypedRun;
use pipe_aggs::{CheckedQuery, Query};
use pipe_global::Journal;
use pipe_plan::{Limits, SpillAction};
use pipe_run::{PipeError, checked_query, copy_of};
use pipe_sinks::{PausedSink, SinkRun};
use pipe_spill::SpillStore;
use std::alloc::{AllocError, Global};
use std::hash::RandomState;

/// Sinks that took nothing, as many as there are workers.
fn unused_sinks(
    alloc: Global,
    query: &CheckedQuery<'_>,
    workers: usize,
    partitions: usize,
) -> Result<Vec<PausedSink>, AllocError>
    requires some { 0 < partitions }
    requires key { IsSole (key_types (query_tree query.now)) }
    ensures len { IfOk result (λ v. vec_len v ≡ workers) }
    ensures unused { IfOk result (λ v. All (λ s. s
        ≡ record { query = query.now; partitions = partitions; taken = [] }) v.items) }
{
    let mut sinks = Vec::new(alloc);
    for _worker in 0..workers {
        sinks.push(SinkRun::new(alloc, query, partitions)?.pause())?;
    }
    Ok(sinks)
}

impl<'a, S: SpillStore + Drop> TypedRun<'a, S> {
    /// A run before its first chunk, whose sinks hash under keys. The stores come back as they were where
    /// it is refused.
    pub(crate) fn begin(
        alloc: Global,
        hash_keys: Option<RandomState>,
        query: &'a Query,
        limits: &Limits,
        actions: Vec<Vec<SpillAction>>,
        rules: Vec<SpillAction>,
        stores: Vec<S>,
    ) -> Result<TypedRun<'a, S>, (PipeError, Vec<S>)>
        requires typed { is_generic limits.now.sink ≡ false }
        ensures fit { OnOk result
            (limits_fit limits.now (vec_len actions) (map (λ s. S.held s) stores.items) ≡ true) }
        ensures faultless { OnOk result (first_fault query.now ≡ None) }
        ensures suited { OnOk result
            (suits_keys limits.now.sink (key_types (query_tree query.now)) ≡ true) }
        ensures setting { IfOk result (λ r. r.setting ≡ record {
          query = query.now;
          limits = limits.now;
          actions = map (λ v. v.items) actions.items;
          rules = rules.items;
          stores = stores_seen S.held S.told S.faults S.sure S.path stores.items;
        }) }
        ensures chunks { IfOk result (λ r. r.chunks ≡ []) }
        ensures same { IfOk result (λ r. r.stores ≡
            stores_seen S.held S.told S.faults S.sure S.path stores.items) }
        ensures cause { IfErr result (λ e. IsBeginCause
            (limits_fit limits.now (vec_len actions) (map (λ s. S.held s) stores.items))
            (first_fault query.now)
            (suits_keys limits.now.sink (key_types (query_tree query.now))) e.0) }
        ensures back { IfErr result (λ e. e.1.items ≡ stores.items) }
    {
        let mut query = match checked_query(alloc, query, limits, actions.len(), &stores) {
            Ok(checked) => checked,
            Err(error) => return Err((error, stores)),
        };
        query.hash_under(hash_keys);
        let sinks = match unused_sinks(alloc, &query, limits.workers, limits.partitions) {
            Ok(sinks) => sinks,
            Err(AllocError) => return Err((PipeError::Memory, stores)),
        };
        Ok(TypedRun {
            query,
            limits: copy_of(limits),
            actions,
            rules,
            stores,
            sinks,
            chunks: Vec::new(alloc),
            rows: 0,
            journal: Journal::new(alloc),
        })
    }
}
