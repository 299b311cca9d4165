//! A run before its first chunk.

ghost use Rattle.std.specs.Prelude.{◌≡◌, ◌<◌, ◌≤◌, ◌^◌, [], All, IfErr, IfOk, None, OnOk, length, map, true, vec_capacity, vec_len};
ghost use Rattle.pipe_aggs.specs.Faults.{first_fault};
ghost use Rattle.pipe_aggs.specs.QueryTrees.{query_tree};
ghost use Rattle.pipe_groups.specs.Shape.{shape_of};
ghost use Rattle.pipe_model.specs.Output.{key_types};
ghost use Rattle.pipe_plan.specs.Run.{AreLimits, is_generic};
ghost use Rattle.pipe_plan.specs.Stores.{stores_seen};
ghost use Rattle.pipe_run.specs.Fed.{IsUnused};
ghost use Rattle.pipe_run.specs.Failing.{NoneFailed};
ghost use Rattle.pipe_run.specs.Refusals.{IsBeginCause, limits_fit, suits_keys};

use crate::begun::Begun;
use crate::error::PipeError;
use crate::limits::{copy_of, limits_fit, suits_keys};
use crate::opening::{marks_of, opened, unused_workers};
use crate::run::GenericRun;
use pipe_aggs::{CheckError, CheckedQuery, Query};
use pipe_plan::{Limits, SpillAction};
use pipe_spill::SpillStore;
use pipe_workers::PausedWorker;
use std::alloc::{AllocError, Global};
use std::hash::RandomState;
use std::snapshot::Snapshot;
use std::sync::Wait;

/// The query of a run without fault, where its limits fit and its kind of sink suits the keys.
pub fn checked_query<'a, S: SpillStore + Drop>(
    alloc: Global,
    query: &'a Query,
    limits: &Limits,
    actions: usize,
    stores: &[S],
) -> Result<CheckedQuery<'a>, PipeError>
    ensures query { IfOk result (λ q. q ≡ query.now) }
    ensures fit { OnOk result
        (limits_fit limits.now actions (map (λ s. S.held s) stores.now) ≡ true) }
    ensures faultless { OnOk result (first_fault query.now ≡ None) }
    ensures suited { OnOk result
        (suits_keys limits.now.sink (key_types (query_tree query.now)) ≡ true) }
    ensures cause { IfErr result (λ e. IsBeginCause
        (limits_fit limits.now actions (map (λ s. S.held s) stores.now))
        (first_fault query.now)
        (suits_keys limits.now.sink (key_types (query_tree query.now))) e) }
{
    if !limits_fit(limits, actions, stores) {
        return Err(PipeError::Limits);
    }
    match query.check(alloc) {
        Ok(checked) => {
            if !suits_keys(limits.sink, checked.key_types()) {
                return Err(PipeError::Sink);
            }
            Ok(checked)
        }
        Err(CheckError::Fault(fault)) => Err(PipeError::Query(fault)),
        Err(CheckError::Memory) => Err(PipeError::Memory),
    }
}

impl<'a, S: SpillStore + Drop + Send> GenericRun<'a, S> {
    /// A run before its first chunk, one partition for each store, whose tables hash under keys
    /// (`CheckedQuery::hash_under`). It is refused with `Limits` where the limits don't fit, with `Query`
    /// where the query has a fault, or with `Memory`; the stores come back as they were.
    pub fn begin<H: Wait>(
        rt: &H,
        alloc: Global,
        hash_keys: Option<RandomState>,
        query: &'a Query,
        limits: &Limits,
        actions: Vec<Vec<SpillAction>>,
        rules: Vec<SpillAction>,
        stores: Vec<S>,
    ) -> Result<GenericRun<'a, S>, (PipeError, Vec<S>)>
        requires generic { is_generic limits.now.sink ≡ true }
        ensures fit { OnOk result
            (limits_fit limits.now (vec_len actions) (map (λ s. S.held s) stores.items) ≡ true) }
        ensures faultless { OnOk result (first_fault query.now ≡ None) }
        ensures setting { IfOk result (λ r. r.setting ≡ record {
          query = query.now;
          limits = limits.now;
          actions = map (λ v. v.items) actions.items;
          rules = rules.items;
          stores = stores_seen S.held S.told S.faults S.sure S.path stores.items;
        }) }
        ensures chunks { IfOk result (λ r. r.chunks ≡ []) }
        ensures counted { IfOk result (λ r. NoneFailed
            (stores_seen S.held S.told S.faults S.sure S.path stores.items) r.stores) }
        ensures cause { IfErr result (λ e. IsBeginCause
            (limits_fit limits.now (vec_len actions) (map (λ s. S.held s) stores.items))
            (first_fault query.now)
            (suits_keys limits.now.sink (key_types (query_tree query.now))) e.0) }
        ensures back { IfErr result (λ e. e.1.items ≡ stores.items) }
    {
        let mut checked = match checked_query(alloc, query, limits, actions.len(), &stores) {
            Ok(checked) => checked,
            Err(error) => return Err((error, stores)),
        };
        checked.hash_under(hash_keys);
        match GenericRun::before_chunks(rt, alloc, checked, limits, actions, rules, stores) {
            Ok(run) => Ok(run),
            Err((AllocError, stores)) => Err((PipeError::Memory, stores)),
        }
    }

    /// A run before its first chunk, whose limits fit.
    pub(crate) fn before_chunks<H: Wait>(
        rt: &H,
        alloc: Global,
        query: CheckedQuery<'a>,
        limits: &Limits,
        actions: Vec<Vec<SpillAction>>,
        rules: Vec<SpillAction>,
        stores: Vec<S>,
    ) -> Result<GenericRun<'a, S>, (AllocError, Vec<S>)>
        requires limits { AreLimits limits.now }
        requires generic { is_generic limits.now.sink ≡ true }
        requires few { limits.now.partitions < 2 ^ 32 }
        requires count { vec_len stores ≡ limits.now.partitions }
        requires former { All (λ s. S.held s < 2 ^ 63) stores.items }
        ensures setting { IfOk result (λ r. r.setting ≡ record {
          query = query.entry;
          limits = limits.now;
          actions = map (λ v. v.items) actions.items;
          rules = rules.items;
          stores = stores_seen S.held S.told S.faults S.sure S.path stores.items;
        }) }
        ensures chunks { IfOk result (λ r. r.chunks ≡ []) }
        ensures counted { IfOk result (λ r. NoneFailed
            (stores_seen S.held S.told S.faults S.sure S.path stores.items) r.stores) }
        ensures back { IfErr result (λ e. e.1.items ≡ stores.items) }
    {
        // Called for what its clauses say.
        let _query = query.query();
        let Ok(memory) = memory_for(alloc, &query, limits, &stores) else {
            drop(query);
            return Err((AllocError, stores));
        };
        let Memory {
            former,
            room,
            rested,
        } = memory;
        let begun = begun_of(query, limits, actions, rules, former);
        match opened(rt, alloc, &begun, stores) {
            Ok(closed) => Ok(GenericRun {
                begun,
                closed,
                rested,
                chunks: Vec::new(alloc),
                rows: 0,
                room,
            }),
            Err(refusal) => {
                drop(begun);
                Err(refusal)
            }
        }
    }
}

/// What a run takes memory for before its first chunk: marks of its stores, room for them, and workers
/// that took no chunk.
#[derive(Drop)]
struct Memory<S: SpillStore + Drop> {
    former: Vec<Snapshot<S>>,
    room: Vec<S>,
    rested: Vec<PausedWorker>,
}

/// The memory for a run over stores.
fn memory_for<S: SpillStore + Drop>(
    alloc: Global,
    query: &CheckedQuery<'_>,
    limits: &Limits,
    stores: &[S],
) -> Result<Memory<S>, AllocError>
    requires limits { AreLimits limits.now }
    requires generic { is_generic limits.now.sink ≡ true }
    ensures former { IfOk result (λ m. map (λ s. s.value) m.former.items ≡ stores.now) }
    ensures none { IfOk result (λ m. vec_len m.room ≡ 0) }
    ensures room { IfOk result (λ m. length stores.now ≤ vec_capacity m.room) }
    ensures len { IfOk result (λ m. vec_len m.rested ≡ limits.now.workers) }
    ensures unused { IfOk result
        (λ m. All (IsUnused limits.now (shape_of (query_tree query.now))) m.rested.items) }
{
    let former = marks_of(alloc, stores)?;
    let room = Vec::with_capacity(alloc, stores.len())?;
    let rested = unused_workers(alloc, query, limits)?;
    Ok(Memory {
        former,
        room,
        rested,
    })
}

/// How a run with such limits and actions is begun over stores of which these are marks.
fn begun_of<'a, S: SpillStore + Drop>(
    query: CheckedQuery<'a>,
    limits: &Limits,
    actions: Vec<Vec<SpillAction>>,
    rules: Vec<SpillAction>,
    former: Vec<Snapshot<S>>,
) -> Begun<'a, S>
    ensures { result ≡ record {
      query = query.entry;
      limits = limits.now;
      actions = map (λ v. v.items) actions.items;
      rules = rules.items;
      stores = stores_seen S.held S.told S.faults S.sure S.path (map (λ s. s.value) former.items);
    } }
{
    Begun {
        query,
        limits: copy_of(limits),
        actions,
        rules,
        former,
    }
}
