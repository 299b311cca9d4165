//! A run before its first chunk.

ghost use Rattle.std.specs.Prelude.{◌≡◌, ◌==◌, ◌&&◌, [], IfErr, IfOk, None, OnOk, map, true, vec_len};
ghost use Rattle.pipe_aggs.specs.Faults.{first_fault};
ghost use Rattle.pipe_aggs.specs.QueryTrees.{query_tree};
ghost use Rattle.pipe_model.specs.Output.{key_types};
ghost use Rattle.pipe_plan.specs.Stores.{stores_seen};
ghost use Rattle.pipe_run.specs.Failing.{NoneFailed};
ghost use Rattle.pipe_run.specs.Refusals.{IsBeginCause, limits_fit, suits_keys};

use crate::group_by_run::{GroupByRun, Kind};
use crate::kind::is_generic;
use crate::typed_run::TypedRun;
use pipe_aggs::Query;
use pipe_plan::{Limits, SpillAction};
use pipe_run::{GenericRun, PipeError};
use pipe_spill::SpillStore;
use std::alloc::Global;
use std::hash::RandomState;
use std::sync::Wait;

impl<'a, S: SpillStore + Drop + Send> GroupByRun<'a, S> {
    /// A run before its first chunk, one partition for each store. It is refused with `Limits` where the
    /// limits don't fit, with `Query` where the query has a fault, with `Sink` where the kind of sink
    /// doesn't suit its keys, or with `Memory`; the stores come back as they were.
    pub fn begin<H: Wait>(
        rt: &H,
        alloc: Global,
        query: &'a Query,
        limits: &Limits,
        actions: Vec<Vec<SpillAction>>,
        stores: Vec<S>,
    ) -> Result<GroupByRun<'a, S>, (PipeError, Vec<S>)>
        ensures fit { OnOk result
            (limits_fit limits.now (vec_len actions) (map (λ s. S.held s) stores.items) ≡ true) }
        ensures faultless { OnOk result (first_fault query.now ≡ None) }
        ensures suited { OnOk result
            (suits_keys limits.now.sink (key_types (query_tree query.now)) ≡ true) }
        ensures setting { IfOk result (λ r. r.setting ≡ record {
          query = query.now;
          limits = limits.now;
          actions = map (λ v. v.items) actions.items;
          rules = [];
          stores = stores_seen S.held S.told S.faults S.sure S.path stores.items;
        }) }
        ensures chunks { IfOk result (λ r. r.chunks ≡ []) }
        ensures counted { IfOk result (λ r. NoneFailed
            (stores_seen S.held S.told S.faults S.sure S.path stores.items) r.stores) }
        ensures cause { IfErr result (λ e. IsBeginCause
            (limits_fit limits.now (vec_len actions) (map (λ s. S.held s) stores.items))
            (first_fault query.now)
            (suits_keys limits.now.sink (key_types (query_tree query.now))) e.0) }
        ensures back { IfErr result (λ e. e.1.items ≡ stores.items) }
    {
        let rules = Vec::new(alloc);
        GroupByRun::begun(rt, alloc, None, query, limits, actions, rules, stores)
    }

    /// Such a run in which each worker has a rule: the action that follows each of its turns past its
    /// list. Another number of rules than of workers is refused with `Limits` too. Its tables hash under
    /// keys (`CheckedQuery::hash_under`), on which nothing that it answers depends.
    pub fn begin_by_rules<H: Wait>(
        rt: &H,
        alloc: Global,
        hash_keys: Option<RandomState>,
        query: &'a Query,
        limits: &Limits,
        actions: Vec<Vec<SpillAction>>,
        rules: Vec<SpillAction>,
        stores: Vec<S>,
    ) -> Result<GroupByRun<'a, S>, (PipeError, Vec<S>)>
        ensures fit { OnOk result
            (limits_fit limits.now (vec_len actions) (map (λ s. S.held s) stores.items) ≡ true) }
        ensures each { OnOk result (vec_len rules ≡ limits.now.workers) }
        ensures faultless { OnOk result (first_fault query.now ≡ None) }
        ensures suited { OnOk result
            (suits_keys limits.now.sink (key_types (query_tree query.now)) ≡ true) }
        ensures setting { IfOk result (λ r. r.setting ≡ record {
          query = query.now;
          limits = limits.now;
          actions = map (λ v. v.items) actions.items;
          rules = rules.items;
          stores = stores_seen S.held S.told S.faults S.sure S.path stores.items;
        }) }
        ensures chunks { IfOk result (λ r. r.chunks ≡ []) }
        ensures counted { IfOk result (λ r. NoneFailed
            (stores_seen S.held S.told S.faults S.sure S.path stores.items) r.stores) }
        ensures cause { IfErr result (λ e. IsBeginCause
            (limits_fit limits.now (vec_len actions) (map (λ s. S.held s) stores.items)
            && (vec_len rules == limits.now.workers))
            (first_fault query.now)
            (suits_keys limits.now.sink (key_types (query_tree query.now))) e.0) }
        ensures back { IfErr result (λ e. e.1.items ≡ stores.items) }
    {
        if rules.len() != limits.workers {
            return Err((PipeError::Limits, stores));
        }
        GroupByRun::begun(rt, alloc, hash_keys, query, limits, actions, rules, stores)
    }

    /// Such a run with any number of rules.
    fn begun<H: Wait>(
        rt: &H,
        alloc: Global,
        hash_keys: Option<RandomState>,
        query: &'a Query,
        limits: &Limits,
        actions: Vec<Vec<SpillAction>>,
        rules: Vec<SpillAction>,
        stores: Vec<S>,
    ) -> Result<GroupByRun<'a, S>, (PipeError, Vec<S>)>
        ensures fit { OnOk result
            (limits_fit limits.now (vec_len actions) (map (λ s. S.held s) stores.items) ≡ true) }
        ensures faultless { OnOk result (first_fault query.now ≡ None) }
        ensures suited { OnOk result
            (suits_keys limits.now.sink (key_types (query_tree query.now)) ≡ true) }
        ensures setting { IfOk result (λ r. r.setting ≡ record {
          query = query.now;
          limits = limits.now;
          actions = map (λ v. v.items) actions.items;
          rules = rules.items;
          stores = stores_seen S.held S.told S.faults S.sure S.path stores.items;
        }) }
        ensures chunks { IfOk result (λ r. r.chunks ≡ []) }
        ensures counted { IfOk result (λ r. NoneFailed
            (stores_seen S.held S.told S.faults S.sure S.path stores.items) r.stores) }
        ensures cause { IfErr result (λ e. IsBeginCause
            (limits_fit limits.now (vec_len actions) (map (λ s. S.held s) stores.items))
            (first_fault query.now)
            (suits_keys limits.now.sink (key_types (query_tree query.now))) e.0) }
        ensures back { IfErr result (λ e. e.1.items ≡ stores.items) }
    {
        if !is_generic(limits.sink) {
            return match TypedRun::begin(alloc, hash_keys, query, limits, actions, rules, stores) {
                Ok(run) => Ok(GroupByRun {
                    kind: Kind::Typed(run),
                }),
                Err(refusal) => Err(refusal),
            };
        }
        match GenericRun::begin(rt, alloc, hash_keys, query, limits, actions, rules, stores) {
            Ok(run) => Ok(GroupByRun {
                kind: Kind::Generic(run),
            }),
            Err(refusal) => Err(refusal),
        }
    }
}
