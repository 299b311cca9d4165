//! A run over the files that are asked for.

ghost use Rattle.std.specs.Prelude.{◌≡◌, ◌++◌, [], All, IfErr, IfOk, IsErrOf, None, length, map, true, vec_len};
ghost use Rattle.pipe_aggs.specs.Faults.{first_fault};
ghost use Rattle.pipe_aggs.specs.QueryTrees.{query_tree};
ghost use Rattle.pipe_columns.specs.Causes.{Rose};
ghost use Rattle.pipe_io.specs.Tried.{TriedFront};
ghost use Rattle.pipe_lines.specs.Lines.{joined_texts};
ghost use Rattle.pipe_model.specs.Output.{key_types};
ghost use Rattle.pipe_run.specs.Failing.{NoneFailed};
ghost use Rattle.pipe_run.specs.Refusals.{limits_fit};
ghost use Rattle.pipe_words.specs.Plans.{CanRun, plan_seen};
ghost use Rattle.tool_words.specs.Asked.{asks, does_keep};
ghost use Rattle.pipe_plan.specs.Stores.{stores_seen};
ghost use Rattle.tool_stores.specs.StorePath.{store_paths};
ghost use Rattle.tool_answer.specs.Asking.{files_asked};
ghost use Rattle.tool_answer.specs.Ended.{IsMade, IsSoundStore};
ghost use Rattle.tool_answer.specs.Faults.{IsCaused};
ghost use Rattle.tool_answer.specs.Inside.{IsOfRun};
ghost use Rattle.tool_answer.specs.Headline.{AreFedInput, HasAnswer, HaveFront};
ghost use Rattle.tool_answer.specs.declared.fault.ToolFault.TheVariants as fault;

use crate::answer_text::AnswerText;
use crate::fault::{ToolFault, file_fault};
use crate::read::reader_of;
use crate::ready::{Ready, make_ready};
use pipe_aggs::Query;
use pipe_global::Gate;
use pipe_group_by::GroupByRun;
use pipe_io::InputFiles;
use pipe_plan::{Limits, SpillAction};
use pipe_run::PipeError;
use pipe_spill::SpillStore;
use pipe_words::Plan;
use std::alloc::Global;
use std::hash::RandomState;
use std::sync::Wait;
use std::thread::Threads;
use tool_run::{chunks_of_round, run_files};
use tool_words::Question;

/// A run before its first chunk, over stores as they were made, whose tables hash under keys.
#[tactic(auto, using(crate::proofs::RunFacts::keeps_suits, crate::proofs::RunFacts::rules_fit))]
pub fn begin_run<'a, S: SpillStore + Drop + Send, H: Wait>(
    rt: &H,
    alloc: Global,
    hash_keys: Option<RandomState>,
    query: &'a Query,
    limits: &Limits,
    actions: Vec<Vec<SpillAction>>,
    rules: Vec<SpillAction>,
    stores: Vec<S>,
) -> Result<GroupByRun<'a, S>, Vec<S>>
    requires fits { limits_fit limits.now (vec_len actions)
        (map (λ s. S.held s) stores.items) ≡ true }
    requires each { vec_len rules ≡ limits.now.workers }
    requires faultless { first_fault query.now ≡ None }
    requires suited { does_keep limits.now.sink (key_types (query_tree query.now)) ≡ true }
    ensures setting { IfOk result (λ r. r.setting ≡ record {
      query = query.now;
      limits = limits.now;
      actions = map (λ v. v.items) actions.items;
      rules = rules.items;
      stores = stores_seen S.held S.told S.faults S.sure S.path stores.items;
    }) }
    ensures chunks { IfOk result (λ r. r.chunks ≡ []) }
    ensures counted { IfOk result (λ r. NoneFailed
        (stores_seen S.held S.told S.faults S.sure S.path stores.items) r.stores) }
    ensures back { IfErr result (λ v. v.items ≡ stores.items) }
{
    match GroupByRun::begin_by_rules(rt, alloc, hash_keys, query, limits, actions, rules, stores) {
        Ok(run) => Ok(run),
        Err((PipeError::Memory, stores)) => Err(stores),
        Err((_, _)) => unreachable!(),
    }
}

/// Runs a question over stores and over the files that it names, of which the columns that the query
/// names are read and fed in rounds. Tables hash under keys. It gives the text of the groups. The stores
/// come back in order.
pub fn run_question<
    S: SpillStore + Drop + Send,
    I: InputFiles,
    G: Gate + Sync,
    H: Threads + Wait + Sync,
>(
    rt: &H,
    alloc: Global,
    hash_keys: Option<RandomState>,
    question: Question,
    stores: Vec<S>,
    input: &mut I,
    gate: &G,
) -> (Result<AnswerText, ToolFault>, Vec<S>)
    requires runs { CanRun (plan_seen question.plan) }
    requires faultless { first_fault question.query ≡ None }
    requires suited { does_keep question.plan.limits.sink
        (key_types (query_tree question.query)) ≡ true }
    requires made { All (IsMade question.plan.spill_dir)
        (stores_seen S.held S.told S.faults S.sure S.path stores.items) }
    requires count { length stores.items ≡ question.plan.limits.partitions }
    requires paths { map S.path stores.items
        ≡ store_paths question.plan.spill_dir question.plan.limits.partitions }
    ensures answered { IfOk result.0 (λ a. HasAnswer (plan_seen question.plan)
        (query_tree question.query) (I.told input.old) a.groups.journals
        (stores_seen S.held S.told S.faults S.sure S.path result.1.items)
        (a.head.items ++ joined_texts a.groups.text.texts.items)) }
    ensures cause { IfErr result.0 (λ f. IsCaused f
        (asks (plan_seen question.plan) (query_tree question.query)) (I.told input.old)
        (stores_seen S.held S.told S.faults S.sure S.path result.1.items)) }
    ensures of_run { IfErr result.0 (λ f. IsOfRun f) }
    ensures failed { IsErrOf result.0 fault.InputFailed
        → Rose (I.faults input.old) (I.faults input.new) }
    ensures tried { TriedFront (I.tried input.old) (I.tried input.new)
        (files_asked (asks (plan_seen question.plan) (query_tree question.query))) }
    ensures stopped { IfErr result.0 (λ _. HaveFront (plan_seen question.plan)
        (query_tree question.query)
        (AreFedInput (plan_seen question.plan) (query_tree question.query) (I.told input.old))
        (stores_seen S.held S.told S.faults S.sure S.path result.1.items)) }
    ensures in_memory { question.plan.spill_dir ≡ None
        → All IsSoundStore (stores_seen S.held S.told S.faults S.sure S.path result.1.items) }
{
    let Question { plan, query } = question;
    let Plan {
        limits,
        chunk,
        actions,
        rules,
        rows,
        words,
        spill_dir,
        format,
        ..
    } = plan;
    drop(spill_dir);
    let Ok(ready) = make_ready(alloc, query, format) else {
        return (Err(ToolFault::Memory), stores);
    };
    let Ready {
        schema,
        wanted,
        query,
        lines,
        head,
    } = ready;
    let run = match begin_run(
        rt, alloc, hash_keys, &query, &limits, actions, rules, stores,
    ) {
        Ok(run) => run,
        Err(stores) => return (Err(ToolFault::Memory), stores),
    };
    let Ok(mut reader) = reader_of(alloc, words, schema, wanted, chunk, rows) else {
        return (Err(ToolFault::Memory), run.into_stores());
    };
    let most = chunks_of_round(limits.workers, chunk);
    let threads = limits.workers;
    let (ended, stores) = run_files(
        rt,
        alloc,
        gate,
        run,
        input,
        &mut reader,
        &lines,
        most,
        threads,
    );
    match ended {
        Ok(groups) => (Ok(AnswerText { head, groups }), stores),
        Err(error) => (Err(file_fault(error)), stores),
    }
}
