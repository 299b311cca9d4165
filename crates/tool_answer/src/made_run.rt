//! A run over the rows that are generated.

ghost use Rattle.std.specs.Prelude.{◌≡◌, ◌<◌, All, IfErr, IfOk, None, Option, length, map, true};
ghost use Rattle.pipe_aggs.specs.Faults.{first_fault};
ghost use Rattle.pipe_aggs.specs.QueryTrees.{query_tree};
ghost use Rattle.pipe_io.specs.Files.{Files};
ghost use Rattle.pipe_model.specs.Output.{key_types};
ghost use Rattle.pipe_words.specs.Plans.{CanRun, plan_seen};
ghost use Rattle.tool_made.specs.MadeQuery.{made_tree};
ghost use Rattle.tool_run.specs.Answering.{AreFedMade};
ghost use Rattle.tool_words.specs.Asked.{does_keep, makes};
ghost use Rattle.pipe_plan.specs.Stores.{stores_seen};
ghost use Rattle.tool_stores.specs.StorePath.{store_paths};
ghost use Rattle.tool_answer.specs.Ended.{IsMade, IsSoundStore};
ghost use Rattle.tool_answer.specs.Faults.{IsCaused};
ghost use Rattle.tool_answer.specs.Headline.{HaveFront};
ghost use Rattle.tool_answer.specs.Inside.{IsOfStores};
ghost use Rattle.tool_answer.specs.MadeRun.{HasMadeRun};

use crate::fault::{ToolFault, file_fault};
use crate::run::begin_run;
use pipe_global::Gate;
use pipe_run::GroupByOutput;
use pipe_spill::SpillStore;
use pipe_words::Plan;
use std::alloc::Global;
use std::sync::Wait;
use std::thread::Threads;
use tool_run::{FileRunError, chunks_of_round, run_made};
use tool_words::MadeQuestion;

/// Runs a question over stores and over the rows that it generates, which are made and fed in rounds.
/// The stores come back in order.
pub fn run_rows<S: SpillStore + Drop + Send, G: Gate + Sync, H: Threads + Wait + Sync>(
    rt: &H,
    alloc: Global,
    question: MadeQuestion,
    stores: Vec<S>,
    gate: &G,
) -> (Result<GroupByOutput, ToolFault>, Vec<S>)
    requires runs { CanRun (plan_seen question.plan) }
    requires faultless { first_fault question.query ≡ None }
    requires suited { does_keep question.plan.limits.sink
        (key_types (query_tree question.query)) ≡ true }
    requires query { query_tree question.query ≡ made_tree }
    requires some { 0 < question.rows.chunk }
    requires made { All (IsMade question.plan.spill_dir)
        (stores_seen S.held S.told S.faults S.sure S.path stores.items) }
    requires count { length stores.items ≡ question.plan.limits.partitions }
    requires paths { map S.path stores.items
        ≡ store_paths question.plan.spill_dir question.plan.limits.partitions }
    ensures answered { IfOk result.0 (λ out. HasMadeRun (plan_seen question.plan) question.rows out
        (stores_seen S.held S.told S.faults S.sure S.path result.1.items)) }
    ensures cause { IfErr result.0 (λ f. (told : Option Files) → IsCaused f
        (makes (plan_seen question.plan) question.rows) told
        (stores_seen S.held S.told S.faults S.sure S.path result.1.items)) }
    ensures of_stores { IfErr result.0 (λ f. IsOfStores f) }
    ensures stopped { IfErr result.0 (λ _. HaveFront (plan_seen question.plan) made_tree
        (AreFedMade question.rows) (stores_seen S.held S.told S.faults S.sure S.path result.1.items)) }
    ensures in_memory { question.plan.spill_dir ≡ None
        → All IsSoundStore (stores_seen S.held S.told S.faults S.sure S.path result.1.items) }
{
    let MadeQuestion { plan, query, rows } = question;
    let Plan {
        limits,
        actions,
        rules,
        spill_dir,
        words,
        ..
    } = plan;
    drop(spill_dir);
    drop(words);
    let run = match begin_run(rt, alloc, None, &query, &limits, actions, rules, stores) {
        Ok(run) => run,
        Err(stores) => return (Err(ToolFault::Memory), stores),
    };
    let most = chunks_of_round(limits.workers, rows.chunk);
    let (ended, stores) = run_made(rt, alloc, gate, run, &rows, most);
    match ended {
        Ok(groups) => (Ok(groups), stores),
        Err(error) => (Err(file_fault(FileRunError::Run(error))), stores),
    }
}
