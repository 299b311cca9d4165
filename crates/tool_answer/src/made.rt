//! The lines that tell of a run over generated rows.

ghost use Rattle.std.specs.Prelude.{◌≡◌, ◌≢◌, ◌<◌, ◌⊎◌, ◌++◌, All, IfSome, None, Option, Some, true};
ghost use Rattle.std.specs.Io.KnownBytes.{Appends};
ghost use Rattle.pipe_columns.specs.Causes.{Rose};
ghost use Rattle.pipe_aggs.specs.Faults.{first_fault};
ghost use Rattle.pipe_aggs.specs.QueryTrees.{query_tree};
ghost use Rattle.pipe_io.specs.Files.{Files};
ghost use Rattle.pipe_io.specs.Output.{WroteFront};
ghost use Rattle.pipe_model.specs.Output.{key_types};
ghost use Rattle.pipe_words.specs.Plans.{CanRun, plan_seen};
ghost use Rattle.tool_made.specs.MadeQuery.{made_tree};
ghost use Rattle.tool_run.specs.MadeLines.{made_lines};
ghost use Rattle.tool_words.specs.Asked.{does_keep, makes};
ghost use Rattle.tool_answer.specs.Asking.{due_paths};
ghost use Rattle.tool_answer.specs.Ended.{IsSoundStore};
ghost use Rattle.tool_answer.specs.Faults.{IsCaused};
ghost use Rattle.tool_answer.specs.Headline.{HasNoRun, IsBegun, IsWritten};
ghost use Rattle.tool_answer.specs.Inside.{IsBefore, IsLeft, IsUnread};
ghost use Rattle.tool_answer.specs.declared.fault.ToolFault.TheVariants as fault;

use crate::ended::Ran;
use crate::fault::ToolFault;
use crate::made_run::run_rows;
use crate::stores::make_stores;
use pipe_global::{Gate, Journals};
use pipe_io::{Output, OutputError, write_all};
use pipe_run::GroupByOutput;
use std::alloc::{AllocError, Global};
use std::sync::Wait;
use std::thread::Threads;
use tool_run::made_lines;
use tool_stores::StoreMaker;
use tool_words::MadeQuestion;

/// Writes the lines that tell of a run over so many generated rows.
fn write_lines<O: Output>(
    alloc: Global,
    rows: u32,
    groups: &GroupByOutput,
    output: &mut O,
) -> Option<ToolFault>
    ensures done { result ≡ None
        → Appends (O.told output.old) (O.told output.new) (made_lines rows groups.now) }
    ensures output_failed { result ≡ Some fault.OutputFailed
        → Rose (O.faults output.old) (O.faults output.new) }
    ensures begun { result ≡ Some fault.OutputFailed
        → WroteFront (O.told output.old) (O.told output.new) (made_lines rows groups.now) }
    ensures memory { result ≡ Some fault.Memory → (output.new ≡ output.old)
        ⊎ WroteFront (O.told output.old) (O.told output.new) (made_lines rows groups.now) }
    ensures faults { IfSome result (λ f. (f ≡ fault.OutputFailed) ⊎ (f ≡ fault.Memory)) }
{
    let lines = match made_lines(alloc, rows, groups) {
        Ok(lines) => lines,
        Err(AllocError) => return Some(ToolFault::Memory),
    };
    match write_all(output, lines.as_bytes()) {
        Ok(()) => None,
        Err(OutputError::Failed) => Some(ToolFault::OutputFailed),
        Err(OutputError::Memory) => Some(ToolFault::Memory),
    }
}

/// Answers a question over generated rows: makes the stores, runs it, and writes the lines that tell of
/// the run.
pub fn answer_made<O: Output, M: StoreMaker, G: Gate + Sync, H: Threads + Wait + Sync>(
    rt: &H,
    alloc: Global,
    question: MadeQuestion,
    output: &mut O,
    maker: &mut M,
    gate: &G,
) -> Ran<M::Store>
    requires runs { CanRun (plan_seen question.plan) }
    requires faultless { first_fault question.query ≡ None }
    requires suited { does_keep question.plan.limits.sink
        (key_types (query_tree question.query)) ≡ true }
    requires query { query_tree question.query ≡ made_tree }
    requires some { 0 < question.rows.chunk }
    ensures written { result.fault ≡ None
        → IsWritten (makes (plan_seen question.plan) question.rows) None
        (O.told output.old) (O.told output.new) result.journals result.stores }
    ensures cause { (told : Option Files) → IfSome result.fault (λ f. IsCaused f
        (makes (plan_seen question.plan) question.rows) told result.stores) }
    ensures left { (told : Option Files) → IfSome result.fault (λ f. IsLeft f
        (makes (plan_seen question.plan) question.rows) told result.journals result.stores) }
    ensures output_failed { result.fault ≡ Some fault.OutputFailed
        → Rose (O.faults output.old) (O.faults output.new) }
    ensures begun { result.fault ≡ Some fault.OutputFailed
        → IsBegun (makes (plan_seen question.plan) question.rows) None
        (O.told output.old) (O.told output.new) result.journals result.stores }
    ensures untouched { IfSome result.fault (λ f. IsBefore f → output.new ≡ output.old) }
    ensures memory { result.fault ≡ Some fault.Memory → (output.new ≡ output.old)
        ⊎ IsBegun (makes (plan_seen question.plan) question.rows) None
        (O.told output.old) (O.told output.new) result.journals result.stores }
    ensures unread { IfSome result.fault (λ f. IsUnread f) }
    ensures in_memory { question.plan.spill_dir ≡ None → All IsSoundStore result.stores }
    ensures stores_made { result.fault ≢ Some fault.Memory → M.made maker.new ≡ M.made maker.old
        ++ due_paths (makes (plan_seen question.plan) question.rows) }
    ensures memory_made { HasNoRun result.journals result.stores ⊎ (M.made maker.new
        ≡ M.made maker.old ++ due_paths (makes (plan_seen question.plan) question.rows)) }
{
    let partitions = question.plan.limits.partitions;
    let rows = question.rows.rows;
    let folder = question.plan.spill_dir.as_ref();
    let Ok(stores) = make_stores(alloc, maker, folder, partitions) else {
        return Ran::nothing(alloc, ToolFault::Memory);
    };
    let (ended, stores) = run_rows(rt, alloc, question, stores, gate);
    match ended {
        Ok(groups) => {
            let fault = write_lines(alloc, rows, &groups, output);
            let GroupByOutput { journals, .. } = groups;
            Ran {
                fault,
                journals,
                stores,
            }
        }
        Err(fault) => Ran {
            fault: Some(fault),
            journals: Journals::new(Vec::new(alloc)),
            stores,
        },
    }
}
