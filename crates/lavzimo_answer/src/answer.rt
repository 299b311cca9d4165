//! The answer to what is asked.

ghost use Rattle.std.specs.Prelude.{◌≡◌, ◌⊎◌, ◌+◌, ◌≤◌, All, IfSome, List, None, Some, false, ℕ};
ghost use Rattle.std.specs.Io.KnownBytes.{Appends};
ghost use Rattle.pipe_aggs.specs.Faults.{first_fault};
ghost use Rattle.pipe_columns.specs.Causes.{Rose};
ghost use Rattle.pipe_io.specs.Output.{WroteFront};
ghost use Rattle.pipe_io.specs.Tried.{TriedFront};
ghost use Rattle.pipe_plan.specs.Stores.{stores_seen};
ghost use Rattle.lavzimo_run.specs.Jobs.{CanRun, job_seen};
ghost use Rattle.lavzimo_run.specs.Stores.{AreMade, IsSoundStore, WereMadeIn};
ghost use Rattle.lavzimo_words.specs.Askable.{MayBeAsked};
ghost use Rattle.lavzimo_words.specs.Asked.{ask, asked_seen, question_seen};
ghost use Rattle.lavzimo_answer.specs.Asking.{files_asked, folder_asked, has_folder, stores_asked};
ghost use Rattle.lavzimo_answer.specs.Faults.{IsCaused, status_of};
ghost use Rattle.lavzimo_answer.specs.Headline.{HasNoRun, IsBegun, IsJobAnswered, IsLeft};
ghost use Rattle.lavzimo_answer.specs.Headline.{IsWritten};
ghost use Rattle.lavzimo_answer.specs.Inside.{IsBefore, IsJobFault};
ghost use Rattle.lavzimo_answer.specs.Names.{names_seen};
ghost use Rattle.tool_shell.specs.declared.status.TheConstants.{INPUT_FAILED};

use crate::asked_run::{partitions_of, workers_of};
use crate::ended::Ran;
use crate::fault::Fault;
use crate::names::{Names, names_of};
use crate::question::{Ready, ask_question};
use crate::written::write_answer;
use lavzimo_run::{Job, make_stores, run_job};
use lavzimo_shown::Showing;
use lavzimo_stores::SpillMaker;
use lavzimo_words::Asked;
use pipe_global::Gate;
use pipe_io::{InputFiles, Output};
use pipe_run::GroupByOutput;
use pipe_spill::SpillStore;
use pipe_words::Format;
use std::alloc::Global;
use std::hash::RandomState;
use std::sync::Wait;
use std::thread::Threads;

/// Runs a job over stores, and writes the text that is shown of its frame.
fn answer_job<
    S: SpillStore + Drop + Send,
    I: InputFiles,
    O: Output,
    G: Gate + Sync,
    H: Threads + Wait + Sync,
>(
    rt: &H,
    alloc: Global,
    gate: &G,
    hash_keys: Option<RandomState>,
    job: Job,
    names: Names,
    format: Format,
    showing: Showing,
    stores: Vec<S>,
    input: &mut I,
    output: &mut O,
) -> Ran<S>
    requires runs { CanRun (job_seen job) }
    requires faultless { first_fault job.query ≡ None }
    requires made { AreMade job.spill_dir job.partitions
        (stores_seen S.held S.told S.faults S.sure S.path stores.items) }
    ensures written { result.fault ≡ None → (text : List ℕ)
        × IsJobAnswered (job_seen job) format showing (I.told input.old) result.journals
        result.stores text × Appends (O.told output.old) (O.told output.new) text }
    ensures begun { result.fault ≡ Some Fault.OutputFailed → (text : List ℕ)
        × IsJobAnswered (job_seen job) format showing (I.told input.old) result.journals
        result.stores text × WroteFront (O.told output.old) (O.told output.new) text }
    ensures memory { result.fault ≡ Some Fault.Memory → (text : List ℕ)
        × IsJobAnswered (job_seen job) format showing (I.told input.old) result.journals
        result.stores text × ((output.new ≡ output.old)
        ⊎ WroteFront (O.told output.old) (O.told output.new) text) }
    ensures ended { IfSome result.fault (λ f. IsJobFault f (names_seen names) (job_seen job)
        (I.told input.old) result.journals result.stores) }
    ensures input_failed { IfSome result.fault
        (λ f. status_of f ≡ INPUT_FAILED → Rose (I.faults input.old) (I.faults input.new)) }
    ensures output_failed { result.fault ≡ Some Fault.OutputFailed
        → Rose (O.faults output.old) (O.faults output.new) }
    ensures tried { TriedFront (I.tried input.old) (I.tried input.new) job.files.items }
    ensures untouched { IfSome result.fault (λ f. IsBefore f → output.new ≡ output.old) }
    ensures in_memory { job.spill_dir ≡ None → All IsSoundStore result.stores }
{
    let (ended, stores) = run_job(rt, alloc, gate, hash_keys, job, stores, input);
    match ended {
        Ok(answered) => {
            let GroupByOutput {
                frame,
                journals,
                ..
            } = answered;
            let fault = write_answer(alloc, format, &showing, &frame, output);
            Ran {
                fault,
                journals,
                stores,
            }
        }
        Err(error) => Ran::stopped(alloc, Fault::Run { names, error }, stores),
    }
}

/// Answers what is asked: reads its query, makes the stores, runs it over the files, and writes the
/// text that is shown.
#[tactic(auto, using(crate::proofs::JobFacts::none_made_in))]
pub(crate) fn answer<
    I: InputFiles,
    O: Output,
    M: SpillMaker,
    G: Gate + Sync,
    H: Threads + Wait + Sync,
>(
    rt: &H,
    alloc: Global,
    processors: usize,
    asked: Asked,
    input: &mut I,
    output: &mut O,
    maker: &mut M,
    gate: &G,
) -> Ran<M::Store>
    requires askable { MayBeAsked (question_seen asked.question) }
    ensures written { result.fault ≡ None → IsWritten processors (ask (asked_seen asked))
        (I.told input.old) (O.told output.old) (O.told output.new) result.journals result.stores }
    ensures cause { IfSome result.fault (λ f. IsCaused processors f (ask (asked_seen asked))
        (I.told input.old) result.stores) }
    ensures left { IsLeft processors (ask (asked_seen asked)) (I.told input.old)
        result.journals result.stores }
    ensures input_failed { IfSome result.fault
        (λ f. status_of f ≡ INPUT_FAILED → Rose (I.faults input.old) (I.faults input.new)) }
    ensures tried { TriedFront (I.tried input.old) (I.tried input.new)
        (files_asked (ask (asked_seen asked))) }
    ensures output_failed { result.fault ≡ Some Fault.OutputFailed
        → Rose (O.faults output.old) (O.faults output.new) }
    ensures begun { result.fault ≡ Some Fault.OutputFailed
        → IsBegun processors (ask (asked_seen asked)) (I.told input.old)
        (O.told output.old) (O.told output.new) result.journals result.stores }
    ensures untouched { IfSome result.fault (λ f. IsBefore f → output.new ≡ output.old) }
    ensures memory { result.fault ≡ Some Fault.Memory → (output.new ≡ output.old)
        ⊎ IsBegun processors (ask (asked_seen asked)) (I.told input.old)
        (O.told output.old) (O.told output.new) result.journals result.stores }
    ensures in_memory { has_folder (ask (asked_seen asked)) ≡ false
        → All IsSoundStore result.stores }
    ensures made { HasNoRun result.journals result.stores ⊎ (M.made maker.new
        ≡ M.made maker.old + stores_asked (ask (asked_seen asked))) }
    ensures at_most { M.made maker.new
        ≤ M.made maker.old + stores_asked (ask (asked_seen asked)) }
    ensures folders { WereMadeIn (folder_asked (ask (asked_seen asked)))
        (M.folders maker.old) (M.folders maker.new) }
{
    let Asked {
        question,
        format,
        workers,
        partitions,
        spill_dir,
        files,
    } = asked;
    let partitions = partitions_of(&question, partitions);
    let ready = ask_question(alloc, &question, input);
    drop(question);
    let Ready { query, showing } = match ready {
        Ok(ready) => ready,
        Err(fault) => return Ran::nothing(alloc, Some(fault)),
    };
    let Ok(names) = names_of(alloc, &files, &query.schema) else {
        return Ran::nothing(alloc, Some(Fault::Memory));
    };
    let Ok(stores) = make_stores(alloc, maker, spill_dir.as_ref(), partitions) else {
        return Ran::nothing(alloc, Some(Fault::Memory));
    };
    let hash_keys = maker.hash_keys();
    let workers = workers_of(processors, workers);
    let job = Job {
        query,
        files,
        workers,
        partitions,
        spill_dir,
    };
    answer_job(
        rt, alloc, gate, hash_keys, job, names, format, showing, stores, input, output,
    )
}
