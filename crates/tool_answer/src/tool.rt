//! One question, from the words of a command to the bytes of its output.

ghost use Rattle.std.specs.Prelude.{◌≡◌, ◌≢◌, ◌⊎◌, ◌++◌, All, IfSome, IsSome, IsTrue, None, Some, false, map, true};
ghost use Rattle.std.specs.Io.KnownBytes.{Appends};
ghost use Rattle.pipe_columns.specs.Causes.{Rose};
ghost use Rattle.pipe_io.specs.Output.{WroteFront};
ghost use Rattle.pipe_io.specs.Tried.{TriedFront};
ghost use Rattle.pipe_aggs.specs.Faults.{first_fault};
ghost use Rattle.pipe_aggs.specs.QueryTrees.{query_tree};
ghost use Rattle.pipe_lines.specs.Lines.{joined_texts};
ghost use Rattle.pipe_model.specs.Output.{key_types};
ghost use Rattle.pipe_words.specs.Plans.{CanRun, plan_seen};
ghost use Rattle.tool_words.specs.Asked.{asked, asks, does_keep, is_refused, reads_none};
ghost use Rattle.tool_answer.specs.Asking.{due_paths, files_asked, has_folder};
ghost use Rattle.tool_answer.specs.Ended.{IsSoundStore, NeverFailed};
ghost use Rattle.tool_answer.specs.Faults.{IsCaused};
ghost use Rattle.tool_answer.specs.Inside.{EndsMade, EndsRefused, IsBefore, IsLeft};
ghost use Rattle.tool_answer.specs.Headline.{HasNoRun, HasRun, HasStopped, IsAnswerWritten, IsBegun, IsWritten};
ghost use Rattle.tool_answer.specs.Status.{EndsAsDue, EndsUnread, FrameDamaged, IsDue, IsRefusal, ReportsFault, ReportsFront, StoreFailed, is_answer, is_read_end, is_refusal, is_status, is_stopped};
ghost use Rattle.tool_answer.specs.declared.fault.ToolFault.TheVariants as fault;

use crate::answer_text::{AnswerText, journals_of};
use crate::ended::{Ran, ToolEnd};
use crate::fault::{ToolFault, ask_fault};
use crate::line::report;
use crate::made::answer_made;
use crate::run::run_question;
use crate::stores::make_stores;
use pipe_columns::Text;
use pipe_global::{Gate, Journals};
use pipe_io::{InputFiles, Output};
use pipe_writers::{WriteError, write_texts};
use std::alloc::Global;
use std::sync::Wait;
use std::thread::Threads;
use tool_shell::{
    DAMAGED, DONE, INPUT_FAILED, INPUT_REFUSED, NO_MEMORY, OUTPUT_FAILED, STORE_FAILED, TOO_LARGE,
};
use tool_stores::StoreMaker;
use tool_words::{Question, Request, read_request};

/// Writes the text of an answer.
fn write_answer<O: Output>(answer: &AnswerText, output: &mut O) -> Option<ToolFault>
    ensures done { result ≡ None → Appends (O.told output.old) (O.told output.new)
        (answer.now.head.items ++ joined_texts answer.now.groups.text.texts.items) }
    ensures output_failed { result ≡ Some fault.OutputFailed
        → Rose (O.faults output.old) (O.faults output.new) }
    ensures begun { result ≡ Some fault.OutputFailed
        → WroteFront (O.told output.old) (O.told output.new)
        (answer.now.head.items ++ joined_texts answer.now.groups.text.texts.items) }
    ensures memory { result ≡ Some fault.Memory → (output.new ≡ output.old)
        ⊎ WroteFront (O.told output.old) (O.told output.new)
        (answer.now.head.items ++ joined_texts answer.now.groups.text.texts.items) }
    ensures faults { IfSome result (λ f. (f ≡ fault.OutputFailed) ⊎ (f ≡ fault.Memory)) }
{
    let texts = &answer.groups.text.texts;
    match write_texts(output, &answer.head, texts) {
        Ok(()) => None,
        Err(WriteError::Output) => Some(ToolFault::OutputFailed),
        Err(WriteError::Memory) => Some(ToolFault::Memory),
    }
}

/// Answers a question: makes the stores, runs it over the files, and writes the text of its groups.
fn answer_question<
    I: InputFiles,
    O: Output,
    M: StoreMaker,
    G: Gate + Sync,
    H: Threads + Wait + Sync,
>(
    rt: &H,
    alloc: Global,
    question: Question,
    input: &mut I,
    output: &mut O,
    maker: &mut M,
    gate: &G,
) -> Ran<M::Store>
    requires runs { CanRun (plan_seen question.plan) }
    requires faultless { first_fault question.query ≡ None }
    requires suited { does_keep question.plan.limits.sink
        (key_types (query_tree question.query)) ≡ true }
    ensures written { result.fault ≡ None
        → IsWritten (asks (plan_seen question.plan) (query_tree question.query)) (I.told input.old)
        (O.told output.old) (O.told output.new) result.journals result.stores }
    ensures cause { IfSome result.fault (λ f. IsCaused f
        (asks (plan_seen question.plan) (query_tree question.query)) (I.told input.old)
        result.stores) }
    ensures left { IfSome result.fault (λ f. IsLeft f
        (asks (plan_seen question.plan) (query_tree question.query)) (I.told input.old)
        result.journals result.stores) }
    ensures input_failed { result.fault ≡ Some fault.InputFailed
        → Rose (I.faults input.old) (I.faults input.new) }
    ensures tried { TriedFront (I.tried input.old) (I.tried input.new)
        (files_asked (asks (plan_seen question.plan) (query_tree question.query))) }
    ensures output_failed { result.fault ≡ Some fault.OutputFailed
        → Rose (O.faults output.old) (O.faults output.new) }
    ensures begun { result.fault ≡ Some fault.OutputFailed
        → IsBegun (asks (plan_seen question.plan) (query_tree question.query)) (I.told input.old)
        (O.told output.old) (O.told output.new) result.journals result.stores }
    ensures untouched { IfSome result.fault (λ f. IsBefore f → output.new ≡ output.old) }
    ensures memory { result.fault ≡ Some fault.Memory → (output.new ≡ output.old)
        ⊎ IsBegun (asks (plan_seen question.plan) (query_tree question.query)) (I.told input.old)
        (O.told output.old) (O.told output.new) result.journals result.stores }
    ensures in_memory { question.plan.spill_dir ≡ None → All IsSoundStore result.stores }
    ensures stores_made { result.fault ≢ Some fault.Memory → M.made maker.new ≡ M.made maker.old
        ++ due_paths (asks (plan_seen question.plan) (query_tree question.query)) }
    ensures memory_made { HasNoRun result.journals result.stores ⊎ (M.made maker.new
        ≡ M.made maker.old ++ due_paths (asks (plan_seen question.plan) (query_tree question.query))) }
{
    let partitions = question.plan.limits.partitions;
    let folder = question.plan.spill_dir.as_ref();
    let Ok(stores) = make_stores(alloc, maker, folder, partitions) else {
        return Ran::nothing(alloc, ToolFault::Memory);
    };
    let hash_keys = maker.hash_keys();
    let (ended, stores) = run_question(rt, alloc, hash_keys, question, stores, input, gate);
    match ended {
        Ok(answer) => {
            let fault = write_answer(&answer, output);
            Ran {
                fault,
                journals: journals_of(answer),
                stores,
            }
        }
        Err(fault) => Ran {
            fault: Some(fault),
            journals: Journals::new(Vec::new(alloc)),
            stores,
        },
    }
}

/// Reads what words ask for, and answers it.
fn run<I: InputFiles, O: Output, M: StoreMaker, G: Gate + Sync, H: Threads + Wait + Sync>(
    rt: &H,
    alloc: Global,
    words: &[Text],
    input: &mut I,
    output: &mut O,
    maker: &mut M,
    gate: &G,
) -> Ran<M::Store>
    ensures written { result.fault ≡ None → IsWritten (asked words.now) (I.told input.old)
        (O.told output.old) (O.told output.new) result.journals result.stores }
    ensures cause { IfSome result.fault
        (λ f. IsCaused f (asked words.now) (I.told input.old) result.stores) }
    ensures left { IfSome result.fault
        (λ f. IsLeft f (asked words.now) (I.told input.old) result.journals result.stores) }
    ensures input_failed { result.fault ≡ Some fault.InputFailed
        → Rose (I.faults input.old) (I.faults input.new) }
    ensures tried { TriedFront (I.tried input.old) (I.tried input.new)
        (files_asked (asked words.now)) }
    ensures output_failed { result.fault ≡ Some fault.OutputFailed
        → Rose (O.faults output.old) (O.faults output.new) }
    ensures begun { result.fault ≡ Some fault.OutputFailed → IsBegun (asked words.now)
        (I.told input.old) (O.told output.old) (O.told output.new) result.journals result.stores }
    ensures untouched { IfSome result.fault (λ f. IsBefore f → output.new ≡ output.old) }
    ensures memory { result.fault ≡ Some fault.Memory → (output.new ≡ output.old)
        ⊎ IsBegun (asked words.now) (I.told input.old) (O.told output.old) (O.told output.new)
        result.journals result.stores }
    ensures refused { EndsRefused (asked words.now) result.fault }
    ensures generated { EndsMade (asked words.now) result.fault }
    ensures not_run { IsTrue (is_refused (asked words.now))
        → HasNoRun result.journals result.stores }
    ensures unread { IsTrue (reads_none (asked words.now)) → input.new ≡ input.old }
    ensures unmade { IsTrue (is_refused (asked words.now)) → maker.new ≡ maker.old }
    ensures in_memory { has_folder (asked words.now) ≡ false → All IsSoundStore result.stores }
    ensures stores_made { result.fault ≢ Some fault.Memory
        → M.made maker.new ≡ M.made maker.old ++ due_paths (asked words.now) }
    ensures memory_made { HasNoRun result.journals result.stores
        ⊎ (M.made maker.new ≡ M.made maker.old ++ due_paths (asked words.now)) }
{
    match read_request(alloc, words) {
        Ok(Request::Answer(question)) => {
            answer_question(rt, alloc, question, input, output, maker, gate)
        }
        Ok(Request::Lines(question)) => answer_made(rt, alloc, question, output, maker, gate),
        Err(error) => Ran::nothing(alloc, ask_fault(error)),
    }
}

/// Answers the query of words over the files that they name, as CSV or lines of JSON, or tells of a run
/// over generated rows by five lines: in rounds by workers, which spill what they don't keep. A fault is
/// reported by one line to the output for messages. It answers the exit status, the journals of the run
/// and its stores.
pub fn run_tool<
    I: InputFiles,
    O: Output,
    E: Output,
    M: StoreMaker,
    G: Gate + Sync,
    H: Threads + Wait + Sync,
>(
    rt: &H,
    alloc: Global,
    words: &[Text],
    input: &mut I,
    output: &mut O,
    messages: &mut E,
    maker: &mut M,
    gate: &G,
) -> ToolEnd<M::Store>
    // The headline: the run over the chunks of the files was answered, its journals and stores are
    // these, and the output grew by exactly the text of its frame, or over generated rows by the lines
    // that tell of it.
    ensures written { result.status ≡ DONE → IsWritten (asked words.now) (I.told input.old)
        (O.told output.old) (O.told output.new) result.journals result.stores }

    // Where the stores tell too, that is the text of the answer over the files.
    ensures answered { result.status ≡ DONE → All IsSoundStore result.stores
        → IsAnswerWritten (asked words.now) (I.told input.old) (O.told output.old) (O.told output.new) }

    // Where the input tells, each status comes exactly where it is due.
    ensures done { result.status ≡ DONE → IsDue DONE (asked words.now) (I.told input.old) }
    ensures refused { result.status ≡ INPUT_REFUSED
        → IsDue INPUT_REFUSED (asked words.now) (I.told input.old) }
    ensures too_large { result.status ≡ TOO_LARGE
        → IsDue TOO_LARGE (asked words.now) (I.told input.old) }
    ensures as_due { EndsAsDue result.status (asked words.now) (I.told input.old) }

    // The files that the words name are begun one after another, each once at most for each time that
    // it is named, and no others: so none is begun again to learn an error.
    ensures tried { TriedFront (I.tried input.old) (I.tried input.new)
        (files_asked (asked words.now)) }

    // A fault of reading or writing comes only where its count rose.
    ensures input_failed { result.status ≡ INPUT_FAILED
        → Rose (I.faults input.old) (I.faults input.new) }
    ensures output_failed { result.status ≡ OUTPUT_FAILED
        → Rose (O.faults output.old) (O.faults output.new) }
    ensures output_due { result.status ≡ OUTPUT_FAILED
        → IsDue DONE (asked words.now) (I.told input.old) }
    ensures output_begun { result.status ≡ OUTPUT_FAILED → IsBegun (asked words.now)
        (I.told input.old) (O.told output.old) (O.told output.new) result.journals result.stores }

    // A fault of a store comes only where frames are spilled to a folder: where the store of the
    // partition that is told failed, or doesn't tell.
    ensures store_failed { result.status ≡ STORE_FAILED
        → StoreFailed (asked words.now) result.stores }
    ensures damaged { result.status ≡ DAMAGED → FrameDamaged (asked words.now) result.stores }
    ensures in_memory { has_folder (asked words.now) ≡ false → All IsSoundStore result.stores }

    // An early end of reading is told only where no store has failed: a fault of a store isn't passed
    // over.
    ensures unfailed { IsTrue (is_read_end result.status) → NeverFailed result.stores }

    // Unless memory runs out, exactly the stores of the folder that the words name are made, one a
    // partition, in order; where it runs out before all are made, none is left.
    ensures stores_made { result.status ≢ NO_MEMORY
        → M.made maker.new ≡ M.made maker.old ++ due_paths (asked words.now) }
    ensures memory_made { HasNoRun result.journals result.stores
        ⊎ (M.made maker.new ≡ M.made maker.old ++ due_paths (asked words.now)) }

    // The stores that are left are those, in their order: each lies where that of its partition is due.
    ensures paths { HasNoRun result.journals result.stores
        ⊎ (map (λ s. s.path) result.stores ≡ due_paths (asked words.now)) }

    // Whatever the input tells, refused words end the run, and no others do; for them no store is made.
    // Neither for them nor for generated rows is anything read.
    ensures words_refused { IsTrue (is_refusal result.status) → IsTrue (is_refused (asked words.now)) }
    ensures refuses { IsRefusal (asked words.now) result.status }
    ensures generated { EndsUnread (asked words.now) result.status }
    ensures unread { IsTrue (reads_none (asked words.now)) → input.new ≡ input.old }
    ensures unmade { IsTrue (is_refused (asked words.now)) → maker.new ≡ maker.old }

    // A question over good files that nothing disturbs is answered, or memory ran out.
    ensures complete { IsSome (I.told input.old) → IsDue DONE (asked words.now) (I.told input.old)
        → All IsSoundStore result.stores
        → (Rose (I.faults input.old) (I.faults input.new) → ⊥)
        → (Rose (O.faults output.old) (O.faults output.new) → ⊥)
        → (result.status ≡ DONE) ⊎ (result.status ≡ NO_MEMORY) }

    // What is left of the run: nothing before it began; no journals where it stopped, and frames that are
    // whole, of the first chunks of the files or of the generated rows.
    ensures not_run { IsTrue (is_refused (asked words.now))
        → HasNoRun result.journals result.stores }
    ensures stopped { IsTrue (is_stopped result.status)
        → HasStopped (asked words.now) (I.told input.old) result.journals result.stores }
    ensures ran { IsTrue (is_answer result.status)
        → HasRun (asked words.now) (I.told input.old) result.journals result.stores }
    ensures memory_left { HasNoRun result.journals result.stores
        ⊎ HasStopped (asked words.now) (I.told input.old) result.journals result.stores
        ⊎ HasRun (asked words.now) (I.told input.old) result.journals result.stores }

    // What is written where the output isn't due, and what is reported.
    ensures untouched { IsTrue (is_refusal result.status) → output.new ≡ output.old }
    ensures stopped_untouched { IsTrue (is_stopped result.status) → output.new ≡ output.old }
    ensures memory_begun { result.status ≡ NO_MEMORY → (output.new ≡ output.old)
        ⊎ IsBegun (asked words.now) (I.told input.old) (O.told output.old) (O.told output.new)
        result.journals result.stores }
    ensures silent { result.status ≡ DONE → messages.new ≡ messages.old }
    ensures reported { result.status ≢ DONE → result.status ≢ NO_MEMORY
        → ReportsFault (asked words.now) (I.told input.old) result.stores result.status
        (E.faults messages.old) (E.faults messages.new) (E.told messages.old) (E.told messages.new) }
    ensures memory_reported { result.status ≡ NO_MEMORY
        → ReportsFront (E.told messages.old) (E.told messages.new) }
    ensures statuses { IsTrue (is_status result.status) }
{
    let Ran {
        fault,
        journals,
        stores,
    } = run(rt, alloc, words, input, output, maker, gate);
    let status = match &fault {
        None => DONE,
        Some(fault) => report(alloc, messages, fault),
    };
    ToolEnd {
        status,
        journals,
        stores,
    }
}
