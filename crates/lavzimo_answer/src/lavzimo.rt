//! One run, from the words of a command to the bytes of its output.

ghost use Rattle.std.specs.Prelude.{◌≡◌, ◌≢◌, ◌⊎◌, ◌+◌, ◌≤◌, All, IfSome, IsSome, IsTrue, None};
ghost use Rattle.std.specs.Prelude.{Some, false};
ghost use Rattle.pipe_columns.specs.Causes.{Rose};
ghost use Rattle.pipe_io.specs.Tried.{TriedFront};
ghost use Rattle.lavzimo_run.specs.Stores.{IsSoundStore, WereMadeIn};
ghost use Rattle.lavzimo_words.specs.Asked.{asked_of};
ghost use Rattle.lavzimo_answer.specs.Asking.{files_asked, folder_asked, has_folder, stores_asked};
ghost use Rattle.lavzimo_answer.specs.Faults.{IsCaused, status_of};
ghost use Rattle.lavzimo_answer.specs.Headline.{HasNoRun, IsAnswerWritten, IsBegun, IsLeft};
ghost use Rattle.lavzimo_answer.specs.Headline.{IsWritten};
ghost use Rattle.lavzimo_answer.specs.Inside.{FaultUnasked, IsBefore};
ghost use Rattle.lavzimo_answer.specs.Status.{AreRefused, AskNothing, EndsAsDue, EndsUnasked};
ghost use Rattle.lavzimo_answer.specs.Status.{IsAnswered, ReportsFault, ReportsFront, is_status};
ghost use Rattle.lavzimo_answer.specs.Status.{is_unwritten};
ghost use Rattle.tool_shell.specs.declared.status.TheConstants.{INPUT_FAILED};

use crate::answer::answer;
use crate::ended::{LavzimoEnd, Ran};
use crate::fault::Fault;
use crate::look::{ClosableOutput, Looks};
use crate::report::report;
use crate::written::write_text;
use lavzimo_stores::SpillMaker;
use lavzimo_words::{Reading, read_words};
use pipe_columns::Text;
use pipe_global::Gate;
use pipe_io::{InputFiles, Output};
use std::alloc::{AllocError, Global};
use std::sync::Wait;
use std::thread::Threads;
use tool_shell::{DONE, INPUT_FAILED, NO_MEMORY, OUTPUT_FAILED, WORDS_REFUSED};

/// Reads what words ask, and answers it; or writes the help or the version that they call for.
#[tactic(auto, using(crate::proofs::JobFacts::none_made_in))]
fn run<I: InputFiles, O: Output, M: SpillMaker, G: Gate + Sync, H: Threads + Wait + Sync>(
    rt: &H,
    alloc: Global,
    processors: usize,
    words: &[Text],
    input: &mut I,
    output: &mut O,
    maker: &mut M,
    gate: &G,
) -> Ran<M::Store>
    ensures written { result.fault ≡ None → IsWritten processors (asked_of words.now)
        (I.told input.old) (O.told output.old) (O.told output.new) result.journals result.stores }
    ensures cause { IfSome result.fault (λ f. IsCaused processors f (asked_of words.now)
        (I.told input.old) result.stores) }
    ensures left { IsLeft processors (asked_of words.now) (I.told input.old)
        result.journals result.stores }
    ensures input_failed { IfSome result.fault
        (λ f. status_of f ≡ INPUT_FAILED → Rose (I.faults input.old) (I.faults input.new)) }
    ensures tried { TriedFront (I.tried input.old) (I.tried input.new)
        (files_asked (asked_of words.now)) }
    ensures output_failed { result.fault ≡ Some Fault.OutputFailed
        → Rose (O.faults output.old) (O.faults output.new) }
    ensures begun { result.fault ≡ Some Fault.OutputFailed
        → IsBegun processors (asked_of words.now) (I.told input.old)
        (O.told output.old) (O.told output.new) result.journals result.stores }
    ensures untouched { IfSome result.fault (λ f. IsBefore f → output.new ≡ output.old) }
    ensures memory { result.fault ≡ Some Fault.Memory → (output.new ≡ output.old)
        ⊎ IsBegun processors (asked_of words.now) (I.told input.old)
        (O.told output.old) (O.told output.new) result.journals result.stores }
    ensures in_memory { has_folder (asked_of words.now) ≡ false → All IsSoundStore result.stores }
    ensures made { HasNoRun result.journals result.stores
        ⊎ (M.made maker.new ≡ M.made maker.old + stores_asked (asked_of words.now)) }
    ensures at_most { M.made maker.new ≤ M.made maker.old + stores_asked (asked_of words.now) }
    ensures folders { WereMadeIn (folder_asked (asked_of words.now))
        (M.folders maker.old) (M.folders maker.new) }
    ensures unasked { FaultUnasked (asked_of words.now) result.fault }
    ensures unread { AskNothing (asked_of words.now) → input.new ≡ input.old }
    ensures unmade { AskNothing (asked_of words.now) → maker.new ≡ maker.old }
{
    match read_words(alloc, words) {
        Ok(Reading::Asked(asked)) => {
            answer(rt, alloc, processors, asked, input, output, maker, gate)
        }
        Ok(Reading::Refused(refusal)) => Ran::nothing(alloc, Some(Fault::Refused(refusal))),
        Ok(Reading::Faulty(text)) => Ran::nothing(alloc, Some(Fault::Faulty(text))),
        Ok(Reading::Help(text)) => Ran::nothing(alloc, write_text(output, text.as_bytes())),
        Ok(Reading::Version(text)) => Ran::nothing(alloc, write_text(output, text.as_bytes())),
        Err(AllocError) => Ran::nothing(alloc, Some(Fault::Memory)),
    }
}

/// Answers what the words of a command ask of files: by as many workers as processors, unless they
/// say how many, over stores of a maker. A fault is reported by a line to the output for messages,
/// with what a second look gives. It answers the exit status, the journals of the run and its
/// stores.
pub fn run_lavzimo<
    I: InputFiles,
    O: ClosableOutput,
    E: Output,
    M: SpillMaker,
    L: Looks,
    G: Gate + Sync,
    H: Threads + Wait + Sync,
>(
    rt: &H,
    alloc: Global,
    processors: usize,
    words: &[Text],
    input: &mut I,
    output: &mut O,
    messages: &mut E,
    maker: &mut M,
    looks: &mut L,
    gate: &G,
) -> LavzimoEnd<M::Store>
    // The headline: the run of what the words ask was answered, its journals and stores are these,
    // and the output grew by exactly the text that is shown of its frame; or it grew by the text of
    // help or of the version.
    ensures written { result.status ≡ DONE → IsWritten processors (asked_of words.now)
        (I.told input.old) (O.told output.old) (O.told output.new) result.journals result.stores }

    // Where input and stores tell too, that is what is shown of the answer over the chunks of the
    // files, of one partition: whatever the numbers of workers and partitions.
    ensures answered { result.status ≡ DONE → All IsSoundStore result.stores
        → IsAnswerWritten (asked_of words.now) (I.told input.old)
        (O.told output.old) (O.told output.new) }

    // Where the input tells, each status comes exactly where it is due, but for those of what
    // fails.
    ensures as_due { EndsAsDue result.status (asked_of words.now) (I.told input.old) }

    // Words that ask nothing are refused with their status, or end apart; that status comes for no
    // others. For them nothing is read, and no store is made.
    ensures unasked { EndsUnasked (asked_of words.now) result.status }
    ensures words_refused { result.status ≡ WORDS_REFUSED → AreRefused (asked_of words.now) }
    ensures unread { AskNothing (asked_of words.now) → input.new ≡ input.old }
    ensures unmade { AskNothing (asked_of words.now) → maker.new ≡ maker.old }

    // A question over good files that nothing disturbs is answered, or memory ran out.
    ensures complete { IfSome (I.told input.old) (λ files. IsAnswered (asked_of words.now) files
        → All IsSoundStore result.stores
        → (Rose (I.faults input.old) (I.faults input.new) → ⊥)
        → (Rose (O.faults output.old) (O.faults output.new) → ⊥)
        → (result.status ≡ DONE) ⊎ (result.status ≡ NO_MEMORY)) }

    // The file of a query, and then the files, are begun one after another, each once at most for
    // each time that it is named, and no others.
    ensures tried { TriedFront (I.tried input.old) (I.tried input.new)
        (files_asked (asked_of words.now)) }

    // A fault of reading or writing comes only where its count rose. Without a folder no store
    // fails.
    ensures input_failed { result.status ≡ INPUT_FAILED
        → Rose (I.faults input.old) (I.faults input.new) }
    ensures output_failed { result.status ≡ OUTPUT_FAILED
        → Rose (O.faults output.old) (O.faults output.new) }
    ensures in_memory { has_folder (asked_of words.now) ≡ false → All IsSoundStore result.stores }

    // Before a write that fails a front of the text is written, and nothing with any other fault.
    ensures output_begun { result.status ≡ OUTPUT_FAILED
        → IsBegun processors (asked_of words.now) (I.told input.old)
        (O.told output.old) (O.told output.new) result.journals result.stores }
    ensures memory_begun { result.status ≡ NO_MEMORY → (output.new ≡ output.old)
        ⊎ IsBegun processors (asked_of words.now) (I.told input.old)
        (O.told output.old) (O.told output.new) result.journals result.stores }
    ensures untouched { IsTrue (is_unwritten result.status) → output.new ≡ output.old }

    // What is left of the run, and how many stores were made for it: no more than are asked for,
    // each in the folder that the words name, or in memory where they name none.
    ensures left { IsLeft processors (asked_of words.now) (I.told input.old)
        result.journals result.stores }
    ensures made { HasNoRun result.journals result.stores
        ⊎ (M.made maker.new ≡ M.made maker.old + stores_asked (asked_of words.now)) }
    ensures at_most { M.made maker.new ≤ M.made maker.old + stores_asked (asked_of words.now) }
    ensures folders { WereMadeIn (folder_asked (asked_of words.now))
        (M.folders maker.old) (M.folders maker.new) }

    // What is reported beside that, and with which statuses a run ends.
    ensures silent { result.status ≡ DONE → messages.new ≡ messages.old }
    ensures reported { result.status ≢ DONE → result.status ≢ NO_MEMORY
        → ReportsFault processors (asked_of words.now) (I.told input.old) result.stores
        result.status (E.faults messages.old) (E.faults messages.new)
        (E.told messages.old) (E.told messages.new) }
    ensures memory_reported { result.status ≡ NO_MEMORY
        → ReportsFront (E.told messages.old) (E.told messages.new) }
    ensures statuses { IsTrue (is_status result.status) }
{
    let Ran {
        fault,
        journals,
        stores,
    } = run(rt, alloc, processors, words, input, output, maker, gate);
    let status = match &fault {
        None => DONE,
        Some(fault) => report(alloc, messages, looks, fault, output.is_closed()),
    };
    LavzimoEnd {
        status,
        journals,
        stores,
    }
}
