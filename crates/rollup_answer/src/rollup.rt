//! One command on saved states, from its words to the bytes of its output.

ghost use Rattle.std.specs.Prelude.{◌≡◌, ◌≢◌, ◌<◌, ◌≤◌, ◌⊎◌, IfSome, IsSome, IsTrue, None, Some};
ghost use Rattle.pipe_columns.specs.Causes.{Rose};
ghost use Rattle.pipe_io.specs.Tried.{TriedFront};
ghost use Rattle.rollup_words.specs.Asked.{asked, files_asked, is_refused};
ghost use Rattle.rollup_answer.specs.Faults.{IsCaused, status_of};
ghost use Rattle.rollup_answer.specs.Headline.{IsBegun, IsWritten};
ghost use Rattle.rollup_answer.specs.Inside.{EndsRefused, IsBefore};
ghost use Rattle.rollup_answer.specs.Status.{ComesFor, HasNoFault, is_refusal, is_status, is_unwritten, IsRefusalOf, ReportsFault, ReportsFront};
ghost use Rattle.rollup_answer.specs.declared.fault.RollupFault.{RollupFault};
ghost use Rattle.rollup_answer.specs.declared.fault.RollupFault.TheVariants as fault;

use crate::answer::{answer_roll, answer_save};
use crate::fault::{RollupFault, ask_fault};
use crate::line::report;
use pipe_columns::Text;
use pipe_io::{InputFiles, Output};
use rollup_words::{Request, read_request};
use std::alloc::Global;
use std::hash::RandomState;
use std::thread::Threads;
use tool_shell::{DONE, INPUT_FAILED, NO_MEMORY, OUTPUT_FAILED};

/// Reads what words ask for, and answers it.
fn run<I: InputFiles, O: Output, H: Threads + Sync>(
    rt: &H,
    alloc: Global,
    threads: usize,
    hash_keys: Option<RandomState>,
    words: &[Text],
    input: &mut I,
    output: &mut O,
) -> Option<RollupFault>
    requires threads { 0 < threads }
    ensures written { result ≡ None → IsWritten (asked words.now) (I.told input.old)
        (O.told output.old) (O.told output.new) }
    ensures cause { IfSome result (λ f. IsCaused f (asked words.now) (I.told input.old)) }
    ensures input_failed { IfSome result (λ f. status_of f ≡ INPUT_FAILED
        → Rose (I.faults input.old) (I.faults input.new)) }
    ensures tried { TriedFront (I.tried input.old) (I.tried input.new)
        (files_asked (asked words.now)) }
    ensures output_failed { result ≡ Some fault.OutputFailed
        → Rose (O.faults output.old) (O.faults output.new) }
    ensures begun { result ≡ Some fault.OutputFailed → IsBegun (asked words.now) (I.told input.old)
        (O.told output.old) (O.told output.new) }
    ensures memory { result ≡ Some fault.Memory → (output.new ≡ output.old)
        ⊎ IsBegun (asked words.now) (I.told input.old) (O.told output.old) (O.told output.new) }
    ensures untouched { IfSome result (λ f. IsBefore f → output.new ≡ output.old) }
    ensures refused { EndsRefused (asked words.now) result }
    ensures unread { IsTrue (is_refused (asked words.now)) → input.new ≡ input.old }
    ensures told { I.told input.new ≡ I.told input.old }
    ensures later { I.faults input.old ≤ I.faults input.new }
{
    match read_request(alloc, words) {
        Ok(Request::Save(question)) => {
            answer_save(rt, alloc, threads, hash_keys, question, input, output)
        }
        Ok(Request::Roll(question)) => answer_roll(alloc, hash_keys, &question, input, output),
        Err(error) => Some(ask_fault(error)),
    }
}

/// Answers the words of a command: the state of files of CSV, or the states in files regrouped by
/// some of their keys. Files of CSV are read in so many threads, and tables hash under keys. A
/// fault is reported by one line to the output for messages. It answers the exit status.
pub fn run_rollup<I: InputFiles, O: Output, E: Output, H: Threads + Sync>(
    rt: &H,
    alloc: Global,
    threads: usize,
    hash_keys: Option<RandomState>,
    words: &[Text],
    input: &mut I,
    output: &mut O,
    messages: &mut E,
) -> u8
    requires threads { 0 < threads }

    // The headline: the output grew by exactly the text of the state of the rows of all files, or
    // by that of the frame which the states in the files come to by the kept keys.
    ensures written { result ≡ DONE → IsWritten (asked words.now) (I.told input.old)
        (O.told output.old) (O.told output.new) }

    // A fault of words, of what files hold, or of states that don't go together comes exactly where
    // it has its cause; but a fault of reading or writing may come in its place, or want of memory.
    ensures reported { result ≢ DONE → result ≢ NO_MEMORY → ReportsFault (asked words.now)
        (I.told input.old) result (E.faults messages.old) (E.faults messages.new)
        (E.told messages.old) (E.told messages.new) }
    ensures exact { (f : RollupFault) → IsSome (I.told input.old)
        → IsCaused f (asked words.now) (I.told input.old) → ComesFor f result }

    // Where nothing has such a cause and nothing outside failed, it is answered, or memory ran out.
    ensures complete { IsSome (I.told input.old) → HasNoFault (asked words.now) (I.told input.old)
        → (Rose (I.faults input.old) (I.faults input.new) → ⊥)
        → (Rose (O.faults output.old) (O.faults output.new) → ⊥)
        → (result ≡ DONE) ⊎ (result ≡ NO_MEMORY) }

    // The files that the words name are begun one after another, each once at most for each time
    // that it is named, and no others. For refused words nothing is read.
    ensures tried { TriedFront (I.tried input.old) (I.tried input.new)
        (files_asked (asked words.now)) }
    ensures unread { IsTrue (is_refused (asked words.now)) → input.new ≡ input.old }

    // What the input tells stays, and its faults don't fall: so what is asked next is of the same
    // files.
    ensures told { I.told input.new ≡ I.told input.old }
    ensures later { I.faults input.old ≤ I.faults input.new }

    // Whatever the input tells, refused words end the run, and no others do.
    ensures refuses { IsRefusalOf (asked words.now) result }
    ensures words_refused { IsTrue (is_refusal result) → IsTrue (is_refused (asked words.now)) }

    // A fault of reading or writing comes only where its count rose.
    ensures input_failed { result ≡ INPUT_FAILED → Rose (I.faults input.old) (I.faults input.new) }
    ensures output_failed { result ≡ OUTPUT_FAILED
        → Rose (O.faults output.old) (O.faults output.new) }

    // Before a write that fails a front of the text is written, and nothing with any other fault.
    ensures output_begun { result ≡ OUTPUT_FAILED → IsBegun (asked words.now) (I.told input.old)
        (O.told output.old) (O.told output.new) }
    ensures memory_begun { result ≡ NO_MEMORY → (output.new ≡ output.old)
        ⊎ IsBegun (asked words.now) (I.told input.old) (O.told output.old) (O.told output.new) }
    ensures untouched { IsTrue (is_unwritten result) → output.new ≡ output.old }

    // What is reported beside that, and with which statuses a run ends.
    ensures silent { result ≡ DONE → messages.new ≡ messages.old }
    ensures memory_reported { result ≡ NO_MEMORY
        → ReportsFront (E.told messages.old) (E.told messages.new) }
    ensures statuses { IsTrue (is_status result) }
{
    match run(rt, alloc, threads, hash_keys, words, input, output) {
        None => DONE,
        Some(fault) => report(alloc, messages, &fault),
    }
}
