//! One command on a summary, from its words and its store to what the store tells then and the bytes of
//! its output.

ghost use Rattle.std.specs.Prelude.{◌≡◌, ◌≢◌, ◌<◌, ◌⊎◌, Err, IfSome, IsSome, IsTrue, None, Some, false};
ghost use Rattle.pipe_columns.specs.Causes.{Rose};
ghost use Rattle.pipe_csv.specs.declared.csv_error.CsvError.TheVariants as csv_error;
ghost use Rattle.pipe_io.specs.Tried.{TriedFront};
ghost use Rattle.pipe_spill.specs.declared.store.StoreError.TheVariants as store_error;
ghost use Rattle.summary_words.specs.Asked.{asked, files_asked, is_adding, is_refused};
ghost use Rattle.summary_answer.specs.Faults.{IsCaused, status_of};
ghost use Rattle.summary_answer.specs.Headline.{IsBegun, IsDone};
ghost use Rattle.summary_answer.specs.Inside.{EndsRefused, IsUnopened, LeavesOutput};
ghost use Rattle.summary_answer.specs.Opened.{HasRisen, IsBack, is_known, opened_of, unopened};
ghost use Rattle.summary_answer.specs.Status.{ComesFor, HasNoFault, is_refusal, is_status, is_unwritten, IsRefusalOf, ReportsFault, ReportsFront};
ghost use Rattle.summary_answer.specs.declared.fault.SummaryFault.{SummaryFault};
ghost use Rattle.summary_answer.specs.declared.fault.SummaryFault.TheVariants as fault;

use crate::fault::{SummaryFault, ask_fault, store_fault};
use crate::line::report;
use crate::on_store::answer_store;
use crate::status::STORE_FAILED;
use pipe_columns::Text;
use pipe_io::{InputFiles, Output};
use pipe_spill::{SpillStore, StoreError};
use std::alloc::Global;
use std::hash::RandomState;
use std::thread::Threads;
use summary_words::read_request;
use tool_shell::{DONE, INPUT_FAILED, NO_MEMORY, OUTPUT_FAILED};

/// Why a command ends whose store wasn't opened.
fn fault_unopened(alloc: Global, words: &[Text], error: StoreError) -> SummaryFault
    ensures cause { IsCaused result (asked words.now) (unopened error) None }
    ensures before { IsUnopened result }
    ensures store { result ≡ fault.Store → error ≡ store_error.Failed }
    ensures refused { EndsRefused (asked words.now) (Some result) }
{
    match read_request(alloc, words) {
        Ok(_) => store_fault(error),
        Err(error) => ask_fault(error),
    }
}

/// Reads what words ask for, and answers it where the store was opened.
fn run<S: SpillStore + Drop, I: InputFiles, O: Output, H: Threads + Sync>(
    rt: &H,
    alloc: Global,
    threads: usize,
    hash_keys: Option<RandomState>,
    words: &[Text],
    opened: Result<S, StoreError>,
    input: &mut I,
    output: &mut O,
) -> (Option<SummaryFault>, Option<S>)
    requires threads { 0 < threads }
    ensures done { result.0 ≡ None → IsBack (λ s t. IsDone (asked words.now) (I.told input.old)
        (S.told s) (S.held s) (S.told t) (O.told output.old) (O.told output.new)) opened result.1 }
    ensures cause { IfSome result.0 (λ f. IsCaused f (asked words.now)
        (opened_of S.told S.held opened) (I.told input.old)) }
    ensures output { IfSome result.0 (λ f. LeavesOutput f (output.new ≡ output.old)
        (IsBegun (asked words.now) (opened_of S.told S.held opened) (O.told output.old)
        (O.told output.new))) }
    ensures only { result.0 ≡ None → IsSome result.1 }
    ensures back { IsBack (λ s t. (S.sure t ≡ S.sure s) × (S.path t ≡ S.path s)) opened result.1 }
    ensures kept { IfSome result.0
        (λ _. IsBack (λ s t. S.told t ≡ S.told s) opened result.1) }
    ensures idle { IsTrue (is_refused (asked words.now)) → IsBack (λ s t. t ≡ s) opened result.1 }
    ensures input_failed { result.0 ≡ Some (fault.Read csv_error.Input)
        → Rose (I.faults input.old) (I.faults input.new) }
    ensures output_failed { result.0 ≡ Some fault.OutputFailed
        → Rose (O.faults output.old) (O.faults output.new) }
    ensures store_failed { result.0 ≡ Some fault.Store
        → (opened ≡ Err store_error.Failed) ⊎ HasRisen S.faults opened result.1 }
    ensures tried { TriedFront (I.tried input.old) (I.tried input.new)
        (files_asked (asked words.now)) }
    ensures unread { is_adding (asked words.now) ≡ false → input.new ≡ input.old }
    ensures refused { EndsRefused (asked words.now) result.0 }
{
    match opened {
        Ok(store) => {
            let (ended, store) = answer_store(
                rt, alloc, threads, hash_keys, words, store, input, output,
            );
            (ended, Some(store))
        }
        Err(error) => (Some(fault_unopened(alloc, words, error)), None),
    }
}

/// Answers the words of a command over the store of a summary: files of CSV are added to it, or the
/// answer is shown. Files are read in so many threads, and tables hash under keys. A fault is reported
/// by one line to the output for messages. It answers the exit status, and gives the store back.
pub fn run_summary<S: SpillStore + Drop, I: InputFiles, O: Output, E: Output, H: Threads + Sync>(
    rt: &H,
    alloc: Global,
    threads: usize,
    hash_keys: Option<RandomState>,
    words: &[Text],
    opened: Result<S, StoreError>,
    input: &mut I,
    output: &mut O,
    messages: &mut E,
) -> (u8, Option<S>)
    requires threads { 0 < threads }

    // The headline: the store tells one frame more, that of the chunks of all files, and so stands for
    // these too; or the output grew by exactly the text of the answer. A store is given back exactly
    // where one was opened.
    ensures done { result.0 ≡ DONE → IsBack (λ s t. IsDone (asked words.now) (I.told input.old)
        (S.told s) (S.held s) (S.told t) (O.told output.old) (O.told output.new)) opened result.1 }
    ensures only { result.0 ≡ DONE → IsSome result.1 }
    ensures back { IsBack (λ s t. (S.sure t ≡ S.sure s) × (S.path t ≡ S.path s)) opened result.1 }

    // With any other status the store tells the frames that it told before. Where words are refused
    // it is as it was.
    ensures kept { result.0 ≢ DONE → IsBack (λ s t. S.told t ≡ S.told s) opened result.1 }
    ensures idle { IsTrue (is_refused (asked words.now)) → IsBack (λ s t. t ≡ s) opened result.1 }

    // A fault of words, of a frame, or of what files hold comes exactly where it has its cause; but a
    // fault of the store, of reading or of writing may come in its place, or want of memory.
    ensures reported { result.0 ≢ DONE → result.0 ≢ NO_MEMORY → ReportsFault (asked words.now)
        (opened_of S.told S.held opened) (I.told input.old) result.0 (E.faults messages.old)
        (E.faults messages.new) (E.told messages.old) (E.told messages.new) }
    ensures exact { (f : SummaryFault) → IsSome (I.told input.old)
        → IsTrue (is_known (opened_of S.told S.held opened))
        → IsCaused f (asked words.now) (opened_of S.told S.held opened) (I.told input.old)
        → ComesFor f result.0 }

    // Where the store was opened, nothing has such a cause and nothing outside failed, it is answered,
    // or memory ran out.
    ensures complete { IsSome (I.told input.old) → IsSome result.1
        → IsTrue (is_known (opened_of S.told S.held opened))
        → HasNoFault (asked words.now) (opened_of S.told S.held opened) (I.told input.old)
        → (Rose (I.faults input.old) (I.faults input.new) → ⊥)
        → (Rose (O.faults output.old) (O.faults output.new) → ⊥)
        → (HasRisen S.faults opened result.1 → ⊥)
        → (result.0 ≡ DONE) ⊎ (result.0 ≡ NO_MEMORY) }

    // The files that the words name are begun one after another, each once at most for each time that
    // it is named, and no others. Unless files are added nothing is read.
    ensures tried { TriedFront (I.tried input.old) (I.tried input.new)
        (files_asked (asked words.now)) }
    ensures unread { is_adding (asked words.now) ≡ false → input.new ≡ input.old }

    // Whatever input and store tell, refused words end the run, and no others do.
    ensures refuses { IsRefusalOf (asked words.now) result.0 }
    ensures words_refused { IsTrue (is_refusal result.0) → IsTrue (is_refused (asked words.now)) }

    // A fault of reading, of writing, or of the store comes only where its count rose, or the store
    // wasn't opened.
    ensures input_failed { result.0 ≡ INPUT_FAILED
        → Rose (I.faults input.old) (I.faults input.new) }
    ensures output_failed { result.0 ≡ OUTPUT_FAILED
        → Rose (O.faults output.old) (O.faults output.new) }
    ensures store_failed { result.0 ≡ STORE_FAILED
        → (opened ≡ Err store_error.Failed) ⊎ HasRisen S.faults opened result.1 }

    // Before a write that fails a front of the text is written, and nothing with any other fault.
    ensures output_begun { result.0 ≡ OUTPUT_FAILED → IsBegun (asked words.now)
        (opened_of S.told S.held opened) (O.told output.old) (O.told output.new) }
    ensures memory_begun { result.0 ≡ NO_MEMORY → (output.new ≡ output.old)
        ⊎ IsBegun (asked words.now) (opened_of S.told S.held opened) (O.told output.old)
        (O.told output.new) }
    ensures untouched { IsTrue (is_unwritten result.0) → output.new ≡ output.old }

    // What is reported beside that, and with which statuses a run ends.
    ensures silent { result.0 ≡ DONE → messages.new ≡ messages.old }
    ensures memory_reported { result.0 ≡ NO_MEMORY
        → ReportsFront (E.told messages.old) (E.told messages.new) }
    ensures statuses { IsTrue (is_status result.0) }
{
    let (ended, store) = run(rt, alloc, threads, hash_keys, words, opened, input, output);
    match ended {
        None => (DONE, store),
        Some(fault) => (report(alloc, messages, &fault), store),
    }
}
