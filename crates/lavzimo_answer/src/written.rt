//! What is written.

ghost use Rattle.std.specs.Prelude.{◌≡◌, ◌⊎◌, IfSome, None, Some};
ghost use Rattle.std.specs.Io.KnownBytes.{Appends};
ghost use Rattle.pipe_columns.specs.Causes.{Rose};
ghost use Rattle.pipe_io.specs.Output.{WroteFront};
ghost use Rattle.lavzimo_shown.specs.Showing as shown;

use crate::fault::Fault;
use lavzimo_shown::{Showing, shown_text};
use pipe_columns::DataFrame;
use pipe_io::{Output, OutputError, write_all};
use pipe_words::Format;
use std::alloc::Global;

/// Writes a text.
pub(crate) fn write_text<O: Output>(output: &mut O, text: &[u8]) -> Option<Fault>
    ensures done { result ≡ None → Appends (O.told output.old) (O.told output.new) text.now }
    ensures begun { IfSome result
        (λ _. WroteFront (O.told output.old) (O.told output.new) text.now) }
    ensures output_failed { result ≡ Some Fault.OutputFailed
        → Rose (O.faults output.old) (O.faults output.new) }
    ensures faults { IfSome result (λ f. (f ≡ Fault.OutputFailed) ⊎ (f ≡ Fault.Memory)) }
{
    match write_all(output, text) {
        Ok(()) => None,
        Err(OutputError::Failed) => Some(Fault::OutputFailed),
        Err(OutputError::Memory) => Some(Fault::Memory),
    }
}

/// Writes the text that is shown of an answer.
pub(crate) fn write_answer<O: Output>(
    alloc: Global,
    format: Format,
    showing: &Showing,
    answer: &DataFrame,
    output: &mut O,
) -> Option<Fault>
    ensures done { result ≡ None → Appends (O.told output.old) (O.told output.new)
        (shown.shown_text format showing.now answer.now) }
    ensures output_failed { result ≡ Some Fault.OutputFailed
        → Rose (O.faults output.old) (O.faults output.new) }
    ensures begun { result ≡ Some Fault.OutputFailed
        → WroteFront (O.told output.old) (O.told output.new)
        (shown.shown_text format showing.now answer.now) }
    ensures memory { result ≡ Some Fault.Memory → (output.new ≡ output.old)
        ⊎ WroteFront (O.told output.old) (O.told output.new)
        (shown.shown_text format showing.now answer.now) }
    ensures faults { IfSome result (λ f. (f ≡ Fault.OutputFailed) ⊎ (f ≡ Fault.Memory)) }
{
    match shown_text(alloc, format, showing, answer) {
        Ok(text) => write_text(output, &text),
        Err(_) => Some(Fault::Memory),
    }
}
