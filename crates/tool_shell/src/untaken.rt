//! Words that couldn't be taken.

ghost use Rattle.std.specs.Prelude.{◌≡◌, ◌≢◌, ◌⊎◌};
ghost use Rattle.std.specs.declared.io.ErrorKind.TheVariants as error_kind;
ghost use Rattle.pipe_io.specs.Output.{WroteFront};
ghost use Rattle.tool_shell.specs.Reports.{memory_line, Reports, words_line};

use crate::line::put_line;
use crate::status::{NO_MEMORY, WORDS_REFUSED};
use pipe_io::Output;
use std::io::ErrorKind;

/// Reports that the words of a command couldn't be taken, by the kind of what went wrong, and answers the
/// exit status: that of wanting memory, or that of refused words where one of them isn't UTF-8.
pub fn report_untaken<E: Output>(messages: &mut E, kind: ErrorKind) -> u8
    ensures memory { kind ≡ error_kind.OutOfMemory → result ≡ NO_MEMORY }
    ensures refused { kind ≢ error_kind.OutOfMemory
        → (result ≡ WORDS_REFUSED) ⊎ (result ≡ NO_MEMORY) }
    ensures reported { result ≡ WORDS_REFUSED → Reports words_line (E.faults messages.old)
        (E.faults messages.new) (E.told messages.old) (E.told messages.new) }
    ensures refusal_begun { kind ≢ error_kind.OutOfMemory
        → WroteFront (E.told messages.old) (E.told messages.new) words_line }
    ensures memory_begun { kind ≡ error_kind.OutOfMemory
        → WroteFront (E.told messages.old) (E.told messages.new) memory_line }
{
    match kind {
        ErrorKind::OutOfMemory => put_line(messages, b"out of memory\n", NO_MEMORY),
        _ => put_line(messages, b"words refused\n", WORDS_REFUSED),
    }
}
