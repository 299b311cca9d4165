//! The line that tells of a fault.

ghost use Rattle.std.specs.Prelude.{◌≡◌, ◌≢◌, ◌⊎◌};
ghost use Rattle.pipe_io.specs.Output.{WroteFront};
ghost use Rattle.tool_shell.specs.Reports.{Reports};

use crate::status::NO_MEMORY;
use pipe_io::{Output, OutputError, write_all};

/// Writes the line of a fault, and answers the exit status that is left: that of wanting memory where it
/// is wanting for the line.
pub fn put_line<E: Output>(messages: &mut E, line: &[u8], status: u8) -> u8
    ensures either { (result ≡ status) ⊎ (result ≡ NO_MEMORY) }
    ensures status { result ≢ NO_MEMORY → result ≡ status }
    ensures line { result ≢ NO_MEMORY → Reports line.now (E.faults messages.old)
        (E.faults messages.new) (E.told messages.old) (E.told messages.new) }
    ensures front { WroteFront (E.told messages.old) (E.told messages.new) line.now }
{
    match write_all(messages, line) {
        Ok(()) => status,
        Err(OutputError::Failed) => status,
        Err(OutputError::Memory) => NO_MEMORY,
    }
}
