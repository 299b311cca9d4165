//! Where a record begins and where it ends, whatever it has.

ghost use Rattle.std.specs.Prelude.{◌≡◌, ◌≤◌, length};
ghost use Rattle.pipe_scan.specs.Records.{records_at};
ghost use Rattle.pipe_scan.specs.Row.{EndsOne};

use crate::quoted::{Effect, Mode, joins, next_step};

/// The first place from `at` on whose byte ends no line, or the end of the text.
pub fn record_start(text: &[u8], at: usize) -> usize
    requires { at ≤ length text.now }
    ensures least { at ≤ result }
    ensures within { result ≤ length text.now }
    ensures records { records_at text.now result ≡ records_at text.now at }
{
    for i in at..text.len() {
        let byte = text[i];
        if byte != b'\r' && byte != b'\n' {
            return i;
        }
    }
    text.len()
}

/// Where the record from `at` on ends and the next one may begin, or that there is none.
pub fn record_end(text: &[u8], at: usize) -> Option<usize>
    requires { at ≤ length text.now }
    ensures { EndsOne text.now at result }
{
    let mut mode = Mode::BeforeRecord;
    for i in at..text.len() {
        let byte = text[i];
        if byte > b',' && joins(mode) {
            continue;
        }
        let (next, effect) = next_step(mode, byte);
        mode = next;
        match effect {
            Effect::EndRecord => return Some(i + 1),
            _ => {}
        }
    }
    match mode {
        Mode::BeforeRecord | Mode::AfterCr => None,
        _ => Some(text.len()),
    }
}
