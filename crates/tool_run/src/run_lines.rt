//! The lines that tell of a run over generated rows.

ghost use Rattle.std.specs.Prelude.{◌≡◌, ◌++◌, IfOk, OnOk, string_bytes};
ghost use Rattle.tool_run.specs.MadeLines.{made_lines, named_number};

use crate::event_counts::{arrivals, picks};
use pipe_run::GroupByOutput;
use std::alloc::{AllocError, Global};

/// Puts a name and a number behind lines, as a line.
fn put_line(alloc: Global, lines: &mut String, name: &str, number: u128) -> Result<(), AllocError>
    ensures { OnOk result (string_bytes lines.new
        ≡ string_bytes lines.old ++ named_number name.now number) }
{
    let line = format!(in alloc; "{name} {number}\n")?;
    lines.push_str(line.as_str())
}

/// The lines of a run over so many generated rows: rows, groups, rows that overflowed, pieces that came
/// to partitions, and merges and dumps.
pub fn made_lines(alloc: Global, rows: u32, output: &GroupByOutput) -> Result<String, AllocError>
    ensures { IfOk result (λ s. string_bytes s ≡ made_lines rows output.now) }
{
    let mut lines = String::new(alloc);
    put_line(alloc, &mut lines, "rows", u128::from(rows))?;
    put_line(alloc, &mut lines, "groups", output.frame.height() as u128)?;
    put_line(alloc, &mut lines, "overflow", u128::from(output.overflow))?;
    put_line(alloc, &mut lines, "arrivals", arrivals(&output.journals))?;
    put_line(alloc, &mut lines, "picks", picks(&output.journals))?;
    Ok(lines)
}
