//! Sources over two files, by single calls and by rounds, whichever input call fails.

use crate::hinted::Hinted;
use crate::hold::hold;
use crate::made::{Asked, TWO_FILES, input_of, source_of, source_without_first};
use crate::read::{NOTHING, is_due, read_source};
use pipe_columns::DataType;
use pipe_source::CsvSource;
use std::alloc::{AllocError, Global};
use std::test::Fail;
use std::thread::Threads;

/// Whether single calls of a source give three rows of an input.
fn gives_three(alloc: Global, asked: &Asked, input: &mut Hinted) -> Result<bool, AllocError> {
    let mut read = NOTHING;
    let mut source = source_of(alloc, input, asked)?;
    let end = read_source(&mut read, &mut source);
    drop(source);
    is_due(alloc, end, read, "3")
}

/// Whether they do where input calls fail.
pub(crate) fn calls_give_three(
    alloc: Global,
    asked: &Asked,
    failing: &[u64],
) -> Result<bool, AllocError> {
    let mut input = input_of(alloc, asked.files, failing, None)?;
    gives_three(alloc, asked, &mut input)
}

/// Two files of which three rows are wanted, numbered and under their file's name. Columns are found by
/// their names, and nothing behind the third row is looked at.
const BY_NAME: Asked = Asked {
    files: &[("a", "t,n\na,1\nb,2\n"), ("b", "n,t\n3,c\nx,d\n")],
    names: &["a", "b"],
    columns: &[("n", DataType::Int64), ("t", DataType::String)],
    by_name: true,
    ..TWO_FILES
};

/// Whether sources lose no row where each input call in turn fails.
fn is_no_row_lost(alloc: Global) -> Result<bool, AllocError> {
    for asked in [&TWO_FILES, &BY_NAME] {
        for call in 0..8 {
            if !calls_give_three(alloc, asked, &[call])? {
                return Ok(false);
            }
        }
    }
    Ok(true)
}

#[test]
fn sources_lose_no_row(rt: HostRuntime) -> Result<(), Fail> {
    hold(is_no_row_lost(rt.alloc()))
}

/// Whether a round of a source gives two chunks, by two threads.
fn gives_two<H: Threads + Sync>(rt: &H, source: &mut CsvSource<'_, Hinted>) -> bool {
    match source.get_round(rt, 5, 2) {
        Ok(chunks) => chunks.len() == 2,
        Err(_) => false,
    }
}

/// Whether that is so of a source of values.
fn does_round_give<H: Threads + Sync>(
    rt: &H,
    alloc: Global,
    input: &mut Hinted,
) -> Result<bool, AllocError> {
    let mut source = source_without_first(alloc, input, &TWO_FILES)?;
    Ok(gives_two(rt, &mut source))
}

#[test]
fn rounds_give_the_values_of_two_files(rt: HostRuntime) -> Result<(), Fail> {
    let mut input = input_of(rt.alloc(), TWO_FILES.files, &[], None)?;
    hold(does_round_give(&rt, rt.alloc(), &mut input))
}
