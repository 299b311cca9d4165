//! How many rows readers give of files in memory, whichever input call fails, in rounds of any size by any
//! number of threads; and chunks that are read into the memory of spent ones.

use crate::hinted::Hinted;
use crate::hold::hold;
use crate::made::{Asked, PLAIN, TWO_FILES, input_of, reader_of};
use crate::read::gives;
use pipe_columns::DataType;
use pipe_source::ChunkReader;
use std::alloc::{AllocError, Global};
use std::test::Fail;
use std::thread::Threads;

/// Whether rounds of so many chunks give so many rows, by so many threads.
pub(crate) fn rounds_give<H: Threads + Sync>(
    rt: &H,
    alloc: Global,
    asked: &Asked,
    failing: &[u64],
    way: (usize, usize),
    due: &str,
) -> Result<bool, AllocError> {
    let mut input = input_of(alloc, asked.files, failing, None)?;
    gives(rt, alloc, asked, &mut input, way, due)
}

/// Both files in chunks of one row, numbered and under their file's name.
const BY_ONE: Asked = Asked {
    chunk_size: 1,
    limit: None,
    ..TWO_FILES
};

/// Whether no row is lost where each input call in turn fails, and is made again.
fn is_no_row_lost<H: Threads + Sync>(rt: &H, alloc: Global) -> Result<bool, AllocError> {
    for call in 0..8 {
        if !rounds_give(rt, alloc, &BY_ONE, &[call], (3, 2), "4")? {
            return Ok(false);
        }
    }
    Ok(true)
}

/// Whether rounds of any size, read in any number of threads, give all rows.
fn do_rounds_give_all<H: Threads + Sync>(rt: &H, alloc: Global) -> Result<bool, AllocError> {
    for count in 1..6 {
        for threads in 1..4 {
            if !rounds_give(rt, alloc, &BY_ONE, &[], (count, threads), "4")? {
                return Ok(false);
            }
        }
    }
    Ok(true)
}

#[test]
fn rounds_of_any_size_lose_no_row(rt: HostRuntime) -> Result<(), Fail> {
    hold(is_no_row_lost(&rt, rt.alloc()))?;
    hold(do_rounds_give_all(&rt, rt.alloc()))
}

/// Texts that are longer and shorter than those before them, quoted, missing and not ASCII.
const TEXTS: Asked = Asked {
    files: &[(
        "a",
        "t,v\na text that is longer than all others,1\nb,2\n\"c,d\",3\n,4\n\u{c4},\ne,6\nf,7\n",
    )],
    columns: &[("t", DataType::String), ("v", DataType::Int64)],
    ..PLAIN
};

/// Reads a chunk and hands it back; how many rows it had.
fn hand_back(
    alloc: Global,
    reader: &mut ChunkReader,
    input: &mut Hinted,
) -> Result<usize, AllocError> {
    let Ok(Some(chunk)) = reader.next_chunk(alloc, input) else {
        return Err(AllocError);
    };
    let rows = chunk.frame.height();
    reader.take_back(vec![in alloc; chunk]?);
    Ok(rows)
}

/// Whether four chunks are read, each handed back before the one behind it. Then the last is given up, and
/// none.
fn are_spent(
    alloc: Global,
    reader: &mut ChunkReader,
    input: &mut Hinted,
) -> Result<bool, AllocError> {
    for rows in [2, 2, 2, 1] {
        if hand_back(alloc, reader, input)? != rows {
            return Ok(false);
        }
    }
    Ok(reader.give_up(alloc).len() == 1 && reader.give_up(alloc).is_empty())
}

/// Whether that is so of a new reader.
fn does_spend(alloc: Global, input: &mut Hinted) -> Result<bool, AllocError> {
    let mut reader = reader_of(alloc, &TEXTS)?;
    are_spent(alloc, &mut reader, input)
}

#[test]
fn texts_in_spent_memory(rt: HostRuntime) -> Result<(), Fail> {
    let mut input = input_of(rt.alloc(), TEXTS.files, &[], None)?;
    hold(does_spend(rt.alloc(), &mut input))
}
