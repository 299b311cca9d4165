//! A real file of more than a megabyte, which threads read in parts and look over in pieces, and
//! as much on standard input.

ghost use Rattle.std.specs.Prelude.{◌<◌};

use crate::hold::hold;
use crate::long_texts::{ROWS, text_of_rows};
use crate::made::{Asked, PLAIN, reader_of};
use pipe_columns::{AnyValue, DataChunk};
use pipe_io::{InputFiles, RealFiles};
use pipe_source::ChunkReader;
use std::alloc::{AllocError, Global};
use std::fs::{self, File, Files};
use std::test::Fail;
use std::thread::Threads;

/// A file whose columns are found by their names, in chunks of many rows.
const LARGE: Asked = Asked {
    names: &["large.csv"],
    chunk_size: 7000,
    by_name: true,
    ..PLAIN
};

/// The same on standard input.
const INPUT: Asked = Asked {
    names: &["-"],
    ..LARGE
};

/// How many values of two columns are those of the rows from a number on, in order.
fn values_in_order(keys: &[AnyValue], values: &[AnyValue], first: usize) -> usize {
    let mut count: usize = 0;
    for (i, value) in values.iter().enumerate() {
        let row = first.wrapping_add(i) as i128;
        let is_key = keys.get(i) == Some(&AnyValue::Int(row % 97));
        if is_key && *value == AnyValue::Int(row.wrapping_add(100000)) {
            count = count.wrapping_add(1);
        }
    }
    count
}

/// How many rows of chunks, behind so many, come in order, with these.
fn count_behind(chunks: &[DataChunk], before: usize) -> usize {
    let mut count = before;
    for chunk in chunks {
        if let [keys, values] = chunk.frame.columns() {
            let more = values_in_order(keys.values(), values.values(), count);
            count = count.wrapping_add(more);
        }
    }
    count
}

/// Counts the rows of the next three chunks that come in order; whether more may come.
fn count_round<I: InputFiles, H: Threads + Sync>(
    rt: &H,
    alloc: Global,
    reader: &mut ChunkReader,
    input: &mut I,
    threads: usize,
    count: &mut usize,
) -> bool
    requires { 0 < threads }
{
    let Ok(chunks) = reader.get_round(rt, alloc, input, 3, threads) else {
        return false;
    };
    *count = count_behind(&chunks, *count);
    let has_more = chunks.len() == 3;
    reader.take_back(chunks);
    has_more
}

/// Whether all rows come in order, read in rounds of three chunks by so many threads.
fn do_come<I: InputFiles, H: Threads + Sync>(
    rt: &H,
    alloc: Global,
    reader: &mut ChunkReader,
    input: &mut I,
    threads: usize,
) -> bool {
    let mut count: usize = 0;
    if threads == 0 {
        return false;
    }
    for _ in 0..1000 {
        if !count_round(rt, alloc, reader, input, threads, &mut count) {
            break;
        }
    }
    count == ROWS
}

/// Whether all rows come in order to a reader of real files, or of standard input.
fn do_real_come<H: Files<File = File> + Threads + Sync>(
    rt: &H,
    alloc: Global,
    reader: &mut ChunkReader,
    stdin: &[u8],
    threads: usize,
) -> bool {
    let mut input = RealFiles::new(rt, stdin);
    do_come(rt, alloc, reader, &mut input, threads)
}

/// Whether they come to a new reader.
fn do_rows_come<H: Files<File = File> + Threads + Sync>(
    rt: &H,
    alloc: Global,
    asked: &Asked,
    stdin: &[u8],
    threads: usize,
) -> Result<bool, AllocError> {
    let mut reader = reader_of(alloc, asked)?;
    Ok(do_real_come(rt, alloc, &mut reader, stdin, threads))
}

/// Whether they come, read by any number of threads.
fn do_all_come<H: Files<File = File> + Threads + Sync>(
    rt: &H,
    alloc: Global,
    stdin: &[u8],
) -> Result<bool, AllocError> {
    for asked in [&LARGE, &INPUT] {
        for threads in 1..6 {
            if !do_rows_come(rt, alloc, asked, stdin, threads)? {
                return Ok(false);
            }
        }
    }
    Ok(stdin.len() > 1 << 20)
}

/// Standard input is begun once.
#[test]
fn files_and_standard_input_are_read_by_any_number_of_threads(rt: HostRuntime) -> Result<(), Fail> {
    let text = text_of_rows(rt.alloc())?;
    fs::write(&rt, "large.csv", text.as_str())?;
    hold(do_all_come(&rt, rt.alloc(), text.as_str().as_bytes()))
}
