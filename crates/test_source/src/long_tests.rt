//! Texts of more than a megabyte, which threads look over in pieces; what is told of their sizes; and the edges of
//! rows.

use crate::hold::hold;
use crate::long_texts::{Case, FITTING, OTHERS, long_row, long_rows, text_of, text_of_rows};
use crate::made::{Asked, PLAIN, input_of};
use crate::read::gives;
use pipe_columns::DataType;
use std::alloc::{AllocError, Global};
use std::test::Fail;
use std::thread::Threads;

/// How many rows are a chunk, how many chunks at most a round, and how many threads read.
type Reading = (usize, usize, usize);

/// Of the rows of a chunk one in 64 or fewer is noted.
const READINGS: [Reading; 8] = [
    (3, 1000, 2),
    (260, 1000, 5),
    (70000, 1000, 8),
    (1, 1000, 3),
    (150, 1000, 4),
    (200, 1000, 6),
    (330, 1000, 7),
    (7000, 3, 24),
];

/// Chunks of many rows, three at once.
const BY_THREE: [Reading; 5] = [
    (7000, 3, 1),
    (7000, 3, 2),
    (7000, 3, 3),
    (7000, 3, 4),
    (7000, 3, 5),
];

/// Whether the one file `a` of a text, of which a size may be told, gives so many rows, or a refusal.
fn does_give<H: Threads + Sync>(
    rt: &H,
    alloc: Global,
    asked: &Asked,
    text: &str,
    told: Option<usize>,
    way: (usize, usize),
    due: &str,
) -> Result<bool, AllocError> {
    let mut input = input_of(alloc, &[("a", text)], &[], told)?;
    gives(rt, alloc, asked, &mut input, way, due)
}

/// Whether it does in chunks of some sizes and by some numbers of threads.
fn do_all_give<H: Threads + Sync>(
    rt: &H,
    alloc: Global,
    asked: &Asked,
    text: &str,
    told: Option<usize>,
    readings: &[Reading],
    due: &str,
) -> Result<bool, AllocError> {
    for (chunk_size, count, threads) in readings {
        let asked = Asked {
            chunk_size: *chunk_size,
            ..*asked
        };
        if !does_give(rt, alloc, &asked, text, told, (*count, *threads), due)? {
            return Ok(false);
        }
    }
    Ok(true)
}

/// Whether each case gives what is due.
fn do_cases_give<H: Threads + Sync>(
    rt: &H,
    alloc: Global,
    cases: &[Case],
    readings: &[Reading],
) -> Result<bool, AllocError> {
    for case in cases {
        let text = text_of(alloc, case)?;
        let is_long = text.as_str().len() > 1 << 20;
        if !is_long || !do_all_give(rt, alloc, &PLAIN, &text, None, readings, case.4)? {
            return Ok(false);
        }
    }
    Ok(true)
}

/// Be it the first misfit.
#[test]
fn threads_find_what_one_does(rt: HostRuntime) -> Result<(), Fail> {
    hold(do_cases_give(&rt, rt.alloc(), &FITTING, &READINGS))?;
    hold(do_cases_give(&rt, rt.alloc(), &OTHERS, &READINGS[..3]))
}

/// Columns that are found by their names.
const BY_NAME: Asked = Asked {
    by_name: true,
    ..PLAIN
};

#[test]
fn columns_of_a_large_text_are_found_by_threads(rt: HostRuntime) -> Result<(), Fail> {
    let text = text_of_rows(rt.alloc())?;
    hold(do_all_give(&rt, rt.alloc(), &BY_NAME, &text, None, &BY_THREE, "100000"))
}

/// How many bytes more than a long file has are told, and how many fewer.
const BESIDE: [(usize, usize); 7] = [
    (0, 0),
    (1, 0),
    (100, 0),
    (1 << 20, 0),
    (0, 1),
    (0, 2),
    (0, 70000),
];

/// Whether all rows of a long text come, whatever size is told of it.
fn do_all_come<H: Threads + Sync>(rt: &H, alloc: Global, text: &str) -> Result<bool, AllocError> {
    for (more, fewer) in BESIDE {
        let told = text.len().saturating_add(more).saturating_sub(fewer);
        let is_long = told > 1 << 20;
        if !is_long || !do_all_give(rt, alloc, &PLAIN, text, Some(told), &BY_THREE, "4")? {
            return Ok(false);
        }
    }
    do_all_give(rt, alloc, &PLAIN, text, None, &READINGS, "4")
}

#[test]
fn rows_may_be_longer_than_pieces_and_any_size_be_told(rt: HostRuntime) -> Result<(), Fail> {
    let text = long_rows(rt.alloc())?;
    hold(do_all_come(&rt, rt.alloc(), &text))
}

/// Fewer bytes than a short file has, as many, and more: from the last on, several threads make the room.
const TOLD: [usize; 8] = [0, 1, 11, 12, 13, 100, 1 << 20, 3 << 20];

/// Whether a short file is read, whatever size is told of it.
fn is_short_read<H: Threads + Sync>(rt: &H, alloc: Global) -> Result<bool, AllocError> {
    for told in TOLD {
        if !do_all_give(
            rt,
            alloc,
            &PLAIN,
            "k,v\n1,5\n2,6\n",
            Some(told),
            &BY_THREE,
            "2",
        )? {
            return Ok(false);
        }
    }
    Ok(true)
}

/// Rows whose numbers begin with the last that 32 bits hold.
const NUMBERED: Asked = Asked {
    first_number: Some(4294967295),
    ..PLAIN
};

/// Files of a number and a text.
const NUMBER_AND_TEXT: Asked = Asked {
    columns: &[("n", DataType::Int64), ("t", DataType::String)],
    ..PLAIN
};

/// Whether one row with the last number is given, and not two; and one row that is long.
fn are_edges_given<H: Threads + Sync>(
    rt: &H,
    alloc: Global,
    long_row: &str,
) -> Result<bool, AllocError> {
    for (asked, text, due) in [
        (&NUMBERED, "k,v\n1,2\n", "1"),
        (&NUMBERED, "k,v\n1,2\n3,4\n", "TooLarge"),
        (&NUMBER_AND_TEXT, long_row, "1"),
    ] {
        if !does_give(rt, alloc, asked, text, None, (3, 2), due)? {
            return Ok(false);
        }
    }
    Ok(true)
}

#[test]
fn edges_of_sizes_and_rows(rt: HostRuntime) -> Result<(), Fail> {
    let text = long_row(rt.alloc())?;
    hold(is_short_read(&rt, rt.alloc()))?;
    hold(are_edges_given(&rt, rt.alloc(), &text))
}
