//! Texts of more than a megabyte.

use std::alloc::{AllocError, Global};
use std::fmt::Write;

/// A text so many times.
fn repeated(alloc: Global, text: &str, count: usize) -> Result<String, AllocError> {
    let mut texts = String::new(alloc);
    for _ in 0..count {
        texts.push_str(text)?;
    }
    Ok(texts)
}

/// How a text begins, what comes then and how often, how it ends, and what it gives: so many rows,
/// or the first misfit.
pub(crate) type Case = (
    &'static str,
    &'static str,
    usize,
    &'static str,
    &'static str,
);

/// Texts without a quote that fit: lines that end by CR, LF or both, lines without a byte, and a
/// last line without an end.
pub(crate) const FITTING: [Case; 6] = [
    (
        "k,v\n",
        "1,5\n2,6\r\n3,7\r4,8\n\n\r\n5,9\r\r6,10\n7,11\n,\n,13\n8,14\r\n9,15\n",
        20200,
        "9,15",
        "222201",
    ),
    (
        "\u{feff}k,v\r\n\r\n",
        "1000000,2000000\r\n\n\n3000000,4000000\r\n5,6\n7,8\n9,0\n1,2\n3,4\n5,6\n\n",
        17200,
        "",
        "137600",
    ),
    (
        "k,v\r",
        "1,2\r3,4\r5,6\r7,8\r9,10\r",
        51000,
        "11,12\r",
        "255001",
    ),
    // Lines without a byte behind the header, and before it.
    ("k,v\n", "\n", 1100000, "", "0"),
    ("\n", "\r\n", 550000, "k,v", "0"),
    ("k,v\n1,2\n", "\r", 1100000, "3,4", "2"),
];

/// Texts that don't fit, rows of another width and fields that don't read, and texts with a quote.
pub(crate) const OTHERS: [Case; 8] = [
    ("k,w\n", "1,2\n3,4\n", 131100, "", "Header { file: 1 }"),
    (
        "k,v\n",
        "1,2\n3,4\n",
        131100,
        "9,x\n1,2\n3\n5,6\n",
        "Field { file: 1, row: 262201, column: 2 }",
    ),
    (
        "k,v\n",
        "1,2\n3,4\n",
        131100,
        "7\n9,x\n1,2\n",
        "Width { file: 1, row: 262201 }",
    ),
    (
        "k,v\n1,2\n7\n",
        "1,2\n3,4\n",
        131100,
        "9,x\n",
        "Width { file: 1, row: 2 }",
    ),
    (
        "k,v\nx,2\n",
        "1,2\n3,4\n",
        131100,
        "7\n",
        "Field { file: 1, row: 1, column: 1 }",
    ),
    ("k,v\n", "1,2\n3,4\n", 131100, "\"3\",4\n5,6\n", "262202"),
    ("k,v\n\"3\",4\n", "1,2\n3,4\n", 131100, "5,6\n", "262202"),
    (
        "k,v\n",
        "1,2\n3,4\n",
        131100,
        "\"3\",4\n5\n",
        "Width { file: 1, row: 262202 }",
    ),
];

/// The text of a case.
pub(crate) fn text_of(alloc: Global, case: &Case) -> Result<String, AllocError> {
    let rows = repeated(alloc, case.1, case.2)?;
    format!(in alloc; "{}{rows}{}", case.0, case.3)
}

/// A text of four rows, each of which is longer than the pieces of many threads, and is a number with zeros
/// in front.
pub(crate) fn long_rows(alloc: Global) -> Result<String, AllocError> {
    let zeros = repeated(alloc, "0", 300000)?;
    format!(in alloc; "k,v\n{zeros}7,8\n{zeros}7,8\n{zeros}7,8\n{zeros}7,8\n")
}

/// A row whose number has a megabyte of zeros in front, and whose text is as long.
pub(crate) fn long_row(alloc: Global) -> Result<String, AllocError> {
    let zeros = repeated(alloc, "0", 1 << 20)?;
    format!(in alloc; "n,t\n{zeros}7,{zeros}\n")
}

/// How many rows the text of numbered rows has.
pub(crate) const ROWS: usize = 100000;

/// The text of so many rows: each has the remainder of its number by 97, and the number. Their columns are the
/// last and the second of its fields.
pub(crate) fn text_of_rows(alloc: Global) -> Result<String, AllocError> {
    let mut text = String::from_str(alloc, "x,v,y,k\n")?;
    for row in 0..ROWS as u32 {
        let number = 100000u32.wrapping_add(row);
        write!(text, "a b,{number},\u{e9},{}\n", row % 97)?;
    }
    Ok(text)
}
