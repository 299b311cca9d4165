//! The plain program: its calls, over few rows. What it answers is the definition that the program
//! answers by, so the cases of the program tell of others.

use crate::made::{Asked, Given, Kind, Row, Seen, chunks_of, query_of};
use pipe_aggs::{CheckedQuery, Operator};
use pipe_columns::{AnyValue, DataFrame, DataType};
use std::alloc::{AllocError, Global};
use std::test::Fail;
use test_plain::{are_chunks, plain_answer};

/// A slice, whether order is kept, a number of partitions, and the answer as text.
type Case = (Option<(i64, usize)>, bool, usize, &'static str);

/// The answer of a query without fault over the rows.
fn answer_of(
    alloc: Global,
    query: &CheckedQuery<'_>,
    partitions: usize,
) -> Result<DataFrame, Fail> {
    let chunks = chunks_of(alloc, EVERY_AGGREGATE.columns, ROWS)?;
    if partitions == 0 || !are_chunks(&chunks, query) {
        return Err("other chunks".into());
    }
    Ok(plain_answer(alloc, &chunks, query, partitions)?)
}

/// The answer of a row of a table.
fn answered(alloc: Global, case: &Case) -> Result<DataFrame, Fail> {
    let query = query_of(alloc, EVERY_AGGREGATE, case.0, case.1)?;
    match query.check(alloc) {
        Ok(checked) => answer_of(alloc, &checked, case.2),
        Err(_) => Err("refused".into()),
    }
}

/// Writes a value behind a blank.
fn write_value(text: &mut String, value: Option<&AnyValue>) -> Result<(), AllocError> {
    match value {
        Some(AnyValue::Int(number)) => write!(text, " {number}"),
        _ => text.push_str(" null"),
    }
}

/// Whether a frame is this as text: the rows, each as its values with a blank before each and a
/// semicolon at the end.
fn is_text(alloc: Global, frame: &DataFrame, due: &str) -> Result<bool, AllocError> {
    let mut text = String::new(alloc);
    for row in 0..frame.height() {
        for column in frame.columns() {
            write_value(&mut text, column.values().get(row))?;
        }
        text.push_str(";")?;
    }
    Ok(text.as_str() == due)
}

/// Whether a row of a table holds.
fn holds(alloc: Global, case: &Case) -> Result<bool, Fail> {
    let frame = answered(alloc, case)?;
    Ok(is_text(alloc, &frame, case.3)?)
}

/// Each kind of aggregate of twice v, by the remainder of k by 2.
const EVERY_AGGREGATE: Asked = Asked {
    columns: &[("k", DataType::Int64), ("v", DataType::Int64)],
    exprs: &[
        Given::Column("k"),
        Given::Literal(DataType::Int64, 2),
        Given::Binary(0, Operator::Modulus, 1),
        Given::Column("v"),
        Given::Binary(3, Operator::Multiply, 1),
        Given::Agg(Kind::First, 4),
        Given::Alias(5, "first"),
        Given::Agg(Kind::Last, 4),
        Given::Alias(7, "last"),
        Given::Agg(Kind::Count, 4),
        Given::Alias(9, "count"),
        Given::Len,
        Given::Alias(11, "len"),
        Given::Agg(Kind::Sum, 4),
        Given::Alias(13, "sum"),
        Given::Agg(Kind::Min, 4),
        Given::Alias(15, "min"),
        Given::Agg(Kind::Max, 4),
        Given::Alias(17, "max"),
        Given::Agg(Kind::Mean, 4),
        Given::Alias(19, "mean"),
    ],
    keys: &[2],
    aggs: &[6, 8, 10, 12, 14, 16, 18, 20],
};

/// Two chunks.
const ROWS: &[&[Row]] = &[
    &[
        &[Seen::Int(1), Seen::Null],
        &[Seen::Int(3), Seen::Int(5)],
        &[Seen::Int(2), Seen::Int(-4)],
    ],
    &[&[Seen::Int(4), Seen::Int(7)], &[Seen::Int(2), Seen::Int(1)]],
];

/// Both groups, in the order of their keys.
const ANSWER: Case = (
    None,
    false,
    1,
    " 0 -8 2 3 3 8 -8 14 8 3; 1 null 10 1 2 10 10 10 10 1;",
);

/// The second one in the order of first rows, out of two partitions.
const SECOND: Case = (Some((1, 1)), true, 2, " 0 -8 2 3 3 8 -8 14 8 3;");

#[test]
fn answers(rt: HostRuntime) -> Result<(), Fail> {
    assert!(rt; holds(rt.alloc(), &ANSWER)? && holds(rt.alloc(), &SECOND)?);
    Ok(())
}
