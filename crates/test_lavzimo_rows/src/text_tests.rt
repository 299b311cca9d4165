//! The texts of an answer's rows, in each order.

use crate::made::{all_in, answer, by_mean};
use lavzimo_rows::{RowOrder, csv_text, json_text};
use pipe_columns::DataFrame;
use std::alloc::{AllocError, Global};
use std::test::Fail;

const BY_KEY: &[u8] =
    b"city,mean,sum\n,,\nBonn,-0.333333,-1\nOslo,2.5,5\n\"a,\"\"b\",-170141183460469231731687303715884105728,-170141183460469231731687303715884105728\n";

const FIRST: &[u8] = b"city,mean,sum\nOslo,2.5,5\n,,\n";

const BY_MEAN: &[u8] =
    b"{\"city\":\"Oslo\",\"mean\":2.5,\"sum\":5}\n{\"city\":\"Bonn\",\"mean\":-0.333333,\"sum\":-1}\n";

const UPWARDS: &[u8] =
    b"{\"city\":null,\"mean\":null,\"sum\":null}\n{\"city\":\"a,\\\"b\",\"mean\":-170141183460469231731687303715884105728,\"sum\":-170141183460469231731687303715884105728}\n";

/// Whether the rows in the order of their keys are written.
fn is_by_key(alloc: Global, frame: &DataFrame) -> Result<bool, AllocError> {
    let shown = all_in(alloc, RowOrder::Key)?;
    Ok(csv_text(alloc, &shown, frame)?.as_slice() == BY_KEY)
}

/// Whether the first two rows are written as they stand.
fn is_first(alloc: Global, frame: &DataFrame) -> Result<bool, AllocError> {
    let shown = all_in(alloc, RowOrder::First)?.limited(0, Some(2));
    Ok(csv_text(alloc, &shown, frame)?.as_slice() == FIRST)
}

/// Whether the two rows of an order by the mean are written.
fn is_by_mean(
    alloc: Global,
    frame: &DataFrame,
    descending: bool,
    text: &[u8],
) -> Result<bool, AllocError> {
    let shown = all_in(alloc, by_mean(descending))?.limited(0, Some(2));
    Ok(json_text(alloc, &shown, frame)?.as_slice() == text)
}

/// Whether all are written.
fn are_written(alloc: Global, frame: &DataFrame) -> Result<bool, AllocError> {
    Ok(
        is_by_key(alloc, frame)?
            && is_first(alloc, frame)?
            && is_by_mean(alloc, frame, true, BY_MEAN)?
            && is_by_mean(alloc, frame, false, UPWARDS)?,
    )
}

#[test]
fn rows_are_written(rt: HostRuntime) -> Result<(), Fail> {
    let alloc = rt.alloc();
    let frame = answer(alloc)?;
    if are_written(alloc, &frame)? {
        Ok(())
    } else {
        Err("another text".into())
    }
}
