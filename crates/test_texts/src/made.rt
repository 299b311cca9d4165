//! Generated rows in rounds, made in threads.

use pipe_columns::{AnyValue, DataChunk};
use std::test::Fail;
use tool_made::{Made, made_query, made_round};

/// Whether a chunk is the third one, of the fifth row alone.
fn is_last(chunk: &DataChunk) -> bool {
    let [key, value] = chunk.frame.columns() else {
        return false;
    };
    chunk.chunk_index == 2
        && chunk.frame.height() == 1
        && key.values() == [AnyValue::Int(996)].as_slice()
        && value.values() == [AnyValue::Int(4)].as_slice()
}

#[test]
fn a_round_has_the_rows_of_its_chunks(rt: HostRuntime) -> Result<(), Fail> {
    let made = Made {
        seed: 999,
        rows: 5,
        chunk: 2,
    };
    assert!(rt; made.chunks() == 3);
    let round = made_round(&rt, rt.alloc(), &made, 1, 2)?;
    assert!(rt; round.len() == 2 && is_last(&round[1]));
    Ok(())
}

#[test]
fn the_query_is_had(rt: HostRuntime) -> Result<(), Fail> {
    let query = made_query(rt.alloc())?;
    assert!(rt; query.keys.len() == 1);
    Ok(())
}
