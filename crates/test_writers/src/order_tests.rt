//! The order in which sinks write chunks.

use crate::fed::{ended, is_written, sink_all};
use crate::hold::hold;
use crate::made::{csv_sink, json_sink, output, texts, three_chunks};
use pipe_columns::Schema;
use std::alloc::{AllocError, Global};
use std::sync::Wait;
use std::test::Fail;
use std::thread::Threads;

/// Whether a sink of CSV writes the chunks 3, 1 and 0 in the order of their arrival, in pieces of two.
fn does_csv_sink_write<H: Threads + Wait + Copy + Send + 'static>(
    rt: H,
    alloc: Global,
    schema: &Schema,
) -> Result<bool, AllocError> {
    let mut sink = csv_sink(rt, alloc, output(alloc, &[])?, schema, false, 2)?;
    sink_all(&mut sink, schema, three_chunks(alloc)?)?;
    let end = ended(&mut sink);
    let told = sink.into_writer().ok_or(AllocError)?.into_output();
    is_written(end, told.bytes(), b"t\nc\na\nb\n")
}

/// Whether a sink of lines of JSON writes them by their numbers.
fn does_json_sink_write<H: Threads + Wait + Copy + Send + 'static>(
    rt: H,
    alloc: Global,
    schema: &Schema,
) -> Result<bool, AllocError> {
    let mut sink = json_sink(rt, alloc, output(alloc, &[])?, schema, true)?;
    sink_all(&mut sink, schema, three_chunks(alloc)?)?;
    let end = ended(&mut sink);
    let told = sink.into_writer().ok_or(AllocError)?.into_output();
    let text = b"{\"t\":\"a\"}\n{\"t\":\"c\"}\n{\"t\":\"b\"}\n";
    is_written(end, told.bytes(), text)
}

#[test]
fn sinks_write_pieces_in_their_order(rt: HostRuntime) -> Result<(), Fail> {
    let schema = texts(rt.alloc())?;
    hold(does_csv_sink_write(rt, rt.alloc(), &schema))?;
    hold(does_json_sink_write(rt, rt.alloc(), &schema))
}
