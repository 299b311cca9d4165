//! The text of the answer of a query over a text.

ghost use Rattle.std.specs.Prelude.{◌≡◌, IfErr, IfOk, None, Ok};
ghost use Rattle.pipe_aggs.specs.Faults.{first_fault};
ghost use Rattle.pipe_aggs.specs.QueryTrees.{query_tree};
ghost use Rattle.memory_answer.specs.Answers.{frame_told, group_told, IsFaultOf};
ghost use Rattle.memory_runs.specs.TextRuns.{text_answer};

use crate::fault::{Fault, read_fault};
use crate::frame_text::text_of_frame;
use crate::query_bytes::query_of_bytes;
use memory_runs::group_text;
use pipe_aggs::Query;
use pipe_words::Format;
use std::alloc::{AllocError, Global};

/// The text of the answer of a query without fault over a text.
fn answer_text(alloc: Global, query: Query, text: &[u8], format: Format) -> Result<Vec<u8>, Fault>
    requires faultless { first_fault query ≡ None }
    ensures text { IfOk result
        (λ t. frame_told format (text_answer text.now (query_tree query)) ≡ Ok t.items) }
    ensures fault { IfErr result
        (λ f. IsFaultOf f (frame_told format (text_answer text.now (query_tree query)))) }
{
    let frame = match group_text(alloc, query, text) {
        Ok(frame) => frame,
        Err(error) => return Err(read_fault(error)),
    };
    match text_of_frame(alloc, &frame, format) {
        Ok(text) => Ok(text),
        Err(AllocError) => Err(Fault::Memory),
    }
}

/// The text of the answer of a query, which bytes are as JSON, over a text of CSV.
pub fn group(alloc: Global, query: &[u8], text: &[u8], format: Format) -> Result<Vec<u8>, Fault>
    // Exactly the text of the answer, of one partition, or exactly why there is none; or memory ran out.
    ensures text { IfOk result (λ t. group_told query.now text.now format ≡ Ok t.items) }
    ensures fault { IfErr result (λ f. IsFaultOf f (group_told query.now text.now format)) }
{
    match query_of_bytes(alloc, query) {
        Ok(query) => answer_text(alloc, query, text, format),
        Err(fault) => Err(fault),
    }
}
