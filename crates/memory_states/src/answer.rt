//! What calls on saved states come to.

ghost use Rattle.std.specs.Prelude.{IfErr, IfOk, Some};
ghost use Rattle.memory_runs.specs.TextRuns.{text_file};
ghost use Rattle.memory_states.specs.Calls.{roll_asked, save_asked, state_files};
ghost use Rattle.memory_states.specs.Results.{IsFaultOf};
ghost use Rattle.rollup_answer.specs.Headline.{IsOwed};

use crate::lengths::are_lengths;
use crate::question::{keys_of, query_of};
use crate::rolled::rolled_frame;
use crate::saved::saved_text;
use memory_answer::text_of_frame;
use pipe_words::Format;
use rollup_answer::{RollupFault, ask_fault};
use rollup_words::Refusal;
use std::alloc::{AllocError, Global};

/// The text of the state of a text of CSV by a query, which bytes are as JSON. The text's first chunk has a
/// position.
pub fn save(alloc: Global, query: &[u8], first: u32, text: &[u8]) -> Result<Vec<u8>, RollupFault>
    // Exactly the text that `rollup_tool` writes for the text as a file, or exactly why it writes none; or
    // memory ran out.
    ensures text { IfOk result (λ t. IsOwed (save_asked query.now first)
        (Some (text_file text.now)) t.items) }
    ensures fault { IfErr result (λ f. IsFaultOf f (save_asked query.now first)
        (text_file text.now)) }
{
    let query = match query_of(alloc, query) {
        Ok(query) => query,
        Err(error) => return Err(ask_fault(error)),
    };
    match saved_text(alloc, query, first, text) {
        Ok(bytes) => Ok(bytes),
        Err(error) => Err(RollupFault::Save(error)),
    }
}

/// What states come to by the key columns of a query that bytes name as a list, as CSV. The states have
/// some lengths, and stand in one text, one behind another.
pub fn roll(
    alloc: Global,
    query: &[u8],
    keys: &[u8],
    lengths: &[usize],
    states: &[u8],
) -> Result<Vec<u8>, RollupFault>
    // Exactly the text that `rollup_tool` writes for the states as files, or exactly why it writes none; or
    // memory ran out.
    ensures text { IfOk result (λ t. IsOwed (roll_asked query.now keys.now lengths.now states.now)
        (Some (state_files lengths.now states.now)) t.items) }
    ensures fault { IfErr result (λ f. IsFaultOf f
        (roll_asked query.now keys.now lengths.now states.now)
        (state_files lengths.now states.now)) }
{
    if !are_lengths(lengths, states) {
        return Err(RollupFault::Refused(Refusal::Words));
    }
    let query = match query_of(alloc, query) {
        Ok(query) => query,
        Err(error) => return Err(ask_fault(error)),
    };
    let keep = match keys_of(alloc, &query, keys) {
        Ok(keep) => keep,
        Err(error) => return Err(ask_fault(error)),
    };
    let frame = match rolled_frame(alloc, &query, &keep, lengths, states) {
        Ok(frame) => frame,
        Err(error) => return Err(RollupFault::Roll(error)),
    };
    match text_of_frame(alloc, &frame, Format::Csv) {
        Ok(text) => Ok(text),
        Err(AllocError) => Err(RollupFault::Memory),
    }
}
