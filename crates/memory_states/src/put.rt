//! What calls on saved states give into the room of their caller.

ghost use Rattle.std.specs.Prelude.{◌≡◌, ◌⊎◌, IfErr, IfOk, Some};
ghost use Rattle.memory_answer.specs.Giving.{IsPut};
ghost use Rattle.memory_runs.specs.TextRuns.{text_file};
ghost use Rattle.memory_states.specs.Calls.{roll_asked, save_asked, state_files};
ghost use Rattle.memory_states.specs.Results.{IsFaultOf, IsResultGiven};
ghost use Rattle.pipe_io.specs.Files.{Files};
ghost use Rattle.rollup_answer.specs.Faults.{fault_line, status_of};
ghost use Rattle.rollup_answer.specs.Headline.{IsOwed};
ghost use Rattle.rollup_words.specs.Asked.{Asked};
ghost use Rattle.tool_shell.specs.Reports.{memory_line};

use crate::answer::{roll, save};
use memory_answer::put_bytes;
use rollup_answer::{RollupFault, fault_line, status_of};
use std::alloc::{AllocError, Global};
use tool_shell::{DONE, NO_MEMORY};

/// Puts the line of a fault into room. Where memory is wanting for the line, that is told.
fn put_fault(alloc: Global, fault: &RollupFault, room: &mut [u8], need: &mut usize) -> u8
    ensures { IsPut (status_of fault.now) (fault_line fault.now) room.old room.new need.new result
        ⊎ IsPut NO_MEMORY memory_line room.old room.new need.new result }
{
    match fault_line(alloc, fault) {
        Ok(line) => put_bytes(line.as_bytes(), status_of(fault), room, need),
        Err(AllocError) => put_bytes(b"out of memory\n", NO_MEMORY, room, need),
    }
}

/// Puts what a call came to into room.
fn put_ended(
    alloc: Global,
    ended: Result<Vec<u8>, RollupFault>,
    room: &mut [u8],
    need: &mut usize,
) -> u8
    ensures given { (a : Asked) (files : Files)
        → IfOk ended (λ t. IsOwed a (Some files) t.items)
        → IfErr ended (λ f. IsFaultOf f a files)
        → IsResultGiven a files room.old room.new need.new result }
{
    match ended {
        Ok(text) => put_bytes(&text, DONE, room, need),
        Err(fault) => put_fault(alloc, &fault, room, need),
    }
}

/// Puts the text of the state of a text by a query, or the line of a fault, into room, tells how many bytes
/// these are, and answers their status.
pub fn save_into(
    alloc: Global,
    query: &[u8],
    first: u32,
    text: &[u8],
    room: &mut [u8],
    need: &mut usize,
) -> u8
    ensures given { IsResultGiven (save_asked query.now first) (text_file text.now)
        room.old room.new need.new result }
{
    put_ended(alloc, save(alloc, query, first, text), room, need)
}

/// Puts the text of what states come to by some keys of a query, or the line of a fault, into room, tells
/// how many bytes these are, and answers their status.
pub fn roll_into(
    alloc: Global,
    query: &[u8],
    keys: &[u8],
    lengths: &[usize],
    states: &[u8],
    room: &mut [u8],
    need: &mut usize,
) -> u8
    ensures given { IsResultGiven (roll_asked query.now keys.now lengths.now states.now)
        (state_files lengths.now states.now) room.old room.new need.new result }
{
    put_ended(alloc, roll(alloc, query, keys, lengths, states), room, need)
}
