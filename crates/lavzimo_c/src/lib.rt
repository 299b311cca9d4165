//! The calls of Lavzimo for C, as include/lavzimo.h declares them.
#![tactic(auto)]

ghost use Rattle.memory_answer.specs.Answers.{format_of, told_in};
ghost use Rattle.memory_answer.specs.Giving.{IsGiven};
ghost use Rattle.memory_runs.specs.TextRuns.{text_file};
ghost use Rattle.memory_states.specs.Calls.{roll_asked, save_asked, state_files};
ghost use Rattle.memory_states.specs.Results.{IsResultGiven};

use memory_answer::group_into;
use memory_states::{roll_into, save_into};
use std::alloc::Global;

/// Puts the text of the answer of a query over a text, or the line of a fault, into room, tells how many
/// bytes these are, and answers their status.
#[unsafe(no_mangle)]
pub extern "C" fn lavzimo_group(
    alloc: Global,
    query: &[u8],
    text: &[u8],
    format: u8,
    room: &mut [u8],
    need: &mut usize,
) -> u8
    ensures given { IsGiven (told_in query.now text.now (format_of format))
        room.old room.new need.new result }
{
    group_into(alloc, query, text, format, room, need)
}

/// Puts the text of the state of a text by a query, or the line of a fault, into room, tells how many bytes
/// these are, and answers their status.
#[unsafe(no_mangle)]
pub extern "C" fn lavzimo_save(
    alloc: Global,
    query: &[u8],
    first: u32,
    text: &[u8],
    room: &mut [u8],
    need: &mut usize,
) -> u8
    ensures given { IsResultGiven (save_asked query.now first) (text_file text.now)
        room.old room.new need.new result }
{
    save_into(alloc, query, first, text, room, need)
}

/// Puts the text of what states come to by some keys of a query, or the line of a fault, into room, tells
/// how many bytes these are, and answers their status.
#[unsafe(no_mangle)]
pub extern "C" fn lavzimo_roll(
    alloc: Global,
    query: &[u8],
    keys: &[u8],
    lengths: &[usize],
    states: &[u8],
    room: &mut [u8],
    need: &mut usize,
) -> u8
    ensures given { IsResultGiven (roll_asked query.now keys.now lengths.now states.now)
        (state_files lengths.now states.now) room.old room.new need.new result }
{
    roll_into(alloc, query, keys, lengths, states, room, need)
}
