//! What a call gives into the room of its caller.

ghost use Rattle.std.specs.Prelude.{◌≡◌, ◌⊎◌, IfErr, IfOk, Ok};
ghost use Rattle.memory_answer.specs.Answers.{format_of, IsFaultOf, told_in};
ghost use Rattle.memory_answer.specs.Faults.{fault_line, status_of};
ghost use Rattle.memory_answer.specs.Giving.{IsGiven, IsPut};
ghost use Rattle.tool_shell.specs.Reports.{memory_line};

use crate::answer::group;
use crate::fault::{Fault, status_of};
use crate::line::fault_line;
use pipe_words::Format;
use std::alloc::{AllocError, Global};
use tool_shell::{DONE, NO_MEMORY};

/// The room is less than the bytes that are to be given.
pub const ROOM_SHORT: u8 = 20;

/// The format of a number.
fn format_of(number: u8) -> Option<Format>
    ensures { result ≡ format_of number }
{
    match number {
        0 => Some(Format::Csv),
        1 => Some(Format::Json),
        _ => None,
    }
}

/// Puts bytes of a status into room, and tells their number.
pub fn put_bytes(bytes: &[u8], status: u8, room: &mut [u8], need: &mut usize) -> u8
    ensures { IsPut status bytes.now room.old room.new need.new result }
{
    *need = bytes.len();
    if bytes.len() > room.len() {
        return ROOM_SHORT;
    }
    room[..bytes.len()].copy_from_slice(bytes);
    status
}

/// Puts the line of a fault into room. Where memory is wanting for the line, that is told.
fn put_fault(alloc: Global, fault: &Fault, room: &mut [u8], need: &mut usize) -> u8
    ensures { IsPut (status_of fault.now) (fault_line fault.now) room.old room.new need.new result
        ⊎ IsPut NO_MEMORY memory_line room.old room.new need.new result }
{
    match fault_line(alloc, fault) {
        Ok(line) => put_bytes(line.as_bytes(), status_of(fault), room, need),
        Err(AllocError) => put_bytes(b"out of memory\n", NO_MEMORY, room, need),
    }
}

/// The text of the answer of a query over a text in the format of a number.
fn group_in(alloc: Global, query: &[u8], text: &[u8], format: u8) -> Result<Vec<u8>, Fault>
    ensures text { IfOk result (λ t. told_in query.now text.now (format_of format) ≡ Ok t.items) }
    ensures fault { IfErr result (λ f. IsFaultOf f (told_in query.now text.now (format_of format))) }
{
    match format_of(format) {
        Some(format) => group(alloc, query, text, format),
        None => Err(Fault::Words),
    }
}

/// Puts the text of the answer of a query over a text, or the line of a fault, into room, tells how many
/// bytes these are, and answers their status.
pub fn group_into(
    alloc: Global,
    query: &[u8],
    text: &[u8],
    format: u8,
    room: &mut [u8],
    need: &mut usize,
) -> u8
    ensures given { IsGiven (told_in query.now text.now (format_of format))
        room.old room.new need.new result }
{
    match group_in(alloc, query, text, format) {
        Ok(text) => put_bytes(&text, DONE, room, need),
        Err(fault) => put_fault(alloc, &fault, room, need),
    }
}
