//! Each call once, over three rows: an answer, the rooms of callers, and states that are saved and
//! rolled up. What they answer of other texts and queries is said by the clauses.

use memory_answer::{Fault, ROOM_SHORT, group, group_into};
use memory_states::{roll, save};
use pipe_words::Format;
use std::alloc::{AllocError, Global};
use std::test::Fail;

/// The sum s of v by k.
const QUERY: &str =
    r#"{"schema":[["k","Int64"],["v","Int64"]],"keys":["k"],"aggs":[{"alias":[{"sum":"v"},"s"]}]}"#;

/// Three rows of two groups.
const TEXT: &[u8] = b"k,v\n1,5\n2,6\n1,7\n";

/// Their answer.
const ANSWER: &[u8] = b"k,s\n1,12\n2,6\n";

/// Whether the answer over the text is a text.
fn answers(alloc: Global, format: Format, wanted: &[u8]) -> Result<bool, Fail> {
    match group(alloc, QUERY.as_bytes(), TEXT, format) {
        Ok(given) => Ok(given.as_slice() == wanted),
        Err(Fault::Memory) => Err("group wants memory".into()),
        Err(_) => Ok(false),
    }
}

#[test]
fn an_answer(rt: HostRuntime) -> Result<(), Fail> {
    let lines = b"{\"k\":1,\"s\":12}\n{\"k\":2,\"s\":6}\n";
    assert!(rt;
        answers(rt.alloc(), Format::Csv, ANSWER)? && answers(rt.alloc(), Format::Json, lines)?
    );
    Ok(())
}

/// Whether a call into a room of so many bytes ends by a status, with such a room, and needs so many.
fn gives(
    alloc: Global,
    format: u8,
    status: u8,
    wanted: &[u8],
    count: usize,
) -> Result<bool, AllocError> {
    let mut room = Vec::from_elem(alloc, b'~', wanted.len())?;
    let mut need = 0;
    let ended = group_into(alloc, QUERY.as_bytes(), TEXT, format, &mut room, &mut need);
    if ended == 10 {
        return Err(AllocError);
    }
    Ok(ended == status && room.as_slice() == wanted && need == count)
}

/// A room that is just enough, one byte less, and the line of a fault with a byte to spare.
#[test]
fn rooms(rt: HostRuntime) -> Result<(), Fail> {
    assert!(rt;
        gives(rt.alloc(), 0, 0, ANSWER, 13)?
            && gives(rt.alloc(), 0, ROOM_SHORT, b"~~~~~~~~~~~~", 13)?
            && gives(rt.alloc(), 9, 2, b"words refused\n~", 14)?
    );
    Ok(())
}

/// The state of the text at a position.
fn state_at(alloc: Global, first: u32) -> Result<Vec<u8>, Fail> {
    match save(alloc, QUERY.as_bytes(), first, TEXT) {
        Ok(state) => Ok(state),
        Err(_) => Err("save wants memory".into()),
    }
}

/// Whether states of some lengths are rolled up to a text.
fn rolls(alloc: Global, lengths: &[usize], states: &[u8], wanted: &[u8]) -> Result<bool, Fail> {
    match roll(alloc, QUERY.as_bytes(), b"[\"k\"]", lengths, states) {
        Ok(text) => Ok(text.as_slice() == wanted),
        Err(_) => Err("roll wants memory".into()),
    }
}

/// Two states in one text.
#[test]
fn two_states(rt: HostRuntime) -> Result<(), Fail> {
    let mut states = state_at(rt.alloc(), 0)?;
    let length = states.len();
    let next = state_at(rt.alloc(), 1)?;
    states.extend_from_slice(&next)?;
    assert!(rt; rolls(rt.alloc(), &[length, length], &states, b"k,s\n1,24\n2,12\n")?);
    Ok(())
}
