//! What a channel to a writer holds, and what the threads at it know.

use pipe_columns::{DataChunk, Schema};
use std::collections::LinkedList;

/// A chunk that was sent: its sender's number, and its own number among the chunks of that sender.
#[derive(Drop)]
pub struct SentChunk {
    pub sender: usize,
    pub number: u64,
    pub chunk: DataChunk,
}

/// What a writer is sent.
#[derive(Drop)]
pub enum Message {
    Chunk(SentChunk),
    /// That no more chunks come.
    End,
}

/// What a sender has sent. No value of it is made.
pub struct SentList {
    pub sender: usize,
    pub chunks: LinkedList<DataChunk>,
}

/// What a pass knows: whether it receives, what it received, for how many senders it made passes, the
/// fields of what is written, and what the senders whose passes it is have sent. No value of it is
/// made.
pub struct Known {
    pub receives: bool,
    pub got: LinkedList<SentChunk>,
    pub made: usize,
    pub fields: Schema,
    pub sent: LinkedList<SentList>,
}
