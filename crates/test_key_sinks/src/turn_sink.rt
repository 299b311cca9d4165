//! A sink that takes chunks in turn with others.

ghost use Rattle.std.specs.Prelude.{◌≡◌, ◌≤◌, ◌<◌, ◌%◌, ◌++◌, ◌∷◌, [], IfOk, IsTrue, OnErr, true, false};
ghost use Rattle.pipe_sinks.specs.Runs.{purpose_of, Takes};

use crate::cases::Way;
use crate::key_column::key_column;
use pipe_aggs::CheckedQuery;
use pipe_columns::{DataChunk, DataFrame, FinalizedSink, Sink};
use pipe_sinks::{KeySink, SoleKey, has_sole_key};
use std::alloc::{AllocError, Global};
use std::marker::Model;
use std::test::Fail;

/// The most rows that a sink takes here.
const MOST_ROWS: usize = 1000;

/// A sink of so many that take chunks in turn: it takes those whose index leaves a remainder from
/// `from` on and below `to`. It looks itself at what each call of its sink asks for.
#[derive(Drop)]
pub(crate) struct TurnSink<'a, S> {
    query: &'a CheckedQuery<'a>,
    sink: KeySink<'a, S>,
    sinks: usize,
    from: usize,
    to: usize,
    next: usize,
    rows: usize,
}

impl<'a, S> Model for TurnSink<'a, S> {
    ghost use Rattle.pipe_sinks.specs.Runs.{Run};
    ghost use Rattle.test_key_sinks.specs.Turns.{IsFed};

    ghost Value = { Run };

    ghost view = { λ a. a.sink };

    ghost invariant = { λ a. IsFed a.query.now a.sinks a.from a.to a.next a.rows a.sink };
}

/// Whether a chunk of an index comes in a turn, behind those of the indexes before a number.
fn comes(index: usize, sinks: usize, from: usize, to: usize, next: usize) -> bool
    ensures later { IsTrue result → next ≤ index }
    ensures least { IsTrue result → from ≤ index % sinks }
    ensures most { IsTrue result → index % sinks < to }
{
    let Some(turn) = index.checked_rem(sinks) else {
        return false;
    };
    from <= turn && turn < to && next <= index
}

/// Hands a chunk to a sink with the column of its keys, under a flag, and tells whether these are of the
/// sink's type.
fn hand_sorted<S: SoleKey>(
    alloc: Global,
    query: &CheckedQuery<'_>,
    sink: &mut KeySink<'_, S>,
    flag: bool,
    chunk: DataChunk,
) -> Result<bool, AllocError>
    requires takes { Takes sink.old chunk }
    requires query { sink.old.query ≡ query.now }
    ensures taken { IfOk result (λ b. b ≡ true → sink.new.taken ≡ sink.old.taken ++ chunk ∷ []) }
    ensures left { IfOk result (λ b. b ≡ false → sink.new ≡ sink.old) }
    ensures purpose { purpose_of sink.new ≡ purpose_of sink.old }
    ensures err { OnErr result (sink.new ≡ sink.old) }
{
    let Some(key) = key_column(alloc, query, S::key_type(), flag, &chunk)? else {
        return Ok(false);
    };
    sink.sink_sorted(&key, &chunk)?;
    Ok(true)
}

/// Hands a chunk to a sink, and tells whether it was one with a key of its own type.
fn hand<S: SoleKey>(
    alloc: Global,
    query: &CheckedQuery<'_>,
    sink: &mut KeySink<'_, S>,
    way: Way,
    chunk: DataChunk,
) -> Result<bool, AllocError>
    requires takes { Takes sink.old chunk }
    requires query { sink.old.query ≡ query.now }
    ensures taken { IfOk result (λ b. b ≡ true → sink.new.taken ≡ sink.old.taken ++ chunk ∷ []) }
    ensures left { IfOk result (λ b. b ≡ false → sink.new ≡ sink.old) }
    ensures purpose { purpose_of sink.new ≡ purpose_of sink.old }
    ensures err { OnErr result (sink.new ≡ sink.old) }
{
    match way {
        Way::Whole => {
            sink.sink(chunk)?;
            Ok(true)
        }
        Way::Sorted(flag) => hand_sorted(alloc, query, sink, flag, chunk),
    }
}

impl<'a, S: SoleKey> TurnSink<'a, S> {
    /// The first of so many sinks.
    pub(crate) fn new(
        alloc: Global,
        query: &'a CheckedQuery<'a>,
        partitions: usize,
        sinks: usize,
    ) -> Result<TurnSink<'a, S>, Fail> {
        if partitions == 0 || !has_sole_key(query, S::key_type()) {
            return Err("another key".into());
        }
        let sink = KeySink::new(alloc, query, partitions)?;
        Ok(TurnSink {
            query,
            sink,
            sinks,
            from: 0,
            to: 1,
            next: 0,
            rows: 0,
        })
    }

    /// Another of the sinks, which took nothing.
    pub(crate) fn split(&self, turn: u32) -> Result<TurnSink<'a, S>, AllocError>
        ensures { IfOk result (λ s. purpose_of s ≡ purpose_of self.now) }
    {
        let turn = turn as usize;
        let sink = self.sink.split()?;
        Ok(TurnSink {
            query: self.query,
            sink,
            sinks: self.sinks,
            from: turn,
            to: turn + 1,
            next: 0,
            rows: 0,
        })
    }

    /// Takes a chunk that comes here in its turn, and tells whether it is one.
    pub(crate) fn take(
        &mut self,
        alloc: Global,
        way: Way,
        chunk: DataChunk,
    ) -> Result<bool, AllocError>
        ensures { purpose_of self.new ≡ purpose_of self.old }
    {
        let (index, height) = (chunk.chunk_index as usize, chunk.frame.height());
        if !comes(index, self.sinks, self.from, self.to, self.next) {
            return Ok(false);
        }
        if height > MOST_ROWS - self.rows {
            return Ok(false);
        }
        if !chunk.frame.fits(&self.query.query().schema) {
            return Ok(false);
        }
        if !hand(alloc, self.query, &mut self.sink, way, chunk)? {
            return Ok(false);
        }
        self.next = index + 1;
        self.rows += height;
        Ok(true)
    }

    /// Takes the chunks of a later sink over, and tells whether it is one.
    pub(crate) fn merge(&mut self, other: &mut TurnSink<'a, S>) -> Result<bool, AllocError>
        requires { purpose_of other.old ≡ purpose_of self.old }
        ensures own { purpose_of self.new ≡ purpose_of self.old }
        ensures other { purpose_of other.new ≡ purpose_of other.old }
    {
        if self.sinks != other.sinks || self.to > other.from {
            return Ok(false);
        }
        if other.rows > MOST_ROWS - self.rows {
            return Ok(false);
        }
        self.sink.combine(&mut other.sink)?;
        self.to = other.to;
        self.next = self.next.max(other.next);
        self.rows += other.rows;
        other.rows = 0;
        Ok(true)
    }

    /// The groups of all chunks taken.
    pub(crate) fn finish(&mut self) -> Result<DataFrame, AllocError> {
        let FinalizedSink::Finished(frame) = self.sink.finalize()?;
        self.rows = 0;
        Ok(frame)
    }
}
