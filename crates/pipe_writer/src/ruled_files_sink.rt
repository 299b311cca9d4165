//! A sink of files whose channel is proved.

ghost use Rattle.std.specs.Prelude.{◌≡◌, ◌≢◌, ◌+◌, ◌++◌, ◌∷◌, ◌<◌, ◌≤◌, ◌*◌, [], List, ℕ, IfErr, IfOk, IfSome, IsErrOf, MatchOption, OnOk, None, Some, length, option_map, take, vec_capacity};
ghost use Rattle.std.specs.List.{range_with_len};
ghost use Rattle.crossbeam_channel.specs.Claims.{view};
ghost use Rattle.crossbeam_channel.specs.Ends.{sends_on};
ghost use Rattle.pipe_columns.specs.Causes.{Rose};
ghost use Rattle.pipe_writer.specs.Arrivals.{arrived, list_of, numbers_of};
ghost use Rattle.pipe_writer.specs.Carries.{AreWhole};
ghost use Rattle.pipe_writer.specs.Line.{IsLine};
ghost use Rattle.pipe_writer.specs.Sender.{IsOwn, channel_at, sent_through, without_channel};
ghost use Rattle.pipe_writer.specs.Sink.{AreAllSenders, AreUnused, IsSunk, lists_in, sent_of};
ghost use Rattle.pipe_writer.specs.Wrote.{HasRun, Wrote};
ghost use Rattle.pipe_writers.specs.WriteOrder.{rows_of_chunks, write_order};
ghost use Rattle.pipe_writers.specs.Writers.{IsFresh};
ghost use Rattle.pipe_writers.specs.declared.write_error.WriteError.TheVariants as write_error;

use crate::channel_writer::{ChannelWriter, write_until_end};
use crate::line::Line;
use crate::ruled_end::RuledEnd;
use crate::ruled_sender::RuledSender;
use crate::sender_way::SenderWay;
use crate::writing::Writing;
use pipe_writers::SinkWriter;
use std::alloc::{AllocError, Global};
use std::marker::Model;
use std::snapshot::Snapshot;
use std::sync::Wait;
use std::thread::{Builder, Promise, PromisedHandle, SpawnError, Threads};

/// What a thread gives: what it wrote of what it received since it was this.
#[derive(Drop)]
pub(crate) struct SinceBegun<W: SinkWriter> {
    writer: Snapshot<ChannelWriter<W>>,
}

impl<W: SinkWriter + Drop> Promise<ChannelWriter<W>> for SinceBegun<W> {
    ghost kept_by = { λ p writer. HasRun
        p.writer.value writer };
}

/// A thread that writes.
type WriterThread<W> = PromisedHandle<ChannelWriter<W>, SinceBegun<W>>;

/// Who writes: a thread, or where none can be had the sink, once it ends.
#[derive(Drop)]
pub(crate) enum Started<W: SinkWriter + Drop> {
    Beside(WriterThread<W>),
    Alone(ChannelWriter<W>),
}

/// Writes what its senders send in a thread of its own, beside them. Where no thread can be had, its
/// senders keep all that they take until it ends. One that is dropped before `finalize` leaves its
/// thread to itself, which ends once no sender is left. Contracts see the writer as the sink was made,
/// and what the sink was asked for.
#[derive(Drop)]
pub struct RuledFilesSink<W: SinkWriter + Drop, H> {
    rt: H,
    made_of: Snapshot<W>,
    maintain_order: bool,
    morsels: usize,
    senders: usize,
    started: Started<W>,
}

impl<W: SinkWriter + Drop, H> Model for RuledFilesSink<W, H> {
    ghost use Rattle.std.specs.Prelude.{◌<◌, ◌≤◌};
    ghost use Rattle.pipe_writer.specs.Sink.{IsBegun, RuledSeen, channel_of};

    ghost Value = { RuledSeen W };

    ghost view = { λ s. record {
      made_of = s.made_of.value;
      maintain_order = s.maintain_order;
      morsels = s.morsels;
      fields = W.fields (W.format s.made_of.value);
      senders = s.senders;
      channel = channel_of s.started;
    } };

    ghost invariant = { λ s. (0 < s.senders) × (s.senders ≤ 2)
        × IsBegun s.made_of.value
        s.maintain_order s.morsels s.senders s.started };
}

/// One or two senders.
fn apart<H: Drop>(senders: Vec<RuledSender<H>>) -> (RuledSender<H>, Option<RuledSender<H>>)
    requires one { 0 < length senders.items }
    requires two { length senders.items ≤ 2 }
    ensures { senders.items ≡ result.0 ∷ list_of result.1 }
{
    let mut senders = senders;
    let second = if senders.len() == 2 {
        senders.pop()
    } else {
        None
    };
    let Some(first) = senders.pop() else {
        unreachable!()
    };
    (first, second)
}

/// Room for senders, with these.
fn gathered<H>(
    ends: Vec<RuledSender<H>>,
    first: RuledSender<H>,
    second: Option<RuledSender<H>>,
) -> Vec<RuledSender<H>>
    requires none { ends.items ≡ [] }
    requires room { length (first ∷ list_of second) ≤ vec_capacity ends }
    ensures { result.items ≡ first ∷ list_of second }
{
    let mut ends = ends;
    ends.push_reserved(first);
    if let Some(second) = second {
        ends.push_reserved(second);
    }
    ends
}

/// The ways of senders that took nothing, and these without them.
fn unled<H: Wait + Copy>(first: RuledSender<H>, second: Option<RuledSender<H>>) -> Unled<H>
    requires first { first.list ≡ [] }
    requires way { first.channel ≢ None }
    requires second { IfSome second (λ s. s.list ≡ []) }
    requires second_way { IfSome second (λ s. s.channel ≢ None) }
    ensures way { Some (sends_on result.0.to) ≡ first.channel }
    ensures own { IsOwn first.number result.0 }
    ensures none { sent_through (Some result.0) ≡ [] }
    ensures second_way { MatchOption second (result.1 ≡ None)
        (λ s. (channel_at result.1 ≡ s.channel) × IfSome result.1 (IsOwn s.number)) }
    ensures second_none { sent_through result.1 ≡ [] }
    ensures first { result.2 ≡ without_channel first }
    ensures second { result.3 ≡ option_map without_channel second }
{
    let (first_way, first) = first.without_way();
    let Some(first_way) = first_way else {
        unreachable!()
    };
    match second {
        None => (first_way, None, first, None),
        Some(second) => {
            let (second_way, second) = second.without_way();
            (first_way, second_way, first, Some(second))
        }
    }
}

/// What makes a thread, with a stack of so many bytes or with the default.
fn with_stack_of(stack_size: Option<usize>) -> Builder {
    match stack_size {
        Some(size) => Builder::new().stack_size(size),
        None => Builder::new(),
    }
}

/// The ways of one or two senders, and these without them.
type Unled<H> = (
    SenderWay,
    Option<SenderWay>,
    RuledSender<H>,
    Option<RuledSender<H>>,
);

impl<W, H> RuledFilesSink<W, H>
where
    W: SinkWriter + Drop + Send + 'static,
    H: Threads + Wait + Copy + Send + 'static,
{
    /// A sink to which nothing came, for a writer to which no call was made, and its senders. The
    /// channel holds two pieces.
    pub fn new(
        rt: H,
        alloc: Global,
        writer: W,
        maintain_order: bool,
        morsels_per_sink: usize,
        senders: usize,
    ) -> Result<(RuledFilesSink<W, H>, Vec<RuledSender<H>>), (AllocError, W)>
        requires fresh { IsFresh (W.calls writer) }
        requires some { 0 < morsels_per_sink }
        requires few { morsels_per_sink ≤ 4096 }
        requires one { 0 < senders }
        requires two { senders ≤ 2 }
        ensures writer { IfOk result (λ r. r.0.made_of ≡ writer) }
        ensures asked { IfOk result (λ r. (r.0.maintain_order ≡ maintain_order)
            × (r.0.morsels ≡ morsels_per_sink) × (r.0.senders ≡ senders)) }
        ensures fields { IfOk result (λ r. r.0.fields ≡ W.fields (W.format writer)) }
        ensures senders { IfOk result (λ r. AreAllSenders r.0 r.1.items × AreUnused r.1.items) }
        ensures back { IfErr result (λ e. e.1 ≡ writer) }
    {
        RuledFilesSink::with_stack(
            rt,
            alloc,
            writer,
            maintain_order,
            morsels_per_sink,
            senders,
            None,
        )
    }

    /// The same, whose thread has a stack of so many bytes, or of as many as other threads. Where a
    /// stack can't be had, no thread can.
    pub fn with_stack(
        rt: H,
        alloc: Global,
        writer: W,
        maintain_order: bool,
        morsels_per_sink: usize,
        senders: usize,
        stack_size: Option<usize>,
    ) -> Result<(RuledFilesSink<W, H>, Vec<RuledSender<H>>), (AllocError, W)>
        requires fresh { IsFresh (W.calls writer) }
        requires some { 0 < morsels_per_sink }
        requires few { morsels_per_sink ≤ 4096 }
        requires one { 0 < senders }
        requires two { senders ≤ 2 }
        ensures writer { IfOk result (λ r. r.0.made_of ≡ writer) }
        ensures asked { IfOk result (λ r. (r.0.maintain_order ≡ maintain_order)
            × (r.0.morsels ≡ morsels_per_sink) × (r.0.senders ≡ senders)) }
        ensures fields { IfOk result (λ r. r.0.fields ≡ W.fields (W.format writer)) }
        ensures senders { IfOk result (λ r. AreAllSenders r.0 r.1.items × AreUnused r.1.items) }
        ensures back { IfErr result (λ e. e.1 ≡ writer) }
    {
        match Line::new(rt, alloc, writer.schema(), 2 * morsels_per_sink, senders) {
            Ok(line) => Ok(RuledFilesSink::begin(
                rt,
                alloc,
                writer,
                maintain_order,
                morsels_per_sink,
                senders,
                stack_size,
                line,
            )),
            Err(wanting) => Err((wanting, writer)),
        }
    }

    /// A sink over a channel, whose writer a thread runs where one can be had.
    fn begin(
        rt: H,
        alloc: Global,
        writer: W,
        maintain_order: bool,
        morsels_per_sink: usize,
        senders: usize,
        stack_size: Option<usize>,
        line: Line<H>,
    ) -> (RuledFilesSink<W, H>, Vec<RuledSender<H>>)
        requires fresh { IsFresh (W.calls writer) }
        requires some { 0 < morsels_per_sink }
        requires few { morsels_per_sink ≤ 4096 }
        requires one { 0 < senders }
        requires two { senders ≤ 2 }
        requires line { IsLine (W.fields (W.format writer)) senders line }
        ensures writer { result.0.made_of ≡ writer }
        ensures asked { (result.0.maintain_order ≡ maintain_order)
            × (result.0.morsels ≡ morsels_per_sink) × (result.0.senders ≡ senders) }
        ensures fields { result.0.fields ≡ W.fields (W.format writer) }
        ensures senders { AreAllSenders result.0 result.1.items × AreUnused result.1.items }
    {
        let Line {
            receiving,
            first,
            second,
            ends,
        } = line;
        let made_of = Snapshot::of(&writer);
        let writing = Writing::new(alloc, writer, maintain_order, morsels_per_sink);
        let writer = ChannelWriter { receiving, writing };
        let promise = SinceBegun {
            writer: Snapshot::of(&writer),
        };
        let thread = with_stack_of(stack_size);
        match thread.spawn_with(&rt, promise, move || write_until_end(rt, writer)) {
            Ok(thread) => {
                let sink = RuledFilesSink {
                    rt,
                    made_of,
                    maintain_order,
                    morsels: morsels_per_sink,
                    senders,
                    started: Started::Beside(thread),
                };
                (sink, gathered(ends, first, second))
            }
            Err(SpawnError { value: unstarted }) => {
                let (first_way, second_way, first, second) = unled(first, second);
                let mut first_way = first_way;
                first_way.end(&rt);
                let writer = unstarted().received(&rt, first_way, second_way);
                let sink = RuledFilesSink {
                    rt,
                    made_of,
                    maintain_order,
                    morsels: morsels_per_sink,
                    senders,
                    started: Started::Alone(writer),
                };
                (sink, gathered(ends, first, second))
            }
        }
    }
}

impl<W: SinkWriter + Drop, H: Threads + Wait + Copy> RuledFilesSink<W, H> {
    /// What was written of all that came through the channel, by the ways of its senders.
    fn received(self, first: Option<SenderWay>, second: Option<SenderWay>) -> ChannelWriter<W>
        requires first { channel_at first ≡ self.channel }
        requires first_own { IfSome first (IsOwn 0) }
        requires second { IfSome second (λ w. Some (sends_on w.to) ≡ self.channel) }
        requires second_own { IfSome second (IsOwn 1) }
        requires all { self.channel ≢ None → self.senders ≡ 1 + length (list_of second) }
        ensures whole { AreWhole (sent_through first ∷ sent_through second ∷ [])
            (view result.receiving.pass).got }
        ensures wrote { Wrote self.made_of
            self.maintain_order self.morsels result.writing (view result.receiving.pass).got }
    {
        let RuledFilesSink { rt, started, .. } = self;
        match started {
            Started::Alone(writer) => writer,
            Started::Beside(thread) => {
                let Some(first) = first else { unreachable!() };
                let mut first = first;
                first.end(&rt);
                thread.join(&rt).received(&rt, first, second)
            }
        }
    }

    /// Writes what all senders took, and ends.
    fn sunk(self, first: RuledSender<H>, second: Option<RuledSender<H>>) -> RuledEnd<W>
        requires senders { AreAllSenders self (first ∷ list_of second) }
        ensures sunk { IsSunk W.told W.faults (W.text (W.format self.made_of)) self
            (first ∷ list_of second) result }
    {
        let (first_way, first_rest) = first.parted();
        match second {
            None => {
                let mut writing = self.received(first_way, None).into_writing();
                writing.put_rest(first_rest);
                writing.into_end()
            }
            Some(second) => {
                let (second_way, second_rest) = second.parted();
                let mut writing = self.received(first_way, second_way).into_writing();
                writing.put_rest(first_rest);
                writing.put_rest(second_rest);
                writing.into_end()
            }
        }
    }

    /// Writes what its senders took, waits until all of it is written, and says what arrived. It may
    /// wait.
    pub fn finalize(self, senders: Vec<RuledSender<H>>) -> RuledEnd<W>
        requires senders { AreAllSenders self senders.items }
        ensures all { OnOk result.result ((sender : ℕ) → numbers_of sender result.arrivals.items
            ≡ range_with_len 0 (sent_of senders.items sender)) }
        ensures first { (sender : ℕ) → (n : ℕ) × (n ≤ sent_of senders.items sender)
            × (numbers_of sender result.arrivals.items ≡ range_with_len 0 n) }
        ensures whole { OnOk result.result ((since : List ℕ) → W.told self.made_of ≡ Some since
            → W.told result.writer ≡ Some (since ++ W.text (W.format self.made_of) (rows_of_chunks
            (write_order (arrived result.arrivals.items (lists_in senders.items)) self.morsels
            self.maintain_order)))) }
        ensures front { (since : List ℕ) → W.told self.made_of ≡ Some since
            → (n : ℕ) × (W.told result.writer ≡ Some (since ++ take n (W.text
            (W.format self.made_of) (rows_of_chunks (write_order
            (arrived result.arrivals.items (lists_in senders.items)) self.morsels
            self.maintain_order))))) }
        ensures cause { IsErrOf result.result write_error.Output
            → Rose (W.faults self.made_of) (W.faults result.writer) }
    {
        let _ = &self.rt;
        let (first, second) = apart(senders);
        self.sunk(first, second)
    }
}
