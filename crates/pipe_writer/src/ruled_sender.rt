//! A sender of a sink of files.

ghost use Rattle.std.specs.Prelude.{◌≡◌, ◌≢◌, ◌++◌, ◌∷◌, ◌+◌, ◌<◌, ◌-◌, ◌^◌, [], IfErr, IfOk, IfSome, None, OnOk, is_ok, length, true};
ghost use Rattle.std.specs.List.{AllByRecursion};
ghost use Rattle.crossbeam_channel.specs.Claims.{view};
ghost use Rattle.pipe_columns.specs.declared.sink.SinkResult.TheVariants as sink_result;
ghost use Rattle.pipe_files_sink.specs.Joined.{IsWritable};
ghost use Rattle.pipe_writer.specs.Sender.{IsOwn, channel_at, sent_through, without_channel};

use crate::message::SentChunk;
use crate::rest::Rest;
use crate::sender_way::SenderWay;
use pipe_columns::{DataChunk, Schema, SinkResult};
use std::alloc::{AllocError, Global};
use std::marker::Model;
use std::snapshot::Snapshot;
use std::sync::Wait;

/// A way into a sink whose channel is proved. Contracts see its number, how many chunks it took, and
/// which.
#[derive(Drop)]
pub struct RuledSender<H> {
    rt: H,
    number: usize,
    sent: u64,
    fields: Snapshot<Schema>,
    way: Option<SenderWay>,
    /// What the channel refused, and all that came behind it.
    rest: Vec<DataChunk>,
}

impl<H> Model for RuledSender<H> {
    ghost use Rattle.std.specs.Prelude.{◌++◌};
    ghost use Rattle.pipe_writer.specs.Sender.{IsSender, SenderSeen, channel_at, sent_through};

    ghost Value = { SenderSeen };

    ghost view = { λ s. record {
      number = s.number;
      sent = s.sent;
      list = sent_through s.way ++ s.rest.items;
      fields = s.fields.value;
      channel = channel_at s.way;
    } };

    ghost invariant = { λ s. IsSender s.number s.sent s.fields.value s.way s.rest.items };
}

impl<H: Wait> RuledSender<H> {
    /// Its number among the senders of its sink.
    pub fn number(&self) -> usize
        ensures { result ≡ self.now.number }
    {
        self.number
    }

    /// How many chunks it took.
    pub fn sent(&self) -> u64
        ensures { result ≡ self.now.sent }
    {
        self.sent
    }

    /// Sends a chunk, where none was kept before, and gives it back where it can't be sent.
    fn send(&mut self, chunk: DataChunk) -> Option<DataChunk>
        requires writable { IsWritable self.old.fields chunk.frame }
        requires more { self.old.sent < 2 ^ 64 - 1 }
        ensures sent { result ≡ None → self.new ≡ record self.old {
          sent = self.old.sent + 1;
          list = self.old.list ++ chunk ∷ [];
        } }
        ensures back { IfSome result (λ c. (c ≡ chunk) × (self.new ≡ self.old)) }
    {
        if !self.rest.is_empty() {
            return Some(chunk);
        }
        let Some(way) = &mut self.way else {
            return Some(chunk);
        };
        let sent = SentChunk {
            sender: self.number,
            number: self.sent,
            chunk,
        };
        if let Some(back) = way.send(&self.rt, sent) {
            return Some(back);
        }
        self.sent += 1;
        None
    }

    /// Keeps a chunk, and gives it back where memory is wanting.
    fn keep(&mut self, chunk: DataChunk) -> Result<(), (AllocError, DataChunk)>
        requires writable { IsWritable self.old.fields chunk.frame }
        requires more { self.old.sent < 2 ^ 64 - 1 }
        ensures kept { OnOk result (self.new ≡ record self.old {
          sent = self.old.sent + 1;
          list = self.old.list ++ chunk ∷ [];
        }) }
        ensures back { IfErr result (λ e. (e.1 ≡ chunk) × (self.new ≡ self.old)) }
    {
        if let Err(wanting) = self.rest.reserve(1) {
            return Err((wanting, chunk));
        }
        self.rest.push_reserved(chunk);
        self.sent += 1;
        Ok(())
    }

    /// Takes a chunk. It may wait.
    pub fn sink(&mut self, chunk: DataChunk) -> Result<SinkResult, (AllocError, DataChunk)>
        requires writable { IsWritable self.old.fields chunk.frame }
        requires more { self.old.sent < 2 ^ 64 - 1 }
        ensures answer { IfOk result (λ r. r ≡ sink_result.CanHaveMoreInput) }
        ensures rowless { chunk.frame.height ≡ 0 → (self.new ≡ self.old) × (is_ok result ≡ true) }
        ensures taken { OnOk result (chunk.frame.height ≢ 0 → self.new ≡ record self.old {
          sent = self.old.sent + 1;
          list = self.old.list ++ chunk ∷ [];
        }) }
        ensures refused { IfErr result (λ e. (e.1 ≡ chunk) × (self.new ≡ self.old)) }
    {
        if chunk.frame.height() == 0 {
            return Ok(SinkResult::CanHaveMoreInput);
        }
        if let Some(back) = self.send(chunk) {
            self.keep(back)?;
        }
        Ok(SinkResult::CanHaveMoreInput)
    }
}

impl<H: Wait + Copy> RuledSender<H> {
    /// One that took no chunk.
    pub(crate) fn new(
        rt: H,
        alloc: Global,
        number: usize,
        fields: Snapshot<Schema>,
        way: Option<SenderWay>,
    ) -> RuledSender<H>
        requires own { IfSome way (IsOwn number) }
        requires none { sent_through way ≡ [] }
        requires fields { IfSome way (λ w. (view w.pass).fields ≡ fields.value) }
        ensures made { result ≡ record {
          number = number;
          sent = 0;
          list = [];
          fields = fields.value;
          channel = channel_at way;
        } }
    {
        RuledSender {
            rt,
            number,
            sent: 0,
            fields,
            way,
            rest: Vec::new(alloc),
        }
    }

    /// Its way, and what it kept.
    pub(crate) fn parted(self) -> (Option<SenderWay>, Rest)
        ensures channel { channel_at result.0 ≡ self.channel }
        ensures own { IfSome result.0 (IsOwn self.number) }
        ensures sender { result.1.sender ≡ self.number }
        ensures first { result.1.first ≡ length (sent_through result.0) }
        ensures list { self.list ≡ sent_through result.0 ++ result.1.chunks.items }
        ensures sent { self.sent ≡ length self.list }
        ensures few { result.1.first + length result.1.chunks.items < 2 ^ 64 }
        ensures writable { AllByRecursion (λ c. IsWritable self.fields c.frame)
            result.1.chunks.items }
    {
        let RuledSender {
            rt: _,
            number,
            sent,
            fields: _fields,
            way,
            rest,
        } = self;
        let first = sent - rest.len() as u64;
        let rest = Rest {
            sender: number,
            first,
            chunks: rest,
        };
        (way, rest)
    }

    /// Its way, and it without one, where it took nothing.
    pub(crate) fn without_way(self) -> (Option<SenderWay>, RuledSender<H>)
        requires { self.list ≡ [] }
        ensures channel { channel_at result.0 ≡ self.channel }
        ensures own { IfSome result.0 (IsOwn self.number) }
        ensures none { sent_through result.0 ≡ [] }
        ensures sender { result.1 ≡ without_channel self }
    {
        let RuledSender {
            rt,
            number,
            sent,
            fields,
            way,
            rest,
        } = self;
        let sender = RuledSender {
            rt,
            number,
            sent,
            fields,
            way: None,
            rest,
        };
        (way, sender)
    }
}
