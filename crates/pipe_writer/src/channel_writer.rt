//! A writer at its end of a channel.

ghost use Rattle.std.specs.Prelude.{◌≡◌, ◌+◌, ◌<◌, ◌∷◌, [], Bool, List, ℕ, IfSome, length};
ghost use Rattle.crossbeam_channel.specs.Claims.{view};
ghost use Rattle.crossbeam_channel.specs.Ends.{receives_on, sends_on};
ghost use Rattle.pipe_writer.specs.Arrivals.{list_of};
ghost use Rattle.pipe_writer.specs.Carries.{AreWhole, KnowsAll, lists_of};
ghost use Rattle.pipe_writer.specs.Sender.{IsOwn, first_chunks, sent_through};
ghost use Rattle.pipe_writer.specs.Wrote.{HasRun, Wrote};

use crate::message::Message;
use crate::receiving::Receiving;
use crate::sender_way::SenderWay;
use crate::writing::Writing;
use pipe_writers::SinkWriter;
use std::sync::Wait;

/// The receiving end of a channel, and what is written of what it gives.
#[derive(Drop)]
pub(crate) struct ChannelWriter<W: SinkWriter> {
    pub(crate) receiving: Receiving,
    pub(crate) writing: Writing<W>,
}

/// Writes what comes, until the end comes or no sender is left.
pub(crate) fn write_until_end<W: SinkWriter, H: Wait + Copy>(
    rt: H,
    writer: ChannelWriter<W>,
) -> ChannelWriter<W>
    requires made { 0 < (view writer.receiving.pass).made }
    requires fields { (view writer.receiving.pass).fields
        ≡ W.fields (W.format writer.writing.core.core.writer) }
    ensures ran { HasRun writer result }
{
    let mut writer = writer;
    for _turn in rt.forever() {
        match writer.receiving.take(&rt) {
            Some(Message::Chunk(sent)) => writer.writing.put(sent),
            Some(Message::End) => return writer,
            None => return writer,
        }
    }
    unreachable!()
}

impl<W: SinkWriter> ChannelWriter<W> {
    /// Writes what the channel still holds.
    pub(crate) fn drain<H: Wait>(&mut self, rt: &H)
        requires made { 0 < (view self.old.receiving.pass).made }
        requires fields { (view self.old.receiving.pass).fields
            ≡ W.fields (W.format self.old.writing.core.core.writer) }
        ensures ran { HasRun self.old self.new }
        ensures all { KnowsAll (view self.old.receiving.pass)
            → AreWhole (lists_of (view self.old.receiving.pass).sent)
            (view self.new.receiving.pass).got }
    {
        for _turn in rt.forever() {
            match self.receiving.take_now(rt) {
                Some(Message::Chunk(sent)) => self.writing.put(sent),
                Some(Message::End) => {}
                None => return,
            }
        }
        unreachable!()
    }

    /// Takes in the passes of all senders, and writes what the channel still holds.
    pub(crate) fn received<H: Wait>(
        self,
        rt: &H,
        first: SenderWay,
        second: Option<SenderWay>,
    ) -> ChannelWriter<W>
        requires first { sends_on first.to ≡ receives_on self.receiving.from }
        requires first_own { IsOwn 0 first }
        requires second { IfSome second (λ w. sends_on w.to ≡ receives_on self.receiving.from) }
        requires second_own { IfSome second (IsOwn 1) }
        requires all { (view self.receiving.pass).made ≡ 1 + length (list_of second) }
        requires none { (view self.receiving.pass).sent ≡ [] }
        requires fields { (view self.receiving.pass).fields
            ≡ W.fields (W.format self.writing.core.core.writer) }
        ensures whole { AreWhole (first_chunks (view first.pass).sent ∷ sent_through second ∷ [])
            (view result.receiving.pass).got }
        ensures wrote { (made : W) → (maintain : Bool) → (morsels : ℕ)
            → Wrote made maintain morsels
            self.writing (view self.receiving.pass).got
            → Wrote made maintain morsels
            result.writing (view result.receiving.pass).got }
    {
        let mut writer = self;
        writer.receiving.join(first);
        match second {
            None => {
                writer.drain(rt);
                writer
            }
            Some(second) => {
                writer.receiving.join(second);
                writer.drain(rt);
                writer
            }
        }
    }

    /// What was written, without the end of the channel.
    pub(crate) fn into_writing(self) -> Writing<W>
        ensures { result ≡ self.writing }
    {
        let ChannelWriter {
            receiving: _receiving,
            writing,
        } = self;
        writing
    }
}
