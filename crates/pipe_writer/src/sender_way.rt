//! A sender's way to a writer.

ghost use Rattle.std.specs.Prelude.{◌≡◌, IfSome, None, OnSome};
ghost use Rattle.crossbeam_channel.specs.Claims.{IsSeatAt, view};
ghost use Rattle.crossbeam_channel.specs.Ends.{sends_on};
ghost use Rattle.pipe_writer.specs.Sent.{MaySend, after_send};
ghost use Rattle.pipe_writer.specs.declared.message.Message.TheVariants as message;

use crate::message::{Message, SentChunk};
use crate::rule::{Sends, ToWriter, WriterPass};
use pipe_columns::DataChunk;
use std::sync::Wait;

/// The sending end of a channel, and a sender's pass to it.
#[derive(Drop)]
pub(crate) struct SenderWay {
    pub(crate) to: ToWriter,
    pub(crate) pass: WriterPass,
    ghost seated: { IsSeatAt (sends_on to) pass },
}

impl SenderWay {
    pub(crate) fn new(to: ToWriter, pass: WriterPass) -> SenderWay
        requires { IsSeatAt (sends_on to) pass }
        ensures to { result.to ≡ to }
        ensures pass { result.pass ≡ pass }
    {
        SenderWay { to, pass }
    }

    /// Sends a chunk, and gives it back where the channel refuses it.
    pub(crate) fn send<H: Wait>(&mut self, rt: &H, sent: SentChunk) -> Option<DataChunk>
        requires { MaySend (view self.old.pass) (message.Chunk sent) }
        ensures to { sends_on self.new.to ≡ sends_on self.old.to }
        ensures sent { result ≡ None
            → view self.new.pass ≡ after_send (view self.old.pass) (message.Chunk sent) }
        ensures back { IfSome result (λ chunk. chunk ≡ sent.chunk) }
        ensures same { OnSome result (view self.new.pass ≡ view self.old.pass) }
    {
        match self
            .to
            .send_as::<Sends, H>(rt, &mut self.pass, Message::Chunk(sent))
        {
            Ok(()) => None,
            Err(refused) => match refused.into_inner() {
                Message::Chunk(back) => Some(back.chunk),
                Message::End => unreachable!(),
            },
        }
    }

    /// Sends the end.
    pub(crate) fn end<H: Wait>(&mut self, rt: &H)
        ensures to { sends_on self.new.to ≡ sends_on self.old.to }
        ensures same { view self.new.pass ≡ view self.old.pass }
    {
        let _ = self
            .to
            .send_as::<Sends, H>(rt, &mut self.pass, Message::End);
    }
}
