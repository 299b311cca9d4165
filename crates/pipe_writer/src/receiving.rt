//! The receiving end of a channel to a writer.

ghost use Rattle.std.specs.Prelude.{◌≡◌, ◌<◌, IfOk, IfSome, None, true};
ghost use Rattle.crossbeam_channel.specs.Claims.{IsSeatAt, view};
ghost use Rattle.crossbeam_channel.specs.Ends.{receives_on, sends_on};
ghost use Rattle.pipe_writer.specs.Carries.{AreWhole, KnowsAll, after_making, first_known, joined, lists_of, made_pass};
ghost use Rattle.pipe_writer.specs.Sent.{AreFit, after_receive, chunk_in};

use crate::message::Message;
use crate::rule::{Carried, FromSenders, Joins, Makes, Receives, ToWriter, WriterPass, Written};
use crate::sender_way::SenderWay;
use crossbeam_channel::bounded_with;
use pipe_columns::Schema;
use std::alloc::{AllocError, Global};
use std::marker::Brand;
use std::sync::Wait;

/// The receiving end of a channel, and the pass to it that receives.
#[derive(Drop)]
pub(crate) struct Receiving {
    pub(crate) from: FromSenders,
    pub(crate) pass: WriterPass,
    ghost seated: { IsSeatAt (receives_on from) pass },
    ghost receives: { (view pass).receives ≡ true },
}

/// A channel of so much room: its sending end and its receiving one.
pub(crate) fn open(alloc: Global, room: usize) -> Result<(ToWriter, Receiving), AllocError>
    requires { 0 < room }
    ensures same { IfOk result (λ r. receives_on r.1.from ≡ sends_on r.0) }
    ensures first { IfOk result (λ r. view r.1.pass ≡ first_known) }
{
    let (to, from, pass) = bounded_with::<Message, _, Carried, _>(alloc, room)?;
    Ok((to, Receiving { from, pass }))
}

/// A pass of the next sender, for frames of fields that a type names.
fn another<N: Written>(to: &ToWriter, maker: &mut WriterPass, schema: &Schema) -> WriterPass
    requires named { schema.now ≡ N.fields }
    requires channel { IsSeatAt (sends_on to.now) maker.old }
    requires receives { (view maker.old).receives ≡ true }
    requires fields { 0 < (view maker.old).made → (view maker.old).fields ≡ schema.now }
    ensures channel { IsSeatAt (sends_on to.now) maker.new × IsSeatAt (sends_on to.now) result }
    ensures maker { view maker.new ≡ after_making schema.now (view maker.old) }
    ensures pass { view result ≡ made_pass schema.now (view maker.old) }
{
    let _named = schema;
    to.another::<Makes<N>>(maker)
}

impl Receiving {
    /// The way of the next sender, for frames of a schema.
    pub(crate) fn next_way(&mut self, to: ToWriter, schema: &Schema) -> SenderWay
        requires same { sends_on to ≡ receives_on self.old.from }
        requires fields { 0 < (view self.old.pass).made
            → (view self.old.pass).fields ≡ schema.now }
        ensures same { receives_on self.new.from ≡ receives_on self.old.from }
        ensures to { sends_on result.to ≡ sends_on to }
        ensures maker { view self.new.pass ≡ after_making schema.now (view self.old.pass) }
        ensures pass { view result.pass ≡ made_pass schema.now (view self.old.pass) }
    {
        let pass = another::<Brand>(&to, &mut self.pass, schema);
        SenderWay::new(to, pass)
    }

    /// The next message. It may wait, and is none only if no sender is left.
    pub(crate) fn take<H: Wait>(&mut self, rt: &H) -> Option<Message>
        requires { 0 < (view self.old.pass).made }
        ensures same { receives_on self.new.from ≡ receives_on self.old.from }
        ensures some { IfSome result (λ m. (view self.new.pass ≡ after_receive (view self.old.pass) m)
            × AreFit (view self.old.pass).fields (chunk_in m)) }
        ensures none { result ≡ None → view self.new.pass ≡ view self.old.pass }
    {
        match self.from.recv_as::<Receives, H>(rt, &mut self.pass) {
            Ok(message) => Some(message),
            Err(_) => None,
        }
    }

    /// The next message that the channel holds, if it holds one.
    pub(crate) fn take_now<H: Wait>(&mut self, rt: &H) -> Option<Message>
        requires { 0 < (view self.old.pass).made }
        ensures same { receives_on self.new.from ≡ receives_on self.old.from }
        ensures some { IfSome result (λ m. (view self.new.pass ≡ after_receive (view self.old.pass) m)
            × AreFit (view self.old.pass).fields (chunk_in m)) }
        ensures none { result ≡ None → view self.new.pass ≡ view self.old.pass }
        ensures all { result ≡ None → KnowsAll (view self.old.pass)
            → AreWhole (lists_of (view self.old.pass).sent) (view self.old.pass).got }
    {
        match self.from.try_recv_as::<Receives, H>(rt, &mut self.pass) {
            Ok(message) => Some(message),
            Err(_) => None,
        }
    }

    /// Takes in the pass of a sender, which sends no more.
    pub(crate) fn join(&mut self, way: SenderWay)
        requires { sends_on way.to ≡ receives_on self.old.from }
        ensures same { receives_on self.new.from ≡ receives_on self.old.from }
        ensures joined { view self.new.pass ≡ joined (view self.old.pass) (view way.pass) }
    {
        let SenderWay { to, pass } = way;
        to.absorb::<Joins>(&mut self.pass, pass);
    }
}
