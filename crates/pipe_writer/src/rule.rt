//! The rule of a channel to a writer, and its steps.

ghost use Rattle.std.specs.Prelude.{◌≡◌, List, []};
ghost use Rattle.pipe_columns.specs.declared.schema.Field.{Field};
ghost use Rattle.pipe_writer.specs.Carries.{Carries, LearnsAll, after_making, first_known, joined, knows_nothing, made_pass};
ghost use Rattle.pipe_writer.specs.Sent.{AreFit, after_receive, after_send, chunk_in};

use crate::message::{Known, Message};
use crossbeam_channel::protocol::{Join, Lesson, Outcome, Protocol, Split};
use crossbeam_channel::{Pass, RuledReceiver, RuledSender};
use std::alloc::Global;
use std::marker::{Brand, PhantomData};

/// What holds of a channel to a writer.
pub(crate) struct Carried;

impl Protocol<Message, Known> for Carried {
    ghost holds = { Carries };

    ghost first = { first_known };
}

/// A thread's pass to the channel.
pub(crate) type WriterPass = Pass<Message, Known>;

/// The sending end of the channel.
pub(crate) type ToWriter = RuledSender<Message, Known, Carried, Global>;

/// The receiving end.
pub(crate) type FromSenders = RuledReceiver<Message, Known, Carried, Global>;

/// A sender sends.
pub(crate) struct Sends;

impl Outcome<Message, Known> for Sends {
    ghost then = { λ v m w. w ≡ after_send v m };
}

impl Lesson<Message, Known> for Sends {
    ghost fact = { λ v items. Unit {0} };
}

/// The writer receives, or finds nothing.
pub(crate) struct Receives;

impl Outcome<Message, Known> for Receives {
    ghost then = { λ v m w. (w ≡ after_receive v m) × AreFit v.fields (chunk_in m) };
}

impl Lesson<Message, Known> for Receives {
    ghost fact = { LearnsAll };
}

/// What is written.
pub(crate) trait Written {
    /// The fields of its frames.
    ghost fields: { List Field };
}

impl Written for Brand {
    ghost fields = { [] };
}

/// The making of a sender's pass.
pub(crate) struct Makes<N> {
    of: PhantomData<N>,
}

impl<N: Written> Split<Known> for Makes<N> {
    ghost left = { after_making N.fields };

    ghost right = { made_pass N.fields };
}

/// The joining of passes.
pub(crate) struct Joins;

impl Join<Known> for Joins {
    ghost both = { joined };

    ghost spent = { knows_nothing };
}
