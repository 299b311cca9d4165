//! A channel to a writer and the ways of its senders.

ghost use Rattle.std.specs.Prelude.{◌≡◌, ◌≤◌, ◌<◌, [], IfOk};
ghost use Rattle.pipe_writer.specs.Line.{IsLine};

use crate::receiving::{Receiving, open};
use crate::ruled_sender::RuledSender;
use pipe_columns::Schema;
use std::alloc::{AllocError, Global};
use std::snapshot::Snapshot;
use std::sync::Wait;

/// The receiving end of a channel, its one or two senders, and room for as many.
#[derive(Drop)]
pub(crate) struct Line<H> {
    pub(crate) receiving: Receiving,
    pub(crate) first: RuledSender<H>,
    pub(crate) second: Option<RuledSender<H>>,
    pub(crate) ends: Vec<RuledSender<H>>,
}

impl<H: Wait + Copy> Line<H> {
    /// One for frames of a schema.
    pub(crate) fn new(
        rt: H,
        alloc: Global,
        schema: &Schema,
        room: usize,
        senders: usize,
    ) -> Result<Line<H>, AllocError>
        requires room { 0 < room }
        requires one { 0 < senders }
        requires two { senders ≤ 2 }
        ensures made { IfOk result (IsLine schema.now senders) }
    {
        let ends = Vec::with_capacity(alloc, senders)?;
        let (to, receiving) = open(alloc, room)?;
        let mut receiving = receiving;
        if senders == 1 {
            let way = receiving.next_way(to, schema);
            let first = RuledSender::new(rt, alloc, 0, Snapshot::of(schema), Some(way));
            return Ok(Line {
                receiving,
                first,
                second: None,
                ends,
            });
        }
        let other = to.try_clone()?;
        let way = receiving.next_way(to, schema);
        let first = RuledSender::new(rt, alloc, 0, Snapshot::of(schema), Some(way));
        let way = receiving.next_way(other, schema);
        let second = RuledSender::new(rt, alloc, 1, Snapshot::of(schema), Some(way));
        Ok(Line {
            receiving,
            first,
            second: Some(second),
            ends,
        })
    }
}
