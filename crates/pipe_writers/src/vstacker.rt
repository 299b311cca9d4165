//! Frames joined until they have enough rows.

ghost use Rattle.std.specs.Prelude.{◌≡◌, ◌++◌, IfOk, OnErr, OnOk, None};
ghost use Rattle.pipe_writers.specs.Waiting.{waiting_rows};
ghost use Rattle.pipe_writers.specs.Kept.{StacksOn, with_frame_below};
ghost use Rattle.pipe_lines.specs.Rows.{frame_rows};
ghost use Rattle.pipe_writers.specs.Vstacker.{completed, if_rows, left_waiting};

use crate::stack::put_below;
use pipe_columns::DataFrame;
use std::alloc::AllocError;
use std::marker::Model;

/// Joins frames, and gives them once they have so many rows at least. Contracts see this number
/// and the frame that waits.
#[derive(Drop)]
pub struct StreamingVstacker {
    rows: usize,
    waiting: Option<DataFrame>,
}

impl Model for StreamingVstacker {
    ghost use Rattle.pipe_writers.specs.Vstacker.{VstackerData};

    ghost Value = { VstackerData };

    ghost view = { λ v. record { rows = v.rows; waiting = v.waiting } };
}

impl StreamingVstacker {
    /// Nothing waits at first.
    pub fn new(rows: usize) -> StreamingVstacker
        ensures { result ≡ record { rows = rows; waiting = None } }
    {
        StreamingVstacker {
            rows,
            waiting: None,
        }
    }

    /// Takes a frame, and gives all that waits where it has enough rows then. Where memory is
    /// wanting, what waits is as before.
    pub fn add(&mut self, frame: DataFrame) -> Result<Option<DataFrame>, AllocError>
        requires { StacksOn self.old.waiting frame }
        ensures given { IfOk result (λ given. given ≡ completed self.old frame) }
        ensures rows { frame_rows (with_frame_below self.old.waiting frame)
            ≡ waiting_rows self.old.waiting ++ frame_rows frame }
        ensures waiting { OnOk result (self.new ≡ record self.old {
          waiting = left_waiting self.old frame;
        }) }
        ensures err { OnErr result (self.new ≡ self.old) }
    {
        put_below(&mut self.waiting, frame)?;
        let is_enough = match &self.waiting {
            Some(all) => self.rows <= all.height(),
            None => false,
        };
        if is_enough {
            Ok(self.waiting.take())
        } else {
            Ok(None)
        }
    }

    /// Gives what waits, where it has a row.
    pub fn finish(&mut self) -> Option<DataFrame>
        ensures given { result ≡ if_rows self.old.waiting }
        ensures waiting { self.new ≡ record self.old { waiting = None } }
    {
        let waiting = self.waiting.take()?;
        if waiting.height() == 0 {
            None
        } else {
            Some(waiting)
        }
    }
}
