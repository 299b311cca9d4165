//! What the groups of partitions become: a frame, or the lines of its rows.

ghost use Rattle.std.specs.Prelude.{◌≡◌, ◌<◌, [], IfOk, List, OnOk, ⊤};
ghost use Rattle.pipe_columns.specs.declared.schema.Field.{Field};
ghost use Rattle.pipe_columns.specs.Frame.{AllHaveHeight, fields_of, frame_of, FrameData, stacked};
ghost use Rattle.pipe_lines.specs.Lines.{joined_texts, lines_of};
ghost use Rattle.pipe_asked.specs.Wholes.{AreAlike, IsWholeOfGroups};

use crate::stacking::put_below;
use pipe_columns::{DataFrame, Schema};
use pipe_groups::GroupPieces;
use pipe_lines::{Lines, add_all_lines};
use std::alloc::{AllocError, Global};

/// What the groups of partitions become: a whole, made part by part of frames.
pub trait Form {
    /// A whole.
    type Whole: Drop + Send;

    /// It takes frames of these fields.
    ghost takes: { Self → List Field → Type 0 };

    /// A whole is that of a frame.
    ghost is: { Self → Self.Whole → FrameData → Type 0 };

    /// How many groups it takes at a time, where groups are given piece by piece.
    fn piece(&self) -> usize
        ensures { 0 < result };

    /// The whole of no rows.
    fn none(&self, alloc: Global, schema: &Schema) -> Result<Self::Whole, AllocError>
        requires { takes self.now schema.now }
        ensures { IfOk result (λ w. is self.now w (frame_of schema.now [])) };

    /// The whole of a frame.
    fn of_frame(&self, alloc: Global, frame: DataFrame) -> Result<Self::Whole, AllocError>
        requires { takes self.now (fields_of frame.columns) }
        ensures { IfOk result (λ w. is self.now w frame) };

    /// Puts the rows of another whole below its own.
    fn put_below(&self, whole: &mut Self::Whole, more: Self::Whole) -> Result<(), AllocError>
        requires { AreAlike (is self.now) whole.old more }
        ensures { OnOk result ((f g : FrameData) → fields_of g.columns ≡ fields_of f.columns
            → AllHaveHeight f.height f.columns → is self.now whole.old f → is self.now more g
            → is self.now whole.new (stacked f g)) };

    /// The whole of the groups that are left to give, made piece by piece: the frame of each piece goes
    /// before the next is made.
    fn of_pieces(
        &self,
        alloc: Global,
        schema: &Schema,
        pieces: &mut GroupPieces,
    ) -> Result<Self::Whole, AllocError>
        requires takes { takes self.now pieces.old.shape.fields }
        requires schema { schema.now ≡ pieces.old.shape.fields }
        ensures { IfOk result
            (IsWholeOfGroups (is self.now) pieces.old.shape pieces.old.left) }
    {
        let most = self.piece();
        let first = pieces.next_piece(most)?;
        let Some(front) = first else {
            return self.none(alloc, schema);
        };
        let mut whole = self.of_frame(alloc, front)?;
        'rest: loop {
            let given = pieces.next_piece(most)?;
            let Some(piece) = given else {
                return Ok(whole);
            };
            let more = self.of_frame(alloc, piece)?;
            self.put_below(&mut whole, more)?;
        }
    }
}

/// The frame itself.
#[derive(Drop)]
pub struct AsFrame;

impl Form for AsFrame {
    type Whole = DataFrame;

    ghost takes = { λ form fields. ⊤ };

    ghost is = { λ form w f. w ≡ f };

    fn piece(&self) -> usize {
        usize::MAX
    }

    fn none(&self, alloc: Global, schema: &Schema) -> Result<DataFrame, AllocError> {
        DataFrame::empty_with_schema(alloc, schema)
    }

    fn of_frame(&self, _alloc: Global, frame: DataFrame) -> Result<DataFrame, AllocError> {
        Ok(frame)
    }

    fn put_below(&self, whole: &mut DataFrame, more: DataFrame) -> Result<(), AllocError> {
        put_below(whole, more)
    }
}

/// The texts of groups, one behind another, and how many groups they are of.
#[derive(Drop)]
pub struct GroupsText {
    pub texts: Vec<Vec<u8>>,
    pub height: usize,
}

/// The lines of a frame's rows.
#[derive(Drop)]
pub struct AsText<'a, L> {
    pub lines: &'a L,
}

impl<'a, L: Lines> Form for AsText<'a, L> {
    type Whole = GroupsText;

    ghost takes = { λ t fields. (L.shape t.lines.now).fields ≡ fields };

    ghost is = { λ t w f. (joined_texts w.texts.items ≡ lines_of (L.shape t.lines.now) f)
        × (w.height ≡ f.height) };

    fn piece(&self) -> usize {
        4096
    }

    fn none(&self, alloc: Global, _schema: &Schema) -> Result<GroupsText, AllocError> {
        Ok(GroupsText {
            texts: Vec::new(alloc),
            height: 0,
        })
    }

    fn of_frame(&self, alloc: Global, frame: DataFrame) -> Result<GroupsText, AllocError> {
        let height = frame.height();
        let text = add_all_lines(self.lines, Vec::new(alloc), &frame)?;
        drop(frame);
        let mut texts = Vec::new(alloc);
        texts.push(text)?;
        Ok(GroupsText { texts, height })
    }

    fn put_below(&self, whole: &mut GroupsText, more: GroupsText) -> Result<(), AllocError> {
        let GroupsText { mut texts, height } = more;
        let Some(height) = whole.height.checked_add(height) else {
            return Err(AllocError);
        };
        whole.texts.append(&mut texts)?;
        whole.height = height;
        Ok(())
    }
}
