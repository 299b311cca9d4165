//! What a run gives.

ghost use Rattle.std.specs.Prelude.{◌≡◌};

use pipe_asked::GroupsText;
use pipe_columns::DataFrame;
use pipe_global::Journals;

/// What a run gives: the frame of its groups, the journal of each partition, in order, and how many
/// rows went to all partitions.
#[derive(Drop)]
pub struct GroupByOutput {
    pub frame: DataFrame,
    pub journals: Journals,
    pub overflow: u64,
}

/// What a run gives as text: the lines of its groups, the journal of each partition, in order, and how
/// many rows went to all partitions.
#[derive(Drop)]
pub struct TextOutput {
    pub text: GroupsText,
    pub journals: Journals,
    pub overflow: u64,
}

/// What a run gives, whatever its groups became.
pub(crate) struct Finished<W> {
    pub(crate) whole: W,
    pub(crate) journals: Journals,
    pub(crate) overflow: u64,
}

impl Finished<DataFrame> {
    /// With the frame of the groups.
    pub(crate) fn as_frame(self) -> GroupByOutput
        ensures { result ≡ record {
          frame = self.whole;
          journals = self.journals;
          overflow = self.overflow;
        } }
    {
        let Finished {
            whole: frame,
            journals,
            overflow,
        } = self;
        GroupByOutput {
            frame,
            journals,
            overflow,
        }
    }
}

impl Finished<GroupsText> {
    /// With the lines of the groups.
    pub(crate) fn as_text(self) -> TextOutput
        ensures { result ≡ record {
          text = self.whole;
          journals = self.journals;
          overflow = self.overflow;
        } }
    {
        let Finished {
            whole: text,
            journals,
            overflow,
        } = self;
        TextOutput {
            text,
            journals,
            overflow,
        }
    }
}
