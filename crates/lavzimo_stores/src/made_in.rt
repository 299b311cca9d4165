//! Where a store was made, behind others, of which the code holds nothing.

use pipe_columns::Text;
use std::snapshot::Snapshot;

/// No store, or one behind others, which lies in memory or in a folder. Contracts alone see them.
#[derive(Drop)]
pub(crate) enum MadeIn {
    Nothing,
    Memory(Snapshot<MadeIn>),
    Folder(Snapshot<MadeIn>, Snapshot<Text>),
}
