//! A name behind others, of which the code holds nothing.

use pipe_columns::Text;
use std::snapshot::Snapshot;

/// No name, or one behind others. Contracts alone see them.
#[derive(Drop)]
pub(crate) enum TriedName {
    None,
    Behind(Snapshot<TriedName>, Snapshot<Text>),
}
