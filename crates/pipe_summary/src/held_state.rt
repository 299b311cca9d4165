//! A state behind others, of which the code holds nothing.

use pipe_states::StateFile;
use std::snapshot::Snapshot;

/// No state, or one behind others. Contracts alone see them.
#[derive(Drop)]
pub(crate) enum HeldState {
    None,
    Behind(Snapshot<HeldState>, Snapshot<StateFile>),
}
