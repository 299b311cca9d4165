//! How refused words are told.

use lavzimo_words::Refusal;
use pipe_columns::Text;
use std::alloc::{AllocError, Global};

/// How it is told that a command doesn't take words: what `clap` says, without its last end of
/// line.
pub(crate) fn faulty_text(alloc: Global, text: &Text) -> Result<String, AllocError> {
    String::from_str(alloc, text.as_str().trim_end())
}

/// How refused words are told.
pub(crate) fn refusal_text(alloc: Global, refusal: &Refusal) -> Result<String, AllocError> {
    format!(in alloc; "{refusal}")
}
