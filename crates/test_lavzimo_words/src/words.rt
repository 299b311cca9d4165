//! Words, and what was read in them.

use lavzimo_words::{Asked, Columns, Question, Reading};
use pipe_columns::Text;
use pipe_words::Format;
use std::alloc::{AllocError, Global};

/// Words as texts.
pub(crate) fn words_of(alloc: Global, words: &[&str]) -> Result<Vec<Text>, AllocError> {
    let mut texts = Vec::new(alloc);
    for word in words {
        texts.push(Text::new(alloc, word)?)?;
    }
    Ok(texts)
}

/// Whether a text is there, and this one.
fn is_text(text: Option<&Text>, want: &str) -> bool {
    match text {
        Some(text) => text.as_str() == want,
        None => false,
    }
}

/// Whether a run is asked for with settings.
pub(crate) fn is_set(asked: &Asked) -> bool {
    asked.format == Format::Json
        && asked.workers == Some(3)
        && asked.partitions == 4
        && is_text(asked.spill_dir.as_ref(), "dir")
        && asked.files.len() == 2
        && is_text(asked.files.first(), "a.csv")
        && is_text(asked.files.last(), "--sum")
}

/// Whether one is asked for without.
pub(crate) fn is_usual(asked: &Asked) -> bool {
    asked.format == Format::Csv
        && asked.workers == None
        && asked.partitions == 16
        && asked.spill_dir.is_none()
        && asked.files.len() == 1
        && is_text(asked.files.first(), "-")
}

/// The columns that were read in words.
pub(crate) fn columns_in(reading: &Reading) -> Option<&Columns> {
    match reading {
        Reading::Asked(asked) => match &asked.question {
            Question::Columns(columns) => Some(columns),
            Question::File(_) => None,
        },
        _ => None,
    }
}
