//! Why words are refused.

ghost use Rattle.std.specs.Prelude.{◌≡◌};
ghost use Rattle.lavzimo_words.specs.declared.refusal.AskError.TheVariants as ask_error;

use pipe_columns::{DataType, Text};
use std::alloc::{AllocError, AllocFailed};
use thiserror::Error;

/// Why words are refused.
#[derive(Debug, Drop, Error)]
pub enum Refusal {
    /// Neither keys nor anything else is asked.
    #[error("nothing is asked: --by, --count or another column is wanted")]
    NothingAsked,
    /// An option that may not stand beside `--query`.
    #[error("--{} may not stand beside --query", .0.as_str())]
    BesideQuery(Text),
    /// A piece of an option's list lacks a column's name, or the name behind its `=`.
    #[error("--{}: `{}` lacks a name", option.as_str(), piece.as_str())]
    Nameless {
        option: Text,
        piece: Text,
    },
    /// A column is said to have two types.
    #[error("column {} is said to have two types", .0.as_str())]
    TwoTypes(Text),
    /// A column whose type an option doesn't take.
    #[error("--{} doesn't take column {}, which is {}", option.as_str(), column.as_str(), type_name(*dtype))]
    Unsuited {
        option: Text,
        column: Text,
        dtype: DataType,
    },
    /// Two shown columns have one name.
    #[error("two columns would be named {}", .0.as_str())]
    DoubleName(Text),
    /// No shown column has the name that an order has.
    #[error("--order: no column {} is shown", .0.as_str())]
    NoOutput(Text),
    /// The value of an option isn't a number that it may have.
    #[error("--{} can't be {}", option.as_str(), value.as_str())]
    NoNumber {
        option: Text,
        value: Text,
    },
    /// A format of no such name.
    #[error("--format can't be {}: csv or json", .0.as_str())]
    NoFormat(Text),
}

/// What a column of a type is.
fn type_name(dtype: DataType) -> &'static str {
    match dtype {
        DataType::String => "a text",
        DataType::Boolean => "a truth",
        DataType::Date => "a date",
        _ => "a number",
    }
}

/// Why nothing came of words.
#[derive(Drop)]
pub(crate) enum AskError {
    Refused(Refusal),
    Memory,
}

impl From<AllocError> for AskError {
    ghost from_gives = { λ _ e. e ≡ ask_error.Memory };

    fn from(_: AllocError) -> Self {
        AskError::Memory
    }
}

impl<T: Drop> From<AllocFailed<T>> for AskError {
    ghost from_gives = { λ _ e. e ≡ ask_error.Memory };

    fn from(_: AllocFailed<T>) -> Self {
        AskError::Memory
    }
}
