//! Texts in memory as inputs, which never fail: one file, or pieces of a text as files.
#![tactic(auto)]

mod pieces_input;
mod text_input;

pub use pieces_input::PiecesInput;
pub use text_input::TextInput;
