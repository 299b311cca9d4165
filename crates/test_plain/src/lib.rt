//! The plain program: groups in a sorted list. It is simple, and its contract is the answer itself,
//! so faster programs are tested beside it.
#![tactic(auto)]

mod frame;
mod groups;
mod guesses;
mod order;
mod plain;
mod table;

pub use pipe_inputs::are_chunks;
pub use plain::plain_answer;
pub use table::PlainGroups;
