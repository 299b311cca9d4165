//! The answer to one command: from its words to the bytes of its output, its line and its exit status.
#![tactic(auto)]

mod answer_text;
mod ended;
mod fault;
mod line;
mod made;
mod made_run;
mod read;
mod ready;
mod run;
mod stores;
mod tool;

pub use ended::ToolEnd;
pub use tool::run_tool;
