//! The answer of `lavzimo`: from the words of a command to the bytes of its output, its line and
//! its exit status.
#![tactic(auto)]

mod answer;
mod asked_run;
mod ended;
mod fault;
mod lavzimo;
mod line;
mod look;
mod names;
mod question;
mod read_line;
mod report;
mod words_line;
mod written;

pub use ended::LavzimoEnd;
pub use fault::Fault;
pub use lavzimo::run_lavzimo;
pub use look::{ClosableOutput, Look, Looks};
pub use names::Names;
