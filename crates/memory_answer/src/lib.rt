//! The answer of a query over a text of CSV in memory, as bytes with a status: no thread is started, no
//! lock taken and no runtime asked.
#![tactic(auto)]

mod answer;
mod fault;
mod frame_text;
mod line;
mod put;
mod query_bytes;
mod text_output;
mod worked;

pub use answer::group;
pub use fault::{Fault, status_of};
pub use frame_text::text_of_frame;
pub use line::fault_line;
pub use put::{ROOM_SHORT, group_into, put_bytes};
