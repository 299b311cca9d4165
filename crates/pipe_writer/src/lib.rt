//! A sink of files whose channel is proved: what its senders sent is what its writer wrote.
#![tactic(auto)]

mod arrivals;
mod channel_writer;
mod line;
mod message;
mod receiving;
mod rest;
mod rule;
mod ruled_end;
mod ruled_files_sink;
mod ruled_sender;
mod sender_way;
mod writing;

pub use arrivals::{Arrival, Arrivals};
pub use ruled_end::RuledEnd;
pub use ruled_files_sink::RuledFilesSink;
pub use ruled_sender::RuledSender;
