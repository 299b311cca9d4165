//! Calls on saved states in memory, as bytes with a status: the state of a text of CSV, and what states
//! come to by some of their keys. No thread is started, no lock taken and no runtime asked.
#![tactic(auto)]

mod answer;
mod feed_left;
mod laws;
mod lengths;
mod names;
mod next_fitting;
mod put;
mod question;
mod rolled;
mod saved;
mod worked;

pub use answer::{roll, save};
pub use put::{roll_into, save_into};
