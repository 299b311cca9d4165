//! How the writing of a sink ended.

use crate::arrivals::Arrivals;
use pipe_writers::WriteError;

/// How the writing of a sink ended: what arrived, whether all of it was written, and the writer.
#[derive(Drop)]
pub struct RuledEnd<W> {
    pub arrivals: Arrivals,
    pub result: Result<(), WriteError>,
    pub writer: W,
}
