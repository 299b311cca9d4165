//! What arrived at a writer.

/// That a chunk of a sender arrived: the sender's number, and the chunk's number among those of that
/// sender.
#[derive(Debug, Drop, PartialEq, Eq)]
pub struct Arrival {
    pub sender: usize,
    pub number: u64,
}

/// What arrived, in its order.
pub type Arrivals = Vec<Arrival>;
