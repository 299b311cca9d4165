//! What words ask for.

use pipe_aggs::Query;
use pipe_words::Plan;
use tool_made::Made;

/// The answer of a query without fault over files, by a plan whose sink keeps the query's keys.
#[derive(Drop)]
pub struct Question {
    pub plan: Plan,
    pub query: Query,
}

/// The lines that tell of a run over generated rows, by a plan whose sink keeps their keys.
#[derive(Drop)]
pub struct MadeQuestion {
    pub plan: Plan,
    pub query: Query,
    pub rows: Made,
}

/// What words ask for.
#[derive(Drop)]
pub enum Request {
    Answer(Question),
    Lines(MadeQuestion),
}
