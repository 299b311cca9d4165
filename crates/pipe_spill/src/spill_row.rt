//! Rows that are spilled, and payloads of them.

use crate::key_bytes::KeyBytes;
use crate::values::Values;
use pipe_columns::Place;
use std::marker::Model;

/// A row without its key's values: where it stands, the code of its key, and the inputs of the
/// aggregates.
#[derive(Debug, Drop)]
pub struct SpillRow {
    pub place: Place,
    pub key: KeyBytes,
    pub values: Values,
}

/// Rows that leave a worker together.
#[derive(Debug, Drop)]
pub struct SpillPayload {
    pub rows: Vec<SpillRow>,
}

impl Model for SpillPayload {
    ghost use Rattle.pipe_spill.specs.SpillRow.{Payload};

    ghost Value = { Payload };

    ghost view = { λ p. record { rows = p.rows.items } };
}
