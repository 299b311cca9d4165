//! How an insert into buffers or a local table ends.

ghost use Rattle.std.specs.Prelude.{◌≡◌};
ghost use Rattle.pipe_tables.specs.Buffers.{is_taken, is_taken_lent, left_by, left_by_lent};

use pipe_spill::{SpillPayload, SpillRow};

/// How an insert of a row ends. A row that isn't taken is handed back.
#[derive(Debug, Drop)]
pub enum LocalEnd {
    /// The row was taken in.
    Done,
    /// It was taken in, and filled the buffer of a partition, whose rows leave.
    Payload(usize, SpillPayload),
    /// Memory was wanting.
    Memory(SpillRow),
}

/// How an insert of a row that is lent ends.
#[derive(Debug, Drop)]
pub enum LentLocalEnd {
    /// The row was taken in.
    Done,
    /// It was taken in, and filled the buffer of a partition, whose rows leave.
    Payload(usize, SpillPayload),
    /// Memory was wanting.
    Memory,
}

impl LocalEnd {
    /// The same end where the row was lent.
    pub(crate) fn lent(self) -> LentLocalEnd
        ensures taken { is_taken_lent result ≡ is_taken self }
        ensures left { left_by_lent result ≡ left_by self }
    {
        match self {
            LocalEnd::Done => LentLocalEnd::Done,
            LocalEnd::Payload(partition, payload) => LentLocalEnd::Payload(partition, payload),
            LocalEnd::Memory(_) => LentLocalEnd::Memory,
        }
    }
}
