//! The values of a node in the rows of a chunk, while it is evaluated.

ghost use Rattle.std.specs.Prelude.{◌≡◌, ◌<◌, IfOk, map, true};
ghost use Rattle.std.specs.List.{range_with_len};
ghost use Rattle.pipe_exprs.specs.declared.operand.Operand.TheVariants as operand;
ghost use Rattle.pipe_exprs.specs.Operands.{has_height, has_row, IsSameOperand, operand_at};

use pipe_columns::AnyValue;
use std::alloc::{AllocError, Global};

/// The values of a node in the rows of a chunk: those of a column, one for all rows, or a list.
#[derive(Drop)]
pub(crate) enum Operand<'a> {
    Lent(&'a [AnyValue]),
    Constant(AnyValue),
    Own(Vec<AnyValue>),
}

impl<'a> Operand<'a> {
    #[tactic(auto, using(crate::proofs::RowFacts::value_read))]
    pub(crate) fn at(&self, row: usize) -> &AnyValue
        requires { has_row self.now row ≡ true }
        ensures { result.now ≡ operand_at self.now row }
    {
        match self {
            Operand::Lent(values) => {
                let values: &[AnyValue] = *values;
                &values[row]
            }
            Operand::Constant(value) => value,
            Operand::Own(values) => &values[row],
        }
    }

    /// The values of so many rows, each of its own.
    #[tactic(auto, using(crate::proofs::RowFacts::rows_more))]
    pub(crate) fn copied(&self, alloc: Global, height: usize) -> Result<Vec<AnyValue>, AllocError>
        requires { has_height self.now height ≡ true }
        ensures { IfOk result (λ vs. vs.items
            ≡ map (λ row. operand_at self.now row) (range_with_len 0 height)) }
    {
        let mut values = Vec::with_capacity(alloc, height)?;
        for row in 0..height {
            values.push(self.at(row).try_clone(alloc)?)?;
        }
        Ok(values)
    }

    /// An equal operand: a column is lent again, and values of its own are copied.
    pub(crate) fn try_clone(&self, alloc: Global, height: usize) -> Result<Operand<'a>, AllocError>
        requires { has_height self.now height ≡ true }
        ensures { IfOk result (λ o. IsSameOperand height self.now o) }
    {
        match self {
            Operand::Lent(values) => Ok(Operand::Lent(*values)),
            Operand::Constant(value) => Ok(Operand::Constant(value.try_clone(alloc)?)),
            Operand::Own(_) => Ok(Operand::Own(self.copied(alloc, height)?)),
        }
    }

    /// The values of so many rows, each of its own: a list that is held is not copied.
    pub(crate) fn into_vec(self, alloc: Global, height: usize) -> Result<Vec<AnyValue>, AllocError>
        requires { has_height self height ≡ true }
        ensures { IfOk result (λ vs. IsSameOperand height self.entry (operand.Own vs)) }
    {
        match self {
            Operand::Own(values) => Ok(values),
            lent => lent.copied(alloc, height),
        }
    }
}
