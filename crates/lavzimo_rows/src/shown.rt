//! What is shown of an answer.

ghost use Rattle.std.specs.Prelude.{◌≡◌};

use crate::columns::ShownColumn;
use crate::row_order::RowOrder;
use std::marker::Model;

/// What is shown of an answer: columns, the order of rows by its keys, which are its first columns,
/// or by what a column shows, how many rows are passed over, and how many are shown at most.
#[derive(Debug, Drop)]
pub struct Shown {
    columns: Vec<ShownColumn>,
    keys: usize,
    order: RowOrder,
    offset: usize,
    limit: Option<usize>,
}

impl Model for Shown {
    ghost use Rattle.lavzimo_rows.specs.Shown.{ShownData};

    ghost Value = { ShownData };

    ghost view = { λ s. record {
      columns = s.columns.items;
      keys = s.keys;
      order = s.order;
      offset = s.offset;
      limit = s.limit;
    } };
}

impl Shown {
    /// All rows in an order.
    pub fn new(columns: Vec<ShownColumn>, keys: usize, order: RowOrder) -> Shown
        ensures { result ≡ record {
          columns = columns.items;
          keys = keys;
          order = order;
          offset = 0;
          limit = None;
        } }
    {
        Shown {
            columns,
            keys,
            order,
            offset: 0,
            limit: None,
        }
    }

    /// The same rows without the first ones, and with so many of the rest at most.
    pub fn limited(self, offset: usize, limit: Option<usize>) -> Shown
        ensures { result ≡ record self { offset = offset; limit = limit } }
    {
        let Shown {
            columns,
            keys,
            order,
            offset: _,
            limit: _,
        } = self;
        Shown {
            columns,
            keys,
            order,
            offset,
            limit,
        }
    }

    pub fn columns(&self) -> &[ShownColumn]
        ensures { result.now ≡ self.now.columns }
    {
        &self.columns
    }

    pub fn keys(&self) -> usize
        ensures { result ≡ self.now.keys }
    {
        self.keys
    }

    pub fn order(&self) -> RowOrder
        ensures { result ≡ self.now.order }
    {
        self.order
    }

    pub fn offset(&self) -> usize
        ensures { result ≡ self.now.offset }
    {
        self.offset
    }

    pub fn limit(&self) -> Option<usize>
        ensures { result ≡ self.now.limit }
    {
        self.limit
    }
}
