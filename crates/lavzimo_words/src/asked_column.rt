//! A column that is asked for.

use crate::role::Role;
use pipe_columns::{DataType, Text};

/// A column that is shown, under a name of its own: what is asked of which column of the files, and the
/// type of that column. Where rows are counted, the column's name is empty.
#[derive(Debug, Drop)]
pub struct AskedColumn {
    pub role: Role,
    pub column: Text,
    pub dtype: DataType,
    pub name: Text,
}
